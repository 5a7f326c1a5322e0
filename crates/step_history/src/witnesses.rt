//! Runs and worlds to which small heaps come, so that laws of reached worlds speak of something. The functions do nothing.

ghost use Rattle.std.specs.Prelude.{◌≡◌, ◌≢◌, ℕ, [], List, length, Some, true, Result, Ok};
ghost use Rattle.mark_word.specs.declared.owner.OwnerForm.TheVariants.{ByThread, ByRecord};
ghost use Rattle.mark_word.specs.Owner.{owner_of};
ghost use Rattle.mark_word.specs.Safe.{read_safe};
ghost use Rattle.core_world.specs.declared.answer.StackOut.TheVariants.{Not};
ghost use Rattle.core_world.specs.declared.answer.Progress.TheVariants.{Pending};
ghost use Rattle.core_world.specs.declared.answer.PendingCause.TheVariants.{Raced};
ghost use Rattle.core_world.specs.declared.word_id.WordId.TheVariants.{Safepoint, Mark, Waiting, Owner};
ghost use Rattle.core_world.specs.declared.heap_call.HeapCall.TheVariants.{Request, StackExit};
ghost use Rattle.core_world.specs.declared.heap_call.Operation.TheVariants as op;
ghost use Rattle.core_world.specs.Opening.{first_known};
ghost use Rattle.core_world.specs.RevocationRules.{writes_in};
ghost use Rattle.core_world.specs.Steps.{is_idle};
ghost use Rattle.core_world.specs.Threads.ThreadView.{Local, Start, StepMade, local_of};
ghost use Rattle.core_world.specs.Threads.Stages.{revocation_in};
ghost use Rattle.core_world.specs.Trees.LockSteps.{stack_exit_steps};
ghost use Rattle.core_world.specs.Trees.Operations.{enter_steps, exit_steps, wait_steps, notify_steps, notify_all_steps};
ghost use Rattle.core_world.specs.Trees.Operations.{hash_steps, dump_steps, check_steps, lone_context};
ghost use Rattle.core_world.specs.Trees.Plans.{call_context};
ghost use Rattle.core_world.specs.Trees.SafepointSteps.{resume_steps, request_steps, running_too};
ghost use Rattle.core_world.specs.Words.Forms.{monitor_in, waits_on, is_halted};
ghost use Rattle.core_law.specs.Reached.{IsReachable};
ghost use Rattle.step_history.specs.Examples.{lone, biased, world_of, waits, halts, contends, owns_beside, revokes};
ghost use Rattle.step_history.specs.Leads.{Leads};
ghost use Rattle.step_history.specs.Overtaken.{IsCallOf};
ghost use Rattle.step_history.specs.Race.{rivals, resuming, at_first, other_missed};
ghost use Rattle.step_history.specs.Turns.{all_step};

/// A heap of two threads comes in four steps to a world in which thread 0 has called a resume that missed its exchange: it expected the
/// word 0, in which nobody runs, and found that thread 1 runs. So what `calls_race_only_with_another_thread` asks for comes about.
pub fn a_resume_can_race()
    ensures { (xs : List (ℕ × StepMade)) × Leads at_first xs other_missed × (length xs ≡ 4)
        × IsCallOf 0 (resume_steps resuming (local_of (first_known 0))) xs
        (Pending (Raced 0 (running_too (read_safe 0) 1))) }
{}

/// Small heaps come to these worlds. A lock record of thread 0 owns the monitor of an inflated object, for which
/// thread 1 is pending: it is in no call, and has an enter of that object to finish (`owned`). Thread 0 waits, alone
/// or beside thread 1, which owns the object (`waits`, `beside`). The run is halted (`halted`). Thread 1 is revoking
/// a bias, after its first store (`revoking`).
pub fn heaps_come_to_such_worlds()
    ensures owned { IsReachable rivals (world_of rivals contends)
        × (monitor_in ((world_of rivals contends).words (Mark 0)) ≡ Some 0)
        × ((world_of rivals contends).words (Owner 0) ≡ owner_of (ByRecord 0 0))
        × (is_idle rivals.shape ((world_of rivals contends).known 1) ≡ true)
        × (((world_of rivals contends).known 1).unfinished ≡ Some (record { op = op.Enter; object = 0 })) }
    ensures waits { IsReachable lone (world_of lone (waits 0))
        × (waits_on ((world_of lone (waits 0)).words (Waiting 0)) 0 ≡ true) }
    ensures beside { IsReachable rivals (world_of rivals owns_beside)
        × (waits_on ((world_of rivals owns_beside).words (Waiting 0)) 0 ≡ true)
        × ((world_of rivals owns_beside).words (Owner 0) ≡ owner_of (ByThread 1)) }
    ensures halted { IsReachable lone (world_of lone (halts 0))
        × (is_halted ((world_of lone (halts 0)).words Safepoint) ≡ true) }
    ensures revoking { IsReachable biased (world_of biased revokes)
        × (revocation_in ((world_of biased revokes).known 1).stage ≡ Some (record { object = 0; rebias = true; now = 0 }))
        × (writes_in ((world_of biased revokes).known 1).seen_at_safepoint ≢ []) }
{}

/// A heap of two threads has a step at each of these turns, by which thread 0 enters the object and thread 1 inflates its lock and is
/// pending for it (`owned` of `heaps_come_to_such_worlds` is of the world after them); and its opening world leads on to that world. So what
/// `turns_lead_on` and `reached_worlds_have_their_steps` ask for comes about.
pub fn turns_of_two_threads_lead_on()
    ensures { IsReachable rivals at_first × (all_step contends at_first ≡ true)
        × ((xs : List (ℕ × StepMade)) × Leads at_first xs (world_of rivals contends)) }
{}

/// So can the other calls of `calls_race_only_with_another_thread`, each from a world to which a heap of two threads comes. Thread 1 resumes
/// meanwhile, where a request for a safepoint misses, by itself or in a dump, a check, or the revocation that a wait, a notify or a notifyAll
/// begins with. It enters the object, where an enter or a hash misses; and it inflates the lock that an exit leaves, as a whole call or by
/// its lock record.
pub fn the_other_calls_can_race()
    ensures enter { (expected : ℕ) × (found : ℕ) × (k : Start) × (xs : List (ℕ × StepMade))
        × (c : IsCallOf 0 (enter_steps rivals.shape k 0 0) xs (Ok (Pending (Raced expected found))))
        × IsReachable rivals c.first }
    ensures exit { (expected : ℕ) × (found : ℕ) × (k : Start) × (xs : List (ℕ × StepMade))
        × (c : IsCallOf 0 (exit_steps k 0) xs (Ok (Pending (Raced expected found))))
        × IsReachable rivals c.first }
    ensures wait { (expected : ℕ) × (found : ℕ) × (k : Start) × (xs : List (ℕ × StepMade))
        × (c : IsCallOf 0 (wait_steps biased.shape k 0 0) xs (Ok (Pending (Raced expected found))))
        × IsReachable biased c.first }
    ensures notify { (expected : ℕ) × (found : ℕ) × (k : Start) × (xs : List (ℕ × StepMade))
        × (c : IsCallOf 0 (notify_steps biased.shape k 0 0) xs (Ok (Pending (Raced expected found))))
        × IsReachable biased c.first }
    ensures notify_all { (expected : ℕ) × (found : ℕ) × (k : Start) × (xs : List (ℕ × StepMade))
        × (c : IsCallOf 0 (notify_all_steps biased.shape k 0 0) xs (Ok (Pending (Raced expected found))))
        × IsReachable biased c.first }
    ensures hash { (expected : ℕ) × (found : ℕ) × (k : Start) × (xs : List (ℕ × StepMade))
        × (c : IsCallOf 0 (hash_steps rivals.shape k 0 0) xs (Pending (Raced expected found)))
        × IsReachable rivals c.first }
    ensures dump { (expected : ℕ) × (found : ℕ) × (k : Start) × (xs : List (ℕ × StepMade))
        × (c : IsCallOf 0 (dump_steps rivals.shape k) xs (Ok (Pending (Raced expected found))))
        × IsReachable rivals c.first }
    ensures check { (expected : ℕ) × (found : ℕ) × (k : Start) × (xs : List (ℕ × StepMade))
        × (c : IsCallOf 0 (check_steps rivals.shape k) xs (Pending (Raced expected found)))
        × IsReachable rivals c.first }
    ensures request { (expected : ℕ) × (found : ℕ) × (xs : List (ℕ × StepMade))
        × (c : IsCallOf 0 (request_steps (lone_context Request) 0) xs (Pending (Raced expected found)))
        × IsReachable rivals c.first }
    ensures stack_exit { (expected : ℕ) × (found : ℕ) × (k : Local) × (xs : List (ℕ × StepMade))
        × (c : IsCallOf 0 (stack_exit_steps (call_context (StackExit 0) op.Exit 0) k 0) xs (Not (Raced expected found)))
        × IsReachable rivals c.first }
{}
