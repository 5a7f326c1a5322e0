//! What holds of every program with blocks and its code.

ghost use Rattle.std.specs.Prelude.{◌≡◌, ◌+◌, ℕ, List, slice_get, Some, decimal};
ghost use Rattle.plain_monitor.specs.declared.entry.Fault.{Fault};
ghost use Rattle.plain_monitor.specs.declared.entry.Ending.TheVariants.{Trap, Done};
ghost use Rattle.plain_monitor.specs.declared.entry.Entry.TheVariants as entry;
ghost use Rattle.plain_monitor.specs.declared.entry.Logged.{Logged};
ghost use Rattle.plain_monitor.specs.History.{log_of};
ghost use Rattle.object_program.specs.Valid.{IsProgram};
ghost use Rattle.object_program.specs.declared.program.Code.TheVariants.{Exit};
ghost use Rattle.plain_machine.specs.Thread.{ThreadState, holds_of};
ghost use Rattle.plain_machine.specs.Running.{instruction_at};
ghost use Rattle.plain_machine.specs.Machine.{PlainMachine, code_of};
ghost use Rattle.plain_machine.specs.Legal.{machine_after, IsLegal};
ghost use Rattle.sync_source.specs.Source.{SyncText};
ghost use Rattle.sync_source.specs.Valid.{IsSyncText};
ghost use Rattle.sync_source.specs.Compiled.{compiled};
ghost use Rattle.sync_source.specs.SameMeaning.{DoesTheSame};
ghost use Rattle.sync_source.specs.Endings.{ending_begun};

/// The code of a program with blocks is a program, and does what the program with blocks does.
pub fn code_does_what_its_blocks_do()
    ensures program { (p : SyncText) → IsSyncText p → IsProgram (compiled decimal p) }
    ensures same { (p : SyncText) → IsSyncText p → DoesTheSame p (compiled decimal p) }
{}

/// No thread of the code of a program with blocks faults at an exit, by any fault: no legal log has a trap that names an exit, and after
/// legal logs no thread is about to end by one.
pub fn exits_never_fault()
    ensures logged { (p : SyncText) (fuel : ℕ) (logs : List (List Logged)) (t k place x : ℕ) (l : Logged) (f : Fault)
        → IsSyncText p → IsLegal (compiled decimal p) fuel logs
        → slice_get (log_of logs t) k ≡ Some l → l.entry ≡ entry.Trap f (place + 1)
        → instruction_at (code_of (compiled decimal p) t) place ≡ Exit x → ⊥ }
    ensures ending { (p : SyncText) (fuel : ℕ) (logs : List (List Logged)) (m : PlainMachine) (t place x : ℕ)
        (s : ThreadState) (f : Fault) → IsSyncText p
        → machine_after (compiled decimal p) fuel logs ≡ Some m → slice_get m.threads t ≡ Some s
        → ending_begun s.mode ≡ Some (Trap f (place + 1))
        → instruction_at (code_of m.program t) place ≡ Exit x → ⊥ }
{}

/// A thread of the code of a program with blocks that comes to its `end` holds nothing then: it has left each monitor that it entered.
pub fn threads_hold_nothing_at_their_end()
    ensures { (p : SyncText) (fuel : ℕ) (logs : List (List Logged)) (m : PlainMachine) (t o : ℕ) (s : ThreadState)
        → IsSyncText p → machine_after (compiled decimal p) fuel logs ≡ Some m
        → slice_get m.threads t ≡ Some s → ending_begun s.mode ≡ Some Done → holds_of s o ≡ 0 }
{}
