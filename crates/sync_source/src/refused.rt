//! Laws that what is said of programs with blocks and their code is refused where it is wrong. The functions do nothing.

ghost use Rattle.std.specs.Prelude.{◌≡◌, ◌+◌, ◌∷◌, [], ℕ, slice_get, Some, decimal};
ghost use Rattle.object_program.specs.Valid.{IsProgram};
ghost use Rattle.object_program.specs.declared.program.Code.TheVariants.{Exit};
ghost use Rattle.plain_machine.specs.Legal.{IsLegal, machine_after};
ghost use Rattle.plain_machine.specs.Machine.{PlainMachine, code_of};
ghost use Rattle.plain_machine.specs.Running.{instruction_at};
ghost use Rattle.plain_machine.specs.Thread.{ThreadState, holds_of};
ghost use Rattle.plain_monitor.specs.History.{log_of};
ghost use Rattle.plain_monitor.specs.declared.entry.Ending.TheVariants.{Trap, Done};
ghost use Rattle.plain_monitor.specs.declared.entry.Entry.TheVariants as entry;
ghost use Rattle.plain_monitor.specs.declared.entry.Fault.{Fault};
ghost use Rattle.plain_monitor.specs.declared.entry.Logged.{Logged};
ghost use Rattle.sync_source.specs.Compiled.{compiled};
ghost use Rattle.sync_source.specs.Endings.{ending_begun};
ghost use Rattle.sync_source.specs.Examples.{one_printer, prints_late, enters_nothing, has_no_end};
ghost use Rattle.sync_source.specs.Examples.{changes_local, changed_logs, ends_inside, entered};
ghost use Rattle.sync_source.specs.SameMeaning.{DoesTheSame};
ghost use Rattle.sync_source.specs.Valid.{IsSyncText};

/// Code that prints after the exit what the block prints (`late`), or that leaves out the enter and the exit (`unguarded`), though either
/// is code of a program: it doesn't do what the program with blocks does. And where a thread has no `end`, its code is no program
/// (`endless`). Refuses the two conclusions of `code_does_what_its_blocks_do`.
pub fn no_other_code_does_what_the_blocks_do()
    ensures late { DoesTheSame one_printer prints_late → ⊥ }
    ensures unguarded { DoesTheSame one_printer enters_nothing → ⊥ }
    ensures programs { IsProgram prints_late × IsProgram enters_nothing }
    ensures endless { IsProgram (compiled decimal has_no_end) → ⊥ }
{}

/// A block in which the local of its `sync` becomes a number: its exit faults, so it isn't so that no legal log has a trap that names an
/// exit (`logged`), nor that no thread is about to end by one (`ending`). And there is no such program with blocks (`barred`). Refuses the
/// two conclusions of `exits_never_fault`.
pub fn an_exit_faults_where_its_local_is_changed()
    ensures logged { ((fuel t k place x : ℕ) (l : Logged) (f : Fault)
        → IsLegal (compiled decimal changes_local) fuel changed_logs → slice_get (log_of changed_logs t) k ≡ Some l
        → l.entry ≡ entry.Trap f (place + 1)
        → instruction_at (code_of (compiled decimal changes_local) t) place ≡ Exit x → ⊥) → ⊥ }
    ensures ending { ((fuel t place x : ℕ) (m : PlainMachine) (s : ThreadState) (f : Fault)
        → machine_after (compiled decimal changes_local) fuel ((entered 1 ∷ []) ∷ []) ≡ Some m
        → slice_get m.threads t ≡ Some s → ending_begun s.mode ≡ Some (Trap f (place + 1))
        → instruction_at (code_of m.program t) place ≡ Exit x → ⊥) → ⊥ }
    ensures barred { IsSyncText changes_local → ⊥ }
{}

/// A block with an `end` in it: its thread comes to that and holds the object then. And there is no such program with blocks (`barred`).
/// Refuses the conclusion of `threads_hold_nothing_at_their_end`.
pub fn a_thread_holds_what_it_entered_where_it_ends_in_a_block()
    ensures holds { ((fuel t o : ℕ) (m : PlainMachine) (s : ThreadState)
        → machine_after (compiled decimal ends_inside) fuel ((entered 1 ∷ []) ∷ []) ≡ Some m
        → slice_get m.threads t ≡ Some s → ending_begun s.mode ≡ Some Done → holds_of s o ≡ 0) → ⊥ }
    ensures barred { IsSyncText ends_inside → ⊥ }
{}
