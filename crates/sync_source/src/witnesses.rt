//! A program with blocks and its logs, that the laws' premises are met. The functions do nothing.

ghost use Rattle.std.specs.Prelude.{◌≡◌, slice_get, Some, decimal};
ghost use Rattle.object_program.specs.declared.program.Code.TheVariants.{Exit};
ghost use Rattle.plain_machine.specs.Legal.{IsLegal, machine_after};
ghost use Rattle.plain_machine.specs.Machine.{PlainMachine, code_of};
ghost use Rattle.plain_machine.specs.Running.{instruction_at};
ghost use Rattle.plain_machine.specs.Thread.{ThreadState};
ghost use Rattle.plain_monitor.specs.History.{log_of};
ghost use Rattle.plain_monitor.specs.declared.entry.Ending.TheVariants.{Trap, Done};
ghost use Rattle.plain_monitor.specs.declared.entry.Entry.TheVariants as entry;
ghost use Rattle.plain_monitor.specs.declared.entry.Fault.TheVariants.{NotInt};
ghost use Rattle.sync_source.specs.Compiled.{compiled};
ghost use Rattle.sync_source.specs.Endings.{ending_begun};
ghost use Rattle.sync_source.specs.Examples.{guarded, guarded_logs, not_added};
ghost use Rattle.sync_source.specs.Valid.{IsSyncText};

/// Two threads with a block each: one prints in it and comes to its `end`, the other faults in it, at the instruction before the exit.
/// These logs are legal.
///
/// A witness for `code_does_what_its_blocks_do`, `threads_hold_nothing_at_their_end`, and, but for the premise that the fault is the
/// exit's, which none meets, for `exits_never_fault`.
pub fn threads_with_blocks_end_and_fault()
    ensures program { IsSyncText guarded }
    ensures legal { IsLegal (compiled decimal guarded) 8 guarded_logs }
    ensures ended { (m : PlainMachine) × (s u : ThreadState)
        × (machine_after (compiled decimal guarded) 8 guarded_logs ≡ Some m) × (slice_get m.threads 0 ≡ Some s)
        × (ending_begun s.mode ≡ Some Done) × (slice_get m.threads 1 ≡ Some u)
        × (ending_begun u.mode ≡ Some (Trap NotInt 3)) × (instruction_at (code_of m.program 1) 3 ≡ Exit 0) }
    ensures logged { (slice_get (log_of guarded_logs 1) 2 ≡ Some not_added) × (not_added.entry ≡ entry.Trap NotInt 3)
        × (instruction_at (code_of (compiled decimal guarded) 1) 3 ≡ Exit 0) }
{}
