//! Laws of passes and frames between two calls. The functions do nothing.

ghost use Rattle.std.specs.Prelude.{◌≡◌, ◌+◌, ◌*◌, ◌≤◌, ◌⊎◌, ℕ, false};
ghost use Rattle.plain_monitor.specs.Limits.{most_fuel, entries_for};
ghost use Rattle.core_world.specs.Opening.{first_known};
ghost use Rattle.heap_table.specs.Resting.{Rests};
ghost use Rattle.heap_table.specs.Seen.{HeapSeen, PassSeen};
ghost use Rattle.object_program.specs.Program.{ProgramText};
ghost use Rattle.thread_calls.specs.Between.{IsHeapOf, IsOn};
ghost use Rattle.thread_frame.specs.Frames.{first_frame};

/// A pass that rests on a heap of the program, and on which no call was made yet, and a frame before its first instruction belong together.
pub fn unused_passes_are_on()
    ensures { (h : HeapSeen) (p : ProgramText) (fuel : ℕ) (pass : PassSeen) → IsHeapOf h p → Rests h pass
        → pass.known ≡ first_known pass.known.thread → fuel ≤ most_fuel → pass.limit ≡ entries_for fuel
        → IsOn h p fuel pass (first_frame fuel) }
{}
