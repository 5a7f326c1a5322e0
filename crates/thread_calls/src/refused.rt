//! Laws that a pass and a frame which don't belong together are refused. The functions do nothing.

ghost use Rattle.std.specs.Prelude.{◌≡◌, ◌≢◌, ◌+◌, ◌<◌, ◌∷◌, [], ℕ, true, false};
ghost use Rattle.heap_table.specs.Seen.{HeapSeen, PassSeen};
ghost use Rattle.object_program.specs.Program.{ProgramText};
ghost use Rattle.plain_monitor.specs.Limits.{most_fuel, entries_for};
ghost use Rattle.plain_monitor.specs.declared.entry.Entry.TheVariants.{Done, Dump};
ghost use Rattle.thread_calls.specs.Between.{IsOn};
ghost use Rattle.thread_frame.specs.Frames.{first_frame};

/// Beside a frame before its first instruction: a pass that has logged an end or a dump (`ended`, `dumped`), one with a request that stands
/// for an operation (`requesting`), and one whose log has more room or less than the fuel asks for (`room`).
///
/// Refuses the conclusion of `unused_passes_are_on`.
pub fn no_used_pass_is_on_beside_a_first_frame()
    ensures ended { (h : HeapSeen) (p : ProgramText) (fuel n : ℕ) (pass : PassSeen)
        → pass.known.log ≡ record { stamp = n; entry = Done } ∷ [] → IsOn h p fuel pass (first_frame fuel) → ⊥ }
    ensures dumped { (h : HeapSeen) (p : ProgramText) (fuel n : ℕ) (pass : PassSeen)
        → pass.known.log ≡ record { stamp = n; entry = Dump 1 } ∷ [] → IsOn h p fuel pass (first_frame fuel) → ⊥ }
    ensures requesting { (h : HeapSeen) (p : ProgramText) (fuel : ℕ) (pass : PassSeen)
        → pass.known.requesting ≡ true → pass.known.checking ≡ false → IsOn h p fuel pass (first_frame fuel) → ⊥ }
    ensures room { (h : HeapSeen) (p : ProgramText) (fuel : ℕ) (pass : PassSeen) → pass.limit ≢ entries_for fuel
        → IsOn h p fuel pass (first_frame fuel) → ⊥ }
{}

/// Beside any pass: a frame with more fuel than its thread was given (`richer`), and one that was given more than a thread may have
/// (`most`).
///
/// Refuses the conclusion of `unused_passes_are_on`.
pub fn no_frame_has_more_fuel_than_its_pass()
    ensures richer { (h : HeapSeen) (p : ProgramText) (fuel : ℕ) (pass : PassSeen)
        → IsOn h p fuel pass (first_frame (fuel + 1)) → ⊥ }
    ensures most { (h : HeapSeen) (p : ProgramText) (fuel : ℕ) (pass : PassSeen) → most_fuel < fuel
        → IsOn h p fuel pass (first_frame fuel) → ⊥ }
{}
