//! Laws that a frame which isn't its thread is refused. The functions do nothing.

ghost use Rattle.std.specs.Prelude.{◌≡◌, ◌≢◌, ◌<◌, ◌≤◌, ◌∷◌, [], ℕ, List, length, replicate, slice_get, Some};
ghost use Rattle.object_program.specs.Program.{ProgramText, objects_total};
ghost use Rattle.object_program.specs.Valid.{IsProgram};
ghost use Rattle.plain_machine.specs.Asking.{after_entry};
ghost use Rattle.plain_machine.specs.Machine.{code_of, new_machine};
ghost use Rattle.plain_machine.specs.declared.monitor_call.MonitorCall.TheVariants.{Enter};
ghost use Rattle.plain_machine.specs.declared.monitor_call.NextEntry.{NextEntry};
ghost use Rattle.plain_machine.specs.declared.monitor_call.NextEntry.TheVariants.{Calls};
ghost use Rattle.plain_monitor.specs.declared.entry.Entry.{Entry};
ghost use Rattle.plain_monitor.specs.declared.entry.Entry.TheVariants as entry;
ghost use Rattle.plain_monitor.specs.declared.entry.Path.TheVariants.{StackFirst};
ghost use Rattle.thread_frame.specs.Examples.{reader, reads, has_read, held, before_reading};
ghost use Rattle.thread_frame.specs.Frames.{FrameSeen, first_frame, frame_after, next_state};

/// Of a frame before its first instruction: that its thread holds something (`holds`), has less fuel (`fuel`), or is one that the program
/// doesn't have (`thread`). Refuses the conclusion of `first_frames_are_first_states`.
pub fn no_first_state_by_another_frame()
    ensures holds { (p : ProgramText) (fuel t : ℕ) (holds : List ℕ) → IsProgram p → t < length p.threads
        → holds ≢ replicate (objects_total p) 0
        → slice_get (new_machine p fuel).threads t ≡ Some (next_state p t holds (first_frame fuel)) → ⊥ }
    ensures fuel { slice_get (new_machine reader 8).threads 0 ≡ Some (next_state reader 0 (0 ∷ []) (first_frame 7)) → ⊥ }
    ensures thread { (p : ProgramText) (fuel t : ℕ) (f : FrameSeen) (holds : List ℕ) → length p.threads ≤ t
        → slice_get (new_machine p fuel).threads t ≡ Some (next_state p t holds f) → ⊥ }
{}

/// A frame isn't its thread after an entry where the holds are others than the thread's (`holds`), where it has another answer (`value`),
/// where it stays as it was (`still`), or where it took the entry in the middle of its local instructions (`midway`). Refuses the
/// conclusion of `frames_move_as_their_threads`.
pub fn no_other_frame_moves_as_its_thread()
    ensures holds { (p : ProgramText) (t : ℕ) (f : FrameSeen) (holds after : List ℕ) (a : NextEntry) (e : Entry)
        → after ≢ (after_entry p (code_of p t) (next_state p t holds f) a e).holds
        → next_state p t after (frame_after f a e) ≡ after_entry p (code_of p t) (next_state p t holds f) a e → ⊥ }
    ensures value { next_state reader 0 held (frame_after before_reading (Calls reads) (has_read 1))
        ≡ after_entry reader (code_of reader 0) (next_state reader 0 held before_reading) (Calls reads) (has_read 2) → ⊥ }
    ensures still { next_state reader 0 held before_reading
        ≡ after_entry reader (code_of reader 0) (next_state reader 0 held before_reading) (Calls reads) (has_read 1) → ⊥ }
    ensures midway { next_state reader 0 held (frame_after (first_frame 8) (Calls (Enter 0)) (entry.Enter 0 StackFirst))
        ≡ after_entry reader (code_of reader 0) (next_state reader 0 (0 ∷ []) (first_frame 8)) (Calls (Enter 0))
        (entry.Enter 0 StackFirst) → ⊥ }
{}
