//! Laws of frames as threads of the plain machine. The functions do nothing.

ghost use Rattle.std.specs.Prelude.{◌≡◌, ◌<◌, ℕ, List, length, replicate, slice_get, true, Some};
ghost use Rattle.object_program.specs.Program.{ProgramText, objects_total};
ghost use Rattle.object_program.specs.Valid.{IsProgram};
ghost use Rattle.plain_machine.specs.Asking.{ask, after_entry, fits};
ghost use Rattle.plain_machine.specs.Machine.{code_of, new_machine};
ghost use Rattle.plain_machine.specs.declared.monitor_call.NextEntry.{NextEntry};
ghost use Rattle.plain_machine.specs.declared.monitor_call.Mode.{Mode};
ghost use Rattle.plain_monitor.specs.declared.entry.Entry.{Entry};
ghost use Rattle.thread_frame.specs.Frames.{FrameSeen, first_frame, frame_after, next_state};

/// A frame before its first instruction is the first state of its thread, which holds nothing.
pub fn first_frames_are_first_states()
    ensures { (p : ProgramText) (fuel t : ℕ) → IsProgram p → t < length p.threads
        → slice_get (new_machine p fuel).threads t
        ≡ Some (next_state p t (replicate (objects_total p) 0) (first_frame fuel)) }
{}

/// After an entry that it asked for, a frame that stands before a call or its end is what the plain machine makes of the thread, where
/// the holds are those that the machine's thread has then.
pub fn frames_move_as_their_threads()
    ensures { (p : ProgramText) (t : ℕ) (f : FrameSeen) (m : Mode) (holds after : List ℕ) (a : NextEntry)
        (e : Entry) → f.mode ≡ Some m
        → ask (next_state p t holds f) ≡ Some a → fits a e ≡ true
        → after ≡ (after_entry p (code_of p t) (next_state p t holds f) a e).holds
        → next_state p t after (frame_after f a e) ≡ after_entry p (code_of p t) (next_state p t holds f) a e }
{}
