//! A program and a frame of its thread, that the laws' premises are met. The functions do nothing.

ghost use Rattle.std.specs.Prelude.{◌≡◌, ◌<◌, length, true, Some};
ghost use Rattle.object_program.specs.Valid.{IsProgram};
ghost use Rattle.plain_machine.specs.Asking.{ask, after_entry, fits};
ghost use Rattle.plain_machine.specs.Machine.{code_of};
ghost use Rattle.plain_machine.specs.declared.monitor_call.Mode.TheVariants.{Calling};
ghost use Rattle.plain_machine.specs.declared.monitor_call.NextEntry.TheVariants.{Calls};
ghost use Rattle.thread_frame.specs.Examples.{reader, reads, has_read, held, before_reading};
ghost use Rattle.thread_frame.specs.Frames.{next_state};

/// A program has a thread (`program`), whose frame stands before a call that reads a slot, and asks for an entry that has what is read
/// (`moves`). A witness for `first_frames_are_first_states` and `frames_move_as_their_threads`.
pub fn a_frame_stands_before_a_call()
    ensures program { IsProgram reader × (0 < length reader.threads) }
    ensures moves { (before_reading.mode ≡ Some (Calling reads))
        × (ask (next_state reader 0 held before_reading) ≡ Some (Calls reads)) × (fits (Calls reads) (has_read 5) ≡ true)
        × (held ≡ (after_entry reader (code_of reader 0) (next_state reader 0 held before_reading) (Calls reads)
        (has_read 5)).holds) }
{}
