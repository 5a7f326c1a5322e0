//! How large a program may be.

ghost use Rattle.std.specs.Prelude.{◌≡◌};
ghost use Rattle.object_program.specs.Limits.{most_classes, most_threads, most_locals, most_code};

use plain_monitor::limits as heap;
pub use plain_monitor::limits::{OBJECTS, SLOTS};

/// Bytes of a text.
pub const BYTES: usize = 1_048_576;
/// Classes of a program.
pub const CLASSES: usize = heap::CLASSES as usize;
/// Threads of a program.
pub const THREADS: usize = heap::THREADS as usize;
/// Locals of a thread.
pub const LOCALS: usize = 32;
/// Instructions of a thread.
pub const CODE: usize = 4096;

/// Each is the limit of the definitions.
pub fn code_has_the_limits()
    ensures classes { CLASSES ≡ most_classes }
    ensures threads { THREADS ≡ most_threads }
    ensures locals { LOCALS ≡ most_locals }
    ensures code { CODE ≡ most_code }
{}
