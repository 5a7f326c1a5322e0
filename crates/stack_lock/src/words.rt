//! What words say.
ghost use Rattle.std.specs.Prelude.{◌≡◌};
ghost use Rattle.core_world.specs.Words.Forms.{is_entering};

use heap_table::wait_of_word;
use mark_word::WaitForm;

/// Whether the waiting word says that its thread is entering an object.
pub fn is_entering(word: u64) -> bool
    ensures { result ≡ is_entering word }
{
    match wait_of_word(word) {
        Some(WaitForm::Entering { .. }) => true,
        _ => false,
    }
}
