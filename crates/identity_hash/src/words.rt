//! The mark that a drawn hash makes.
ghost use Rattle.std.specs.Prelude.{◌≡◌};
ghost use Rattle.mark_word.specs.declared.mark.MarkForm.TheVariants.{Neutral};
ghost use Rattle.mark_word.specs.Mark.{mark_of};

/// Step from one hash of a neutral mark to the next: from bit 8.
const HASH: u64 = 1 << 8;

/// The neutral mark of age 0 with this hash. `encode` would ask that the hash is below 2^31, which a step that may miss does
/// not tell of the value drawn.
pub fn marked_with(hash: u32) -> u64
    ensures { result ≡ mark_of (Neutral hash 0) }
{
    hash as u64 * HASH + 0b001
}
