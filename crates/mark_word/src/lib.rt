//! Codecs of the words of HotSpot's monitors in OpenJDK 8, so that no other crate shifts their bits.
//!
//! Mark words have the shifts of `markOop.hpp` for 64 bits: lock bits at 0, bias bit at 2, age at 3, epoch and hash at 8,
//! thread at 10. The words of owners, waits, holds and safepoints are this project's own. `specs/` has the tables, which
//! say by products and sums which word spells which form; `docs/WORDS.md` draws them.
#![tactic(auto)]

mod bad_mark;
mod hold;
mod laws;
mod mark;
mod owner;
mod record;
mod safe;
mod wait;

pub use bad_mark::BadMark;
pub use hold::{HoldForm, decode_hold, encode_hold};
pub use laws::{
    holds_are_read, holds_are_read_back, holds_are_spelled_once, marks_are_read,
    marks_are_read_back, marks_are_spelled_once, owners_are_read, owners_are_read_back,
    owners_are_spelled_once, safepoints_are_read, safepoints_are_read_back,
    safepoints_are_spelled_once, waits_are_read, waits_are_read_back, waits_are_spelled_once,
};
pub use mark::{
    MarkForm, biased_prototype, decode, encode, epoch_of, has_bias_pattern, is_neutral, neutral,
};
pub use owner::{OwnerForm, decode_owner, encode_owner};
pub use safe::{SafeForm, decode_safe, encode_safe};
pub use wait::{WaitForm, decode_wait, encode_wait};
