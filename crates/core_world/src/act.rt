//! What one atomic step does to its one word.

ghost use Rattle.std.specs.Prelude.{◌≡◌, true};
ghost use Rattle.core_world.specs.Words.Acts.{word_after, hits};

/// What an atomic step does to its word. All are sequentially consistent.
#[derive(Clone, Copy)]
pub enum Act {
    /// Reads the word.
    Load,
    /// Writes `word`.
    Store { word: u64 },
    /// Compare-exchange: writes `word` where `expected` stands.
    CompareExchange { expected: u64, word: u64 },
    /// Fetch-max: writes `word` where the word is smaller.
    FetchMax { word: u64 },
    /// Fetch-and: keeps of the word the bits of `bits` alone.
    FetchAnd { bits: u64 },
    /// Fetch-add of one, which wraps at 2^64.
    FetchAdd,
}

/// What an act makes of a word.
#[derive(Clone, Copy, Debug, PartialEq, Eq)]
pub struct Effect {
    /// The word afterwards.
    pub word: u64,
    /// False exactly for a `CompareExchange` that expected another word.
    pub hit: bool,
}

/// What the act makes of the word `old`: the word afterwards, and whether the act did what it is for. A `CompareExchange` whose expected
/// word differs from `old` leaves the word and misses; every other act hits.
#[inline(always)]
pub fn apply(old: u64, act: &Act) -> Effect
    ensures word { result.word ≡ word_after act.now old }
    ensures hit { result.hit ≡ hits act.now old }
{
    match *act {
        Act::Load => hit(old),
        Act::Store { word } => hit(word),
        Act::CompareExchange { expected, word } => swap(old, expected, word),
        Act::FetchMax { word } => hit(old.max(word)),
        Act::FetchAnd { bits } => hit(old & bits),
        Act::FetchAdd => hit(old.wrapping_add(1)),
    }
}

/// The effect of an act that hit and left the word so.
#[inline(always)]
fn hit(word: u64) -> Effect
    ensures { result ≡ record { word = word; hit = true } }
{
    Effect { word, hit: true }
}

/// The effect of a compare-exchange.
#[inline(always)]
fn swap(old: u64, expected: u64, word: u64) -> Effect
    ensures word { result.word ≡ word_after (Act.CompareExchange expected word) old }
    ensures hit { result.hit ≡ hits (Act.CompareExchange expected word) old }
{
    if old == expected {
        hit(word)
    } else {
        Effect {
            word: old,
            hit: false,
        }
    }
}
