//! Which states there are, and where their choices lead.

ghost use Rattle.std.specs.Prelude.{◌≡◌, ℕ, ◌<◌, List, Option, Some, IfOk, IfSome, option_map};

use plain_monitor::NoMemory;

/// States, each told by the words of its key, and the choices that lead from each to others.
///
/// `next` may use what it keeps, so it is passed by a mutable reference; which states there are, and where they lead, stays.
pub trait Moves {
    /// Which words are a state's key.
    ghost is_key: { Self → List ℕ → Type 0 };

    /// The key that a key leads to by a choice, if there is one.
    ghost next: { Self → List ℕ → ℕ → Option (List ℕ) };

    /// How many choices there are at each state.
    ghost choices: { Self → ℕ };

    /// How many choices there are at each state, numbered from 0.
    fn choices(&self) -> u32
        ensures { result ≡ choices self.now };

    /// The key that this one leads to by the choice, if there is one. Out of memory is the only error, now or at an earlier call that lost what is
    /// wanted.
    fn next(&mut self, key: &[u64], choice: u32) -> Result<Option<Vec<u64>>, NoMemory>
        requires is_key { is_key self.old key.now }
        requires choice { choice < choices self.old }
        ensures leads { IfOk result (λ to. option_map (λ v. v.items) to ≡ next self.old key.now choice) }
        ensures again { IfOk result (λ to. IfSome to (λ v. is_key self.old v.items)) }
        ensures keys_stay { (words : List ℕ) → is_key self.old words → is_key self.new words }
        ensures next_stays { next self.new ≡ next self.old }
        ensures choices_stay { choices self.new ≡ choices self.old };
}
