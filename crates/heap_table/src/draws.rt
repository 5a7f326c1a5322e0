//! The hashes that a pass draws.
ghost use Rattle.std.specs.Prelude.{◌≡◌, ℕ, ◌+◌, ◌<◌, ◌^◌};
ghost use Rattle.lock_policy.specs.Draws.{state_after, value_of};
ghost use Rattle.core_world.specs.Steps.{draws_after};

use core_world::LogEffect;
use lock_policy::Draw;
use plain_monitor::Entry;

/// What a thread draws next.
#[derive(Drop)]
pub struct Drawing {
    /// How many draws are installed.
    pub installed: u64,
    /// The generator, with the next hash drawn.
    pub generator: Draw,
    /// The next hash.
    pub next: u32,
    pub ghost drawn: { next ≡ value_of generator },
}

impl Drawing {
    /// Makes the generator that begins with this word, before its first draw.
    pub fn new(first: u32) -> Drawing
        ensures installed { result.installed ≡ 0 }
        ensures generator { result.generator ≡ state_after first 1 }
    {
        let mut generator = Draw::new(first);
        let next = generator.next();
        Drawing {
            installed: 0,
            generator,
            next,
        }
    }
}

/// Counts the draw that a step which hit logs, if it logs one, and makes the next.
#[inline(always)]
pub fn draw_next(drawing: &mut Drawing, note: &LogEffect)
    requires { drawing.old.installed + 1 < 2 ^ 64 }
    ensures installed { drawing.new.installed ≡ draws_after note.now drawing.old.installed }
    ensures generator { (first : ℕ) → drawing.old.generator ≡ state_after first (drawing.old.installed + 1)
        → drawing.new.generator ≡ state_after first (drawing.new.installed + 1) }
{
    if let LogEffect::Log {
        entry: Entry::Hash { drawn: Some(_), .. },
    } = *note
    {
        drawing.installed += 1;
        drawing.next = drawing.generator.next();
    }
}
