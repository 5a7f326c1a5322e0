// Which identity hash a thread draws.

ghost use Rattle.std.specs.Prelude.{◌≡◌, ◌^◌, ◌<◌};
ghost use Rattle.lock_policy.specs.Draws.{hash_of, next_state, start_state, value_of};

use std::marker::Model;

// The low 31 bits, which an identity hash has.
const HASH_MASK: u32 = 0x7FFF_FFFF;

// The hash that stands for 0, since 0 means that an object has none.
const HASH_FOR_ZERO: u32 = 0xBAD;

/// A thread's generator of identity hashes: Marsaglia's xor-shift on four words of 32 bits.
#[derive(Debug, Drop)]
pub struct Draw {
    x: u32,
    y: u32,
    z: u32,
    w: u32,
}

impl Model for Draw {
    ghost use Rattle.lock_policy.specs.Draws.{State};

    ghost Value = { State };

    ghost view = { λ d. record { x = d.x; y = d.y; z = d.z; w = d.w } };
}

impl Draw {
    /// The generator whose first word is `first`, any number of 32 bits.
    pub fn new(first: u32) -> Draw
        ensures { result ≡ start_state first }
    {
        Draw {
            x: first,
            y: 842_502_087,
            z: 0x8767,
            w: 273_326_509,
        }
    }

    /// Draws the next hash, from 1 to 2^31 - 1: the low 31 bits of the generator's new last word, or 0xBAD where they are 0.
    pub fn next(&mut self) -> u32
        ensures moved { self.new ≡ next_state self.old }
        ensures drawn { result ≡ value_of (next_state self.old) }
        ensures above_zero { 0 < result }
        ensures within { result < 2 ^ 31 }
    {
        let mixed = self.x ^ (self.x << 11);
        self.x = self.y;
        self.y = self.z;
        self.z = self.w;
        self.w = (self.w ^ (self.w >> 19)) ^ (mixed ^ (mixed >> 8));
        hash_of(self.w)
    }
}

fn hash_of(word: u32) -> u32
    ensures value { result ≡ hash_of word }
    ensures above_zero { 0 < result }
    ensures within { result < 2 ^ 31 }
{
    let hash = word & HASH_MASK;
    if hash == 0 { HASH_FOR_ZERO } else { hash }
}
