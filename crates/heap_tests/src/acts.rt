//! What single acts make of words.

use core_world::{Act, apply};
use std::process::Abort;
use std::test::Fail;

/// A word, the act on it, the word that it makes, and whether it hits.
const ROWS: &[(u64, Act, u64, bool)] = &[
    (9, Act::Load, 9, true),
    (9, Act::Store { word: 4 }, 4, true),
    (
        5,
        Act::CompareExchange {
            expected: 5,
            word: 1029,
        },
        1029,
        true,
    ),
    (
        5,
        Act::CompareExchange {
            expected: 1,
            word: 1029,
        },
        5,
        false,
    ),
    (7, Act::FetchMax { word: 4 }, 7, true),
    (4, Act::FetchMax { word: 7 }, 7, true),
    (3, Act::FetchAnd { bits: 2 }, 2, true),
    (1, Act::FetchAdd, 2, true),
    (u64::MAX, Act::FetchAdd, 0, true),
];

fn makes(rt: &impl Abort, old: u64, act: &Act, word: u64, hit: bool) {
    let effect = apply(old, act);
    assert_eq!(rt; (effect.word, effect.hit), (word, hit), "from {old}");
}

#[test]
fn each_act_makes_its_word_and_tells_whether_it_hit(rt: HostRuntime) -> Result<(), Fail> {
    for (old, act, word, hit) in ROWS {
        makes(&rt, *old, act, *word, *hit);
    }
    Ok(())
}
