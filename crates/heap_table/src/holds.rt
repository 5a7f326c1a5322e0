//! A thread's hold words, as it last stored them.
ghost use Rattle.std.specs.Prelude.{ℕ, IfSome, not, false, true, ◌≡◌, ◌≢◌, ◌+◌, ◌-◌, ◌<◌, ◌≤◌, ◌==◌, length, slice_index, slice_set, replicate, take};
ghost use Rattle.plain_monitor.specs.Limits.{most_holds};
ghost use Rattle.core_world.specs.Locks.{count_where, hold_count};
ghost use Rattle.core_world.specs.Threads.Stages.{one_if};
ghost use Rattle.core_world.specs.Words.Forms.{names};
ghost use Rattle.heap_table.specs.Held.{ComesAfter, IsEmptyFrom, IsStacked};
ghost use Rattle.heap_table.specs.inner.NewestHold.{IsLastOf, IsNewestOf};

use plain_monitor::limits::HOLDS;

/// Step from one object to the next in a hold word: from bit 7.
const OBJECT: u64 = 1 << 7;
/// The number of objects.
const OBJECTS: u32 = 1 << 15;
/// The places of a thread's hold words.
pub const PLACES: usize = HOLDS as usize;
/// The most holds on one object.
const DEEPEST: u64 = 64;

/// The hold words, and one past the last place that is not empty, so that a question looks at the places in use alone.
#[derive(Drop)]
pub struct Holds {
    pub words: [u64; PLACES],
    pub used: u32,
    /// Whether the words in use stand as they were taken, one on the other: then the last of them is the newest hold of its object.
    pub stacked: bool,
    pub ghost within: { used ≤ most_holds },
    pub ghost rest: { IsEmptyFrom used words },
    pub ghost tight: { 0 < used → slice_index words (used - 1) ≢ 0 },
    pub ghost stacks: { stacked ≡ true → IsStacked used words },
}

/// Whether the hold word names this object: the word of its number raised by one, with a depth from 1 to 64 below it. The
/// tests have no branch between them, and all that is reckoned of the object is the same for each word.
#[inline(always)]
pub fn names(object: u32, word: u64) -> bool
    ensures { result ≡ names object word }
{
    let none = (object as u64 + 1) * OBJECT;
    (object < OBJECTS) & (none < word) & (word <= none + DEEPEST)
}

// 1 where the test holds, and else 0.
#[inline(always)]
fn one_if(test: bool) -> u32
    ensures value { result ≡ one_if test }
    ensures few { result ≤ 1 }
{
    if test { 1 } else { 0 }
}

// One past the last place below `reach` that is not empty, where all from there on are empty.
#[inline(always)]
fn last_used(words: &[u64; PLACES], reach: u32) -> u32
    requires within { reach ≤ most_holds }
    requires rest { IsEmptyFrom reach words.now }
    ensures within { result ≤ most_holds }
    ensures rest { IsEmptyFrom result words.now }
    ensures tight { 0 < result → slice_index words.now (result - 1) ≢ 0 }
{
    let mut used = reach;
    while used > 0 && words[used as usize - 1] == 0 {
        used -= 1;
    }
    used
}

// One past the last place that is not empty, now that this word was stored at the place, where all from `used` on were empty
// before. Only a clearing of the last place in use makes it look for another.
#[inline(always)]
fn used_after_store(words: &[u64; PLACES], used: u32, place: u32, word: u64) -> u32
    requires place { place < most_holds }
    requires within { used ≤ most_holds }
    requires stored { slice_index words.now place ≡ word }
    requires rest { (i : ℕ) → used ≤ i → i ≢ place → slice_index words.now i ≡ 0 }
    requires tight { 0 < used → used - 1 ≢ place → slice_index words.now (used - 1) ≢ 0 }
    ensures within { result ≤ most_holds }
    ensures rest { IsEmptyFrom result words.now }
    ensures tight { 0 < result → slice_index words.now (result - 1) ≢ 0 }
{
    if word == 0 {
        if place + 1 == used {
            return last_used(words, place);
        }
        return used;
    }
    if used <= place { place + 1 } else { used }
}

// How many of the words before the place name the object.
#[inline(always)]
fn held_before(words: &[u64; PLACES], object: u32, place: u32) -> u32
    requires { place ≤ most_holds }
    ensures held { result ≡ hold_count object (take place words.now) }
    ensures few { result ≤ place }
{
    let mut held = 0;
    for i in 0..place as usize {
        held += one_if(names(object, words[i]));
    }
    held
}

// Whether the word at the place is that of one more hold of its object than the words before it tell of.
#[inline(always)]
fn comes_after(words: &[u64; PLACES], place: u32) -> bool
    requires { place < most_holds }
    ensures { result ≡ true → ComesAfter (take place words.now) (slice_index words.now place) }
{
    let word = words[place as usize];
    let number = word / OBJECT;
    if number == 0 || number > OBJECTS as u64 {
        return false;
    }
    word == number * OBJECT + 1 + held_before(words, number as u32 - 1, place) as u64
}

// Whether the words in use stand as they were taken, where the first of them are known to. It is a function of its own, so that a store
// that takes no hold stays small.
#[inline(never)]
fn are_stacked(words: &[u64; PLACES], known: u32, used: u32) -> bool
    requires within { used ≤ most_holds }
    requires known { IsStacked known words.now }
    ensures { result ≡ true → IsStacked used words.now }
{
    for place in known..used {
        if !comes_after(words, place) {
            return false;
        }
    }
    true
}

impl Holds {
    ghost use Rattle.std.specs.List.{position_or_len};
    ghost use Rattle.std.specs.Prelude.{◌^◌};
    ghost use Rattle.core_world.specs.Trees.Plans.{free_place, top_place};
    ghost use Rattle.core_world.specs.Words.Forms.{hold_word};
    ghost use Rattle.heap_table.specs.Kept.{all_holds};

    /// Makes the hold words of a thread that holds nothing.
    pub fn new() -> Holds
        ensures { result.words ≡ replicate most_holds 0 }
    {
        Holds {
            words: [0; PLACES],
            used: 0,
            stacked: true,
        }
    }

    // How many words are known to stand as they were taken, and stay so where the word at the place is stored to.
    #[inline(always)]
    fn stacked_before(&self, place: u32) -> u32
        ensures before { result ≤ place }
        ensures stacked { IsStacked result self.now.words }
    {
        if self.stacked {
            place.min(self.used)
        } else {
            0
        }
    }

    /// Puts this word at the place.
    #[inline(always)]
    pub fn store(&mut self, place: u32, word: u64)
        requires { place < most_holds }
        ensures { self.new.words ≡ slice_set self.old.words place word }
    {
        let known = self.stacked_before(place);
        self.words[place as usize] = word;
        self.used = used_after_store(&self.words, self.used, place, word);
        self.stacked = self.used <= known || are_stacked(&self.words, known, self.used);
    }

    /// Puts the hold word of one more hold of the object at the place past the last in use.
    #[inline(always)]
    pub fn push(&mut self, object: u32, word: u64)
        requires room { self.old.used < most_holds }
        requires object { object < 2 ^ 15 }
        requires word { word ≡ hold_word object (hold_count object self.old.words + 1) }
        ensures { self.new.words ≡ slice_set self.old.words self.old.used word }
    {
        self.words[self.used as usize] = word;
        self.used += 1;
    }

    // `clear` for any place, as a function of its own, so that the hot way stays small.
    #[cold]
    #[inline(never)]
    fn clear_below(&mut self, place: u32)
        requires { place < most_holds }
        ensures { self.new.words ≡ slice_set self.old.words place 0 }
    {
        self.store(place, 0);
    }

    // Whether the place is known to be the last in use, and the words to stand as they were taken: `last` says that it is known already.
    #[inline(always)]
    fn is_last(&self, place: u32, last: bool) -> bool
        requires place { place < most_holds }
        requires last { last ≡ true → IsLastOf self.now.stacked self.now.used place }
        ensures { result ≡ true → IsLastOf self.now.stacked self.now.used place }
    {
        if last {
            return true;
        }
        if !self.stacked {
            return false;
        }
        place + 1 == self.used
    }

    /// Clears the place. Mostly it is the last in use, and those before it are not empty; `last` says that this is known.
    #[inline(always)]
    pub fn clear(&mut self, place: u32, last: bool)
        requires place { place < most_holds }
        requires last { last ≡ true → IsLastOf self.old.stacked self.old.used place }
        ensures { self.new.words ≡ slice_set self.old.words place 0 }
    {
        if self.is_last(place, last) {
            self.words[place as usize] = 0;
            self.used = place;
        } else {
            self.clear_below(place);
        }
    }

    /// How many of the words name the object.
    #[inline(always)]
    pub fn held(&self, object: u32) -> u32
        ensures held { result ≡ hold_count object self.now.words }
        ensures few { result ≤ most_holds }
    {
        held_before(&self.words, object, self.used)
    }

    /// The first place with this word, or one past the last.
    #[inline(always)]
    pub fn place_of(&self, word: u64) -> u32
        ensures place { result ≡ position_or_len (λ h. h == word) self.now.words }
        ensures few { result ≤ most_holds }
        ensures all { length self.now.words ≡ most_holds }
    {
        for i in 0..self.used as usize {
            if self.words[i] == word {
                return i as u32;
            }
        }
        if word == 0 { self.used } else { HOLDS }
    }

    /// Whether none of the words is empty. Where one past the last in use is a place, there is nothing to look for.
    #[inline(always)]
    pub fn is_full(&self) -> bool
        ensures { result ≡ (position_or_len (λ h. h == 0) self.now.words == most_holds) }
    {
        if self.used < HOLDS {
            return false;
        }
        self.place_of(0) == HOLDS
    }

    /// Whether the words that are not empty are known to stand side by side from the first place on, and one more place is free: it is the one
    /// past them.
    #[inline(always)]
    pub fn is_packed(&self) -> bool
        ensures free { result ≡ true → free_place self.now.words ≡ self.now.used }
        ensures few { result ≡ true → self.now.used < most_holds }
    {
        if !self.stacked {
            return false;
        }
        self.used < HOLDS
    }

    // `next_word` by a search, as a function of its own, so that the hot way stays small.
    #[cold]
    #[inline(never)]
    fn next_word_searched(&self, object: u32) -> u64
        ensures { result ≡ hold_word object (hold_count object self.now.words + 1) }
    {
        (object as u64 + 1) * OBJECT + 1 + self.held(object) as u64
    }

    /// The hold word of one more hold of the object. Where there is no hold, or the newest is of it, that is told at once, and else only by a
    /// search.
    #[inline(always)]
    pub fn next_word(&self, object: u32, search: bool) -> Option<u64>
        ensures { IfSome result (λ w. w ≡ hold_word object (hold_count object self.now.words + 1)) }
    {
        let number = object as u64 + 1;
        if self.used == 0 {
            return Some(number * OBJECT + 1);
        }
        let newest = self.words[self.used as usize - 1];
        if self.stacked && newest / OBJECT == number {
            return Some(newest + 1);
        }
        if search {
            return Some(self.next_word_searched(object));
        }
        None
    }

    // `newest` by a search.
    #[cold]
    #[inline(never)]
    fn newest_searched(&self, object: u32) -> Option<(u32, u32)>
        ensures { IfSome result (λ n. IsNewestOf self.now.words object n.0 n.1) }
    {
        let depth = self.held(object);
        if depth == 0 {
            return None;
        }
        let place = self.place_of((object as u64 + 1) * OBJECT + depth as u64);
        Some((depth, place))
    }

    /// How many holds of the object there are, where there is one, and the place of the newest. Where the newest hold of all is of it, that one
    /// tells, and else only a search.
    #[inline(always)]
    pub fn newest(&self, object: u32, search: bool) -> Option<(u32, u32)>
        requires { object < 2 ^ 15 }
        ensures newest { IfSome result (λ n. IsNewestOf self.now.words object n.0 n.1) }
        ensures last { search ≡ false → IfSome result (λ n. IsLastOf self.now.stacked self.now.used n.1) }
    {
        if self.used > 0 {
            if self.stacked {
                let last = self.used - 1;
                let newest = self.words[last as usize];
                if newest / OBJECT == object as u64 + 1 {
                    return Some(((newest % OBJECT) as u32, last));
                }
            }
        }
        if search {
            return self.newest_searched(object);
        }
        None
    }

    // `count` by a search.
    #[cold]
    #[inline(never)]
    fn count_searched(&self) -> u32
        ensures holds { result ≡ all_holds self.now.words }
        ensures few { result ≤ most_holds }
    {
        let mut filled = 0;
        for i in 0..self.used as usize {
            filled += one_if(self.words[i] != 0);
        }
        filled
    }

    /// How many of the words are not empty.
    #[inline(always)]
    pub fn count(&self) -> u32
        ensures holds { result ≡ all_holds self.now.words }
        ensures few { result ≤ most_holds }
    {
        if self.stacked {
            return self.used;
        }
        self.count_searched()
    }
}
