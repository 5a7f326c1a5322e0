//! What one thread steps with.
ghost use Rattle.std.specs.Prelude.{◌≡◌, ◌+◌, ◌-◌, ◌<◌, ◌≤◌, ◌^◌, ◌==◌, ◌&&◌, [], ◌∷◌, ◌++◌, length, nat_le, false, true, vec_capacity};
ghost use Rattle.std.specs.List.{position_or_len};
ghost use Rattle.lock_policy.specs.Draws.{nth_value};
ghost use Rattle.plain_monitor.specs.Limits.{most_threads, most_holds};
ghost use Rattle.plain_monitor.specs.History.{last_stamp};
ghost use Rattle.plain_history.specs.Known.{news};
ghost use Rattle.core_world.specs.Clauses.Lengths.{log_limit};
ghost use Rattle.core_world.specs.Locks.{hold_count};
ghost use Rattle.heap_table.specs.Kept.{all_holds};
ghost use Rattle.heap_table.specs.Quick.{IsFree};
ghost use Rattle.heap_table.specs.Seen.{PassSeen, IsOf, page_of};
ghost use Rattle.heap_table.specs.Tallies.{counts_shown};

use crate::counts::ClassCounts;
use crate::heap::Heap;
use crate::holds::PLACES;
use crate::mirror::{Mirror, turn_page};
use crate::rule::Place;
use crate::shots::{Cell, Shot};
use core_world::Unfinished;
use plain_monitor::Logged;
use std::marker::Model;

/// A thread's own part of a heap: it alone makes the thread's steps, and knows what the thread knows.
#[derive(Drop)]
pub struct Pass {
    pub(crate) seat: Place,
    pub(crate) mirror: Mirror,
}

impl Model for Pass {
    ghost use Rattle.std.specs.Prelude.{◌≡◌, ◌+◌, [], ◌∷◌};
    ghost use Rattle.heap_table.specs.Cells.{cells_shown};
    ghost use Rattle.heap_table.specs.Ruled.{only};
    ghost use Rattle.heap_table.specs.Seen.{PassSeen};
    ghost use Rattle.heap_table.specs.Kept.{Mirrors, limit_by};

    ghost Value = { PassSeen };

    ghost view = { λ p. record {
      table = p.seat.table_id;
      known = only p.seat.me.0;
      limit = limit_by p.mirror.keeps p.mirror.given p.mirror.room;
      room = p.mirror.room;
      home = p.mirror.home;
      classes = p.mirror.classes;
      first = p.mirror.first;
      threads = p.mirror.shots.threads;
      objects = p.mirror.shots.objects;
      cut = p.mirror.shots.draft.cut.items;
      cells = cells_shown p.mirror.shots.draft.cells.items;
    } };

    ghost invariant = { λ p. (p.seat.me ≡ (only p.seat.me.0 ∷ [], [])) × Mirrors p.mirror ((only p.seat.me.0)) };
}

impl Pass {
    /// The thread's number, from 0.
    #[inline(always)]
    pub fn thread(&self) -> u32
        ensures same { result ≡ self.now.known.thread }
        ensures low { result < most_threads }
    {
        self.mirror.thread
    }

    /// Whether the thread runs, and is in the middle of nothing: it asks for nothing, waits for nothing, and nothing is unfinished.
    #[inline(always)]
    pub fn is_free(&self) -> bool
        ensures { result ≡ true → IsFree self.now.known }
    {
        if self.mirror.stand.requesting {
            return false;
        }
        if self.mirror.wait != 0 {
            return false;
        }
        if self.mirror.checking {
            return false;
        }
        if self.mirror.unfinished.is_some() {
            return false;
        }
        self.mirror.stand.running
    }

    /// The entries of the thread's log that were not handed out, in its own order: all of them before the first page.
    #[inline(always)]
    pub fn log(&self) -> &[Logged]
        ensures { result.now ≡ page_of self.now }
    {
        self.mirror.log.as_slice()
    }

    /// How many entries the thread's log has, with those that were handed out.
    #[inline(always)]
    pub fn length(&self) -> u64
        ensures same { result ≡ length self.now.known.log }
        ensures few { result < 2 ^ 43 }
    {
        prove!(self.mirror.log.len() <= self.mirror.room as usize);
        self.mirror.length
    }

    /// Whether so many entries more may be logged: where they are kept, the page has room for them, and stamps allow 2^41 of each thread, with those
    /// that were handed out.
    #[inline(always)]
    pub fn fits(&self, entries: u32) -> bool
        ensures { result ≡ (nat_le (length self.now.known.log + entries) self.now.limit
            && nat_le (length self.now.known.log + entries) log_limit) }
    {
        self.mirror.length + u64::from(entries) <= self.mirror.end
    }

    /// Whether the log may have so many entries more, with those that were handed out: stamps allow 2^41 of each thread.
    #[inline(always)]
    pub fn may_grow(&self, entries: u32) -> bool
        ensures { result ≡ nat_le (length self.now.known.log + entries) log_limit }
    {
        self.length() + u64::from(entries) <= 2_199_023_255_552
    }

    /// Hands out the entries that the thread logged since its last page, between two calls: no step of the heap is made, and
    /// nobody has to stop. The pass logs into `empty` from here on, which has room for a page, so no memory is taken.
    ///
    /// The pages and, at the end, what `close` gives are together the thread's log.
    pub fn take_page(&mut self, heap: &Heap, empty: Vec<Logged>) -> Vec<Logged>
        requires is_of { IsOf heap.now self.old }
        requires empty { empty.items ≡ [] }
        requires room { self.old.room ≤ vec_capacity empty }
        ensures page { result.items ≡ page_of self.old }
        ensures pass { self.new ≡ record self.old { limit = self.old.limit + length (page_of self.old) } }
    {
        let keeps = self.mirror.keeps;
        let room = self.mirror.room;
        turn_page(
            keeps,
            room,
            &mut self.mirror.given,
            &mut self.mirror.end,
            &mut self.mirror.log,
            empty,
        )
    }

    /// The stamp of the log's last entry, or 0.
    #[inline(always)]
    pub fn last_stamp(&self) -> u64
        ensures { result ≡ last_stamp self.now.known.log }
    {
        self.mirror.last
    }

    /// How many entries may still be logged before the next page is handed out. Where entries aren't kept, that is more than a log may have.
    #[inline(always)]
    pub fn room(&self) -> u64
        ensures room { result + length self.now.known.log ≡ self.now.limit }
    {
        let room = self.mirror.room as u64;
        if self.mirror.keeps {
            room - self.mirror.log.len() as u64
        } else {
            room + 4_398_046_511_104 - self.mirror.given
        }
    }

    /// Whether the entries that the thread logs are kept, for a page. Where they aren't, no page has any.
    pub fn keeps(&self) -> bool
        ensures { result ≡ false → page_of self.now ≡ [] }
    {
        self.mirror.keeps
    }

    /// How many holds the thread has on the object, by its hold words.
    #[inline(always)]
    pub fn held(&self, object: u32) -> u32
        ensures held { result ≡ hold_count object self.now.known.holds }
        ensures few { result ≤ most_holds }
    {
        self.mirror.holds.held(object)
    }

    /// How many holds the thread has, by its hold words.
    #[inline(always)]
    pub fn holds(&self) -> u32
        ensures holds { result ≡ all_holds self.now.known.holds }
        ensures few { result ≤ most_holds }
    {
        self.mirror.holds.count()
    }

    /// The thread's hold words, as it last stored them.
    pub fn hold_words(&self) -> &[u64; PLACES]
        ensures { result.now ≡ self.now.known.holds }
    {
        &self.mirror.holds.words
    }

    /// The first place with this hold word, or one past the last where none has it.
    #[inline(always)]
    pub fn place_of(&self, word: u64) -> u32
        ensures place { result ≡ position_or_len (λ h. h == word) self.now.known.holds }
        ensures few { result ≤ most_holds }
        ensures all { length self.now.known.holds ≡ most_holds }
    {
        self.mirror.holds.place_of(word)
    }

    /// Whether the thread has a hold word in each of its places, so that there is none for one more hold.
    #[inline(always)]
    pub fn is_full(&self) -> bool
        ensures { result ≡ (position_or_len (λ h. h == 0) self.now.known.holds == most_holds) }
    {
        self.mirror.holds.is_full()
    }

    /// What the thread last stored in its waiting word.
    pub fn wait_word(&self) -> u64
        ensures { result ≡ self.now.known.wait }
    {
        self.mirror.wait
    }

    /// Whether the thread runs.
    #[inline(always)]
    pub fn running(&self) -> bool
        ensures { result ≡ self.now.known.running }
    {
        self.mirror.stand.running
    }

    /// Whether the thread's request for a safepoint stands.
    #[inline(always)]
    pub fn requesting(&self) -> bool
        ensures { result ≡ self.now.known.requesting }
    {
        self.mirror.stand.requesting
    }

    /// Whether the thread's request stands, and it has seen that no thread runs.
    #[inline(always)]
    pub fn reached(&self) -> bool
        ensures { result ≡ self.now.known.reached }
    {
        self.mirror.stand.reached
    }

    /// Whether the thread has seen or set the halt.
    #[inline(always)]
    pub fn halted(&self) -> bool
        ensures { result ≡ self.now.known.halted }
    {
        self.mirror.stand.halted
    }

    /// The unfinished operation, other than a check.
    #[inline(always)]
    pub fn unfinished(&self) -> Option<Unfinished>
        ensures { result ≡ self.now.known.unfinished }
    {
        self.mirror.unfinished
    }

    /// Whether a check is unfinished.
    #[inline(always)]
    pub fn checking(&self) -> bool
        ensures { result ≡ self.now.known.checking }
    {
        self.mirror.checking
    }

    /// The monitor that the thread has claimed and no mark names.
    #[inline(always)]
    pub fn kept(&self) -> Option<u64>
        ensures { result ≡ self.now.known.kept }
    {
        self.mirror.kept
    }

    /// The recursions that the thread's wait saved.
    pub fn saved(&self) -> u64
        ensures { result ≡ self.now.known.saved }
    {
        self.mirror.saved
    }

    /// The verdicts that the thread carried out, by class.
    pub fn counts(&self) -> &[ClassCounts]
        ensures { result.now ≡ counts_shown 0 self.now.classes self.now.known.counts }
    {
        self.mirror.counts.as_slice()
    }

    /// The dumps that the thread has taken, in their order.
    pub fn shots(&self) -> &[Shot]
        ensures { result.now ≡ self.now.known.shots }
    {
        self.mirror.shots.taken.as_slice()
    }

    /// Begins a shot: nothing was seen for it.
    pub fn begin_shot(&mut self)
        ensures { self.new ≡ record self.old { cut = []; cells = [] } }
    {
        self.mirror.shots.draft.cut.clear();
        self.mirror.shots.draft.cells.clear();
    }

    /// Adds the next thread's length to the shot, in entries: its log has it at the safepoint.
    pub fn see_length(&mut self, entries: u64)
        requires { length self.old.cut < self.old.threads }
        ensures { self.new ≡ record self.old { cut = self.old.cut ++ entries ∷ [] } }
    {
        self.mirror.shots.draft.cut.push_reserved(entries);
    }

    /// Adds the next object's cell to the shot: its lock is so at the safepoint.
    pub fn see_cell(&mut self, cell: Cell)
        requires { length self.old.cells < self.old.objects }
        ensures { self.new ≡ record self.old { cells = self.old.cells ++ (cell.owner, cell.count) ∷ [] } }
    {
        self.mirror.shots.draft.cells.push_reserved(cell);
    }

    /// How many objects the thread has made.
    pub fn made(&self) -> u64
        ensures { result ≡ length (news self.now.known.log) }
    {
        self.mirror.made
    }

    /// How many hashes that the thread drew are installed.
    pub fn draws(&self) -> u64
        ensures { result ≡ self.now.known.draws }
    {
        self.mirror.drawing.installed
    }

    /// The hash that the thread draws next.
    pub fn draw(&self) -> u32
        ensures { result ≡ nth_value self.now.first (self.now.known.draws + 1) }
    {
        self.mirror.drawing.next
    }
}
