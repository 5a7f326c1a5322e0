//! How a heap begins.
ghost use Rattle.std.specs.Prelude.{◌≡◌, ℕ, ◌+◌, ◌*◌, ◌-◌, ◌<◌, ◌≤◌, ◌^◌, [], IfOk};
ghost use Rattle.plain_monitor.specs.Limits.{most_fuel, entries_for};
ghost use Rattle.core_world.specs.Words.Shape.{IsInLimits};
ghost use Rattle.core_law.specs.HeapLaw.{HeapLaw};
ghost use Rattle.heap_table.specs.Fresh.{IsFresh};
ghost use Rattle.heap_table.specs.Kept.{limit_by};
ghost use Rattle.heap_table.specs.inner.Firsts.{first_knowns};
ghost use Rattle.heap_table.specs.Layout.{word_count};
ghost use Rattle.heap_table.specs.Ruled.{heap_in};
ghost use Rattle.heap_table.specs.Seen.{first_pass, first_passes};

use crate::choice::First;
use crate::heap::{Heap, Spare};
use crate::mirror::Mirror;
use crate::opening::opening_words;
use crate::pass::Pass;
use crate::rule::{Place, Words};
use crate::setting::Setting;
use crate::shape::HeapShape;
use crate::shots::Shots;
use plain_monitor::limits::LAST_ENTRIES;
use plain_monitor::{List, NoMemory};
use std::alloc::{AllocError, Global};

// The pass of the next thread.
fn next_pass(
    alloc: Global,
    words: &Words,
    setting: &Setting,
    seat: &mut Place,
    thread: u32,
    room: u32,
    keeps: bool,
) -> Result<Pass, AllocError>
    requires setting { IsInLimits setting.now.shape × (words.now.shared.key ≡ setting.now)
        × (words.now.shared.table_id.words ≡ word_count setting.now.shape) }
    requires thread { thread < setting.now.shape.threads }
    requires seat { (seat.old.table_id ≡ words.now.shared.table_id)
        × (seat.old.me ≡ (first_knowns thread (setting.now.shape.threads - thread), [])) }
    ensures seat { IfOk result (λ _. (seat.new.table_id ≡ seat.old.table_id)
        × (seat.new.me ≡ (first_knowns (thread + 1) (setting.now.shape.threads - (thread + 1)), []))) }
    ensures pass { IfOk result (λ p. p ≡ first_pass (record {
      table = words.now.shared.table_id;
      heap = heap_in setting.now;
      room = room;
    }) (limit_by keeps 0 room) thread) }
{
    let first = setting.start.wrapping_add(thread);
    let home = setting.shape.hold_at(thread, 0) as u32;
    let shots = Shots::new(alloc, setting.shape.threads(), setting.shape.objects())?;
    let mirror = Mirror::new(
        alloc,
        thread,
        home,
        room,
        keeps,
        setting.shape.classes(),
        first,
        shots,
    )?;
    let own = words.shared.split_seat::<First>(seat);
    Ok(Pass { seat: own, mirror })
}

// Room for what `close` gives.
fn spare(alloc: Global, words: usize, threads: usize) -> Result<Spare, AllocError>
    ensures { IfOk result (λ s. (s.words ≡ words) × (s.threads ≡ threads)) }
{
    Ok(Spare {
        words,
        threads,
        copy: Vec::with_capacity(alloc, words)?,
        logs: Vec::with_capacity(alloc, threads)?,
        shots: Vec::with_capacity(alloc, threads)?,
        counts: Vec::with_capacity(alloc, threads)?,
    })
}

// A heap, and a stopped pass for each thread, with room for so many entries in a page of its log.
fn begin(
    alloc: Global,
    setting: Setting,
    room: u32,
    keeps: bool,
) -> Result<(Heap, Vec<Pass>), AllocError>
    requires law { IsInLimits setting.shape → HeapLaw (heap_in setting) }
    ensures heap { IfOk result (λ r. r.0.heap ≡ heap_in setting) }
    ensures room { IfOk result (λ r. r.0.room ≡ room) }
    ensures passes { IfOk result (λ r. r.1.items ≡ first_passes r.0 (limit_by keeps 0 room) 0 setting.shape.threads) }
    ensures law { IfOk result (λ r. HeapLaw r.0.heap) }
    ensures fresh { IfOk result (λ r. (t : ℕ) → t < setting.shape.threads → IsFresh r.0 t (first_pass r.0 (limit_by keeps 0 room) t)) }
{
    let start = opening_words(alloc, &setting)?;
    let threads = setting.shape.threads();
    let spare = spare(alloc, start.len(), threads as usize)?;
    let mut passes = Vec::with_capacity(alloc, threads as usize)?;
    let (words, mut seat): (Words, Place) = Words::of_words(alloc, start.as_slice(), &setting)?;
    for thread in 0..threads {
        let pass = next_pass(alloc, &words, &setting, &mut seat, thread, room, keeps)?;
        passes.push_reserved(pass);
    }
    let heap = Heap {
        words,
        setting,
        room,
        spare,
    };
    Ok((heap, passes))
}

impl Heap {
    /// Makes a heap of this shape, with biases or without, and a pass for each thread, in order.
    ///
    /// Each pass is stopped, with nothing logged, held, requested, counted or unfinished, and with room in a page of
    /// its log for the entries that `fuel` instructions may log; `fuel` is at most 200,000. The hash generator of
    /// thread t begins with the word `start + t`, modulo 2^32. The words are those of the opening world, and the
    /// contract says that the passes know what its threads know there.
    ///
    /// The caller hands in the heap's law, under the premise that its shape is in the limits, as every `HeapShape`
    /// is. The law is handed on, and each pass is one of this heap that has made no step. Nothing takes memory later.
    ///
    /// # Errors
    ///
    /// `NoMemory` where an allocation fails.
    pub fn new(
        alloc: Global,
        shape: HeapShape,
        fuel: u32,
        start: u32,
        biasing: bool,
    ) -> Result<(Heap, List<Pass>), NoMemory>
        requires fuel { fuel ≤ most_fuel }
        requires law { IsInLimits shape → HeapLaw (record { shape = shape; start = start; biasing = biasing }) }
        ensures heap { IfOk result (λ r. r.0.heap ≡ record { shape = shape; start = start; biasing = biasing }) }
        ensures room { IfOk result (λ r. r.0.room ≡ entries_for fuel) }
        ensures passes { IfOk result (λ r. r.1 ≡ first_passes r.0 (entries_for fuel) 0 shape.threads) }
        ensures law { IfOk result (λ r. HeapLaw r.0.heap) }
        ensures fresh { IfOk result (λ r. (t : ℕ) → t < shape.threads
            → IsFresh r.0 t (first_pass r.0 (entries_for fuel) t)) }
    {
        let setting = Setting {
            shape,
            start,
            biasing,
        };
        match begin(alloc, setting, 2 * fuel + LAST_ENTRIES, true) {
            Ok((heap, passes)) => Ok((heap, List::of(passes))),
            Err(_) => Err(NoMemory),
        }
    }

    /// Makes such a heap whose passes keep no entries: no page has any, and a log may have as many as stamps allow.
    ///
    /// # Errors
    ///
    /// `NoMemory` where an allocation fails.
    pub fn without_pages(
        alloc: Global,
        shape: HeapShape,
        start: u32,
        biasing: bool,
    ) -> Result<(Heap, List<Pass>), NoMemory>
        requires law { IsInLimits shape → HeapLaw (record { shape = shape; start = start; biasing = biasing }) }
        ensures heap { IfOk result (λ r. r.0.heap ≡ record { shape = shape; start = start; biasing = biasing }) }
        ensures room { IfOk result (λ r. r.0.room ≡ 0) }
        ensures passes { IfOk result (λ r. r.1 ≡ first_passes r.0 (2 ^ 42) 0 shape.threads) }
        ensures law { IfOk result (λ r. HeapLaw r.0.heap) }
        ensures fresh { IfOk result (λ r. (t : ℕ) → t < shape.threads → IsFresh r.0 t (first_pass r.0 (2 ^ 42) t)) }
    {
        let setting = Setting {
            shape,
            start,
            biasing,
        };
        match begin(alloc, setting, 0, false) {
            Ok((heap, passes)) => Ok((heap, List::of(passes))),
            Err(_) => Err(NoMemory),
        }
    }
}
