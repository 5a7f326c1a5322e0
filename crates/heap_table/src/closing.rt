//! How a heap ends.
ghost use Rattle.std.specs.Prelude.{◌≡◌, ◌⊎◌, ℕ, ◌<◌, length, All, Any, true, false, None, slice_index};
ghost use Rattle.plain_monitor.specs.History.{LegalObjects};
ghost use Rattle.plain_history.specs.ExactStamps.{StampsAreExact};
ghost use Rattle.core_world.specs.declared.heap_call.Operation.TheVariants as op;
ghost use Rattle.core_world.specs.Clauses.Safepoints.{IsUnfinished};
ghost use Rattle.core_world.specs.Words.Forms.{is_halted, runs_in, asks_in};
ghost use Rattle.core_law.specs.HeapLaw.{HeapLaw};
ghost use Rattle.heap_table.specs.BiasesAtEnd.{BiasesAtEnd};
ghost use Rattle.heap_table.specs.Seen.{knowns, logs_of, pages_of, shots_of, counts_of_all, LastWorld, InOrder, IsOf, ClosedSeen};

use crate::choice::{Both, Nobody};
use crate::counts::ClassCounts;
use crate::heap::{Heap, Spare};
use crate::mirror::Mirror;
use crate::pass::Pass;
use crate::reads::is_halted;
use crate::setting::Setting;
use crate::shape::HeapShape;
use crate::shots::{Shot, Shots};
use plain_monitor::{List, Logged};
use std::marker::Model;

/// What is left of a heap at its end.
#[derive(Drop)]
pub struct Closed {
    setting: Setting,
    words: List<u64>,
    logs: List<List<Logged>>,
    shots: List<List<Shot>>,
    counts: List<List<ClassCounts>>,
}

impl Model for Closed {
    ghost use Rattle.heap_table.specs.Ruled.{heap_in};
    ghost use Rattle.heap_table.specs.Seen.{ClosedSeen};

    ghost Value = { ClosedSeen };

    ghost view = { λ c. record {
      heap = heap_in c.setting;
      words = c.words;
      logs = c.logs;
      shots = c.shots;
      counts = c.counts;
    } };
}

impl Closed {
    /// The entries of each thread's log that it has not handed out, in the order of their threads.
    pub fn logs(&self) -> &List<List<Logged>>
        ensures { result.now ≡ self.now.logs }
    {
        &self.logs
    }

    /// The dumps of each thread, in the order of their threads, each thread's in the order in which it took them.
    pub fn shots(&self) -> &List<List<Shot>>
        ensures { result.now ≡ self.now.shots }
    {
        &self.shots
    }

    /// The verdicts that each thread carried out, by class, in the order of their threads.
    pub fn counts(&self) -> &List<List<ClassCounts>>
        ensures { result.now ≡ self.now.counts }
    {
        &self.counts
    }

    /// The words, by their places in the table.
    pub fn words(&self) -> &List<u64>
        ensures { result.now ≡ self.now.words }
    {
        &self.words
    }

    /// Whether the run was halted, by the safepoint word.
    pub fn halted(&self) -> bool
        ensures { result ≡ is_halted (slice_index self.now.words 0) }
    {
        let word = match self.words.items().first() {
            Some(word) => *word,
            None => 0,
        };
        is_halted(word)
    }

    /// The shape that the heap was made with.
    pub fn shape(&self) -> &HeapShape
        ensures { result.now ≡ self.now.heap.shape }
    {
        &self.setting.shape
    }
}

/// Ends a heap, and gives its words and what its passes logged and counted. It takes no memory.
///
/// The passes are all passes of this heap, in the order of their threads. None runs, and none has a request that
/// stands, which isn't asked where one of them knows the halt. The heap has its law still. The words are those of a
/// sound world in which each thread knows what its pass knows, and by its safepoint word no thread runs or asks.
///
/// What is left of the logs are the entries that no page had, which are all where no page was handed out. The whole
/// logs, pages and rest together, are legal, and their stamps exact. Where no thread has a Hash unfinished, the law
/// of biases holds of the logs, of what the passes counted, and of the classes' words: each thread has counted at
/// most one verdict more than it has entries, and none more where nothing is unfinished.
pub fn close(heap: Heap, passes: List<Pass>) -> Closed
    requires passes { All (IsOf heap) passes }
    requires order { InOrder 0 (knowns passes) × (length passes ≡ heap.heap.shape.threads) }
    requires stopped { All (λ p. p.known.running ≡ false) passes }
    requires quiet { All (λ p. p.known.requesting ≡ false) passes ⊎ Any (λ p. p.known.halted ≡ true) passes }
    ensures heap { result.heap ≡ heap.heap }
    ensures law { HeapLaw heap.heap }
    ensures world { LastWorld heap.heap result.words (knowns passes) }
    ensures logs { result.logs ≡ pages_of passes }
    ensures whole { All (λ p. p.limit ≡ heap.room) passes → result.logs ≡ logs_of passes }
    ensures shots { result.shots ≡ shots_of passes }
    ensures counts { result.counts ≡ counts_of_all passes }
    ensures legal { LegalObjects heap.heap.shape.objects (logs_of passes) }
    ensures stamps { StampsAreExact (logs_of passes) }
    ensures biases { All (λ p. p.known.unfinished ≡ None) passes
        → BiasesAtEnd 0 heap.heap result.words (logs_of passes) (knowns passes) }
    ensures biases_stuck { All (λ p. (o : ℕ) → IsUnfinished p.known.unfinished op.Hash o → ⊥) passes
        → BiasesAtEnd 1 heap.heap result.words (logs_of passes) (knowns passes) }
    ensures still { (t : ℕ) → t < heap.heap.shape.threads → (runs_in (slice_index result.words 0) t ≡ false)
        × (asks_in (slice_index result.words 0) t ≡ false) }
{
    let Heap {
        words,
        setting,
        room: _,
        spare,
    } = heap;
    let Spare {
        mut copy,
        mut logs,
        mut shots,
        mut counts,
        ..
    } = spare;
    let mut all = words.shared.load_new_seat::<Nobody>(0).1;
    for pass in passes.into_vec() {
        let Pass { seat, mirror } = pass;
        let Mirror {
            log,
            counts: own,
            shots: Shots { taken, .. },
            ..
        } = mirror;
        words.shared.join_seat::<Both>(&mut all, seat);
        logs.push_reserved(List::of(log));
        shots.push_reserved(List::of(taken));
        counts.push_reserved(List::of(own));
    }
    let count = words.word_count();
    let closed = words.close_with(all);
    for i in 0..count {
        copy.push_reserved(closed.word(i));
    }
    closed.free();
    Closed {
        setting,
        words: List::of(copy),
        logs: List::of(logs),
        shots: List::of(shots),
        counts: List::of(counts),
    }
}
