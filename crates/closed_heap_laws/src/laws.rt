//! Laws of a heap's end. The functions do nothing.

ghost use Rattle.std.specs.Prelude.{◌≡◌, ◌<◌, ℕ, true, false, List, slice_get, slice_index, Some};
ghost use Rattle.core_world.specs.declared.word_id.WordId.TheVariants.{Prototype};
ghost use Rattle.core_world.specs.declared.heap_call.Operation.TheVariants as op;
ghost use Rattle.core_world.specs.Clauses.Safepoints.{IsUnfinished};
ghost use Rattle.core_world.specs.Threads.ThreadView.{DumpShot, ThreadView};
ghost use Rattle.core_world.specs.Threads.References.{numbering};
ghost use Rattle.core_world.specs.Words.Forms.{is_halted};
ghost use Rattle.core_law.specs.Logic.{Heap};
ghost use Rattle.heap_table.specs.BiasesAtEnd.{counted_by};
ghost use Rattle.heap_table.specs.Layout.{place_of};
ghost use Rattle.plain_history.specs.Cuts.{cut_logs};
ghost use Rattle.plain_history.specs.ExactStamps.{StampsAreExact};
ghost use Rattle.plain_monitor.specs.Made.{IsMadeInTime};
ghost use Rattle.closed_heap_laws.specs.Monitors.{MonitorsAreApart};
ghost use Rattle.closed_heap_laws.specs.OfARun.{IsEnd, HasShots, IsStuckEnd, logs_in, shots_at, shots_in, unfinished_in};
ghost use Rattle.core_law.specs.Draws.{HasDraws};
ghost use Rattle.closed_heap_laws.specs.Prototypes.{prototype_by};

/// Over the logs that a run leaves on a heap: whose draws the hashes are; that each shot is right; that the stamps are
/// exact; that each entry finds the objects that it needs, among all entries and where a dump's shot cuts the logs; and
/// where the safepoint word has the halt, that the run is stuck, and that no thread has a Hash unfinished then.
pub fn the_end_of_a_heap_tells_its_run()
    ensures draws { (heap : Heap) (words : List ℕ) (ks : List ThreadView) → IsEnd heap words ks
        → HasDraws heap.start (logs_in ks) }
    ensures shots { (heap : Heap) (words : List ℕ) (ks : List ThreadView) → IsEnd heap words ks
        → HasShots heap.shape.objects (logs_in ks) (shots_in ks) }
    ensures stamps { (heap : Heap) (words : List ℕ) (ks : List ThreadView) → IsEnd heap words ks
        → StampsAreExact (logs_in ks) }
    ensures made { (heap : Heap) (words : List ℕ) (ks : List ThreadView) → IsEnd heap words ks
        → IsMadeInTime (numbering heap.shape) (logs_in ks) }
    ensures cut { (heap : Heap) (words : List ℕ) (ks : List ThreadView) (t i : ℕ) (s : DumpShot) → IsEnd heap words ks
        → slice_get (shots_at (shots_in ks) t) i ≡ Some s
        → IsMadeInTime (numbering heap.shape) (cut_logs s.cut (logs_in ks)) }
    ensures stuck { (heap : Heap) (words : List ℕ) (ks : List ThreadView) → IsEnd heap words ks
        → is_halted (slice_index words 0) ≡ true
        → IsStuckEnd heap.shape.objects heap.shape.threads ks }
    ensures unfinished { (heap : Heap) (words : List ℕ) (ks : List ThreadView) (t o : ℕ) → IsEnd heap words ks
        → is_halted (slice_index words 0) ≡ true → IsUnfinished (unfinished_in (slice_get ks t)) op.Hash o → ⊥ }
{}

/// The last prototype of each class follows from the verdicts that the heap's threads counted. With biasing it is neutral
/// where they counted a bulk revoke of the class; else it is biased to nobody, and its epoch is the number of their bulk
/// rebiases of the class modulo 4. Without biasing it is neutral, which is the word 1.
pub fn the_end_of_a_heap_tells_its_prototypes()
    ensures biased { (heap : Heap) (words : List ℕ) (ks : List ThreadView) (c : ℕ) → IsEnd heap words ks
        → c < heap.shape.classes
        → heap.biasing ≡ true
        → slice_index words (place_of heap.shape (Prototype c)) ≡ prototype_by heap.shape.threads (counted_by ks) c }
    ensures plain { (heap : Heap) (words : List ℕ) (ks : List ThreadView) (c : ℕ) → IsEnd heap words ks
        → c < heap.shape.classes
        → heap.biasing ≡ false → slice_index words (place_of heap.shape (Prototype c)) ≡ 1 }
{}

/// Each monitor is named by the mark of one object, kept by one thread, or stands at one position of the ring: never in
/// two of these places, and none is lost. An object that a thread waits on, was notified from or enters has one.
pub fn monitors_at_the_end_are_apart()
    ensures { (heap : Heap) (words : List ℕ) (ks : List ThreadView) → IsEnd heap words ks
        → MonitorsAreApart heap.shape words ks }
{}
