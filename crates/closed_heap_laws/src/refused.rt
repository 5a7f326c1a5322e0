//! Laws that what is said of a heap's end is refused where it is wrong. The functions do nothing.

ghost use Rattle.std.specs.Prelude.{◌≡◌, ◌≢◌, ◌+◌, ◌<◌, ◌≤◌, ◌∷◌, [], ℕ, true, false, List, length, slice_get, slice_index, Option, Some, None};
ghost use Rattle.plain_history.specs.Cuts.{cut_logs};
ghost use Rattle.plain_history.specs.ExactStamps.{StampsAreExact};
ghost use Rattle.plain_history.specs.Known.{two_threads, made_late, printed_early};
ghost use Rattle.plain_monitor.specs.declared.entry.Entry.TheVariants.{Done, Dump, Enter, Exit, Hash, New, Print};
ghost use Rattle.plain_monitor.specs.declared.entry.Logged.{Logged};
ghost use Rattle.plain_monitor.specs.declared.entry.Path.TheVariants.{StackFirst};
ghost use Rattle.plain_monitor.specs.declared.entry.Value.TheVariants.{Nil, Ref};
ghost use Rattle.plain_monitor.specs.History.{appended};
ghost use Rattle.plain_monitor.specs.Made.{IsMadeInTime, made_number};
ghost use Rattle.core_world.specs.declared.word_id.WordId.TheVariants.{Prototype, Waiting};
ghost use Rattle.core_world.specs.declared.heap_call.Operation.TheVariants as op;
ghost use Rattle.core_world.specs.Clauses.Classes.{bulk_rebiases, bulk_revokes};
ghost use Rattle.core_world.specs.Opening.{first_known};
ghost use Rattle.core_world.specs.Threads.ThreadView.{ThreadView, draw_of};
ghost use Rattle.core_world.specs.Words.Forms.{is_halted, waits_on};
ghost use Rattle.core_world.specs.Words.Shape.{Shape, monitor_count};
ghost use Rattle.core_law.specs.Draws.{HasDraws};
ghost use Rattle.core_law.specs.Logic.{Heap};
ghost use Rattle.heap_table.specs.BiasesAtEnd.{counted_by};
ghost use Rattle.heap_table.specs.Layout.{place_of};
ghost use Rattle.closed_heap_laws.specs.Monitors.{IsNamed, IsNamedNowhere, MonitorsAreApart, kept_by, named_by, ringed_at, word_at};
ghost use Rattle.closed_heap_laws.specs.OfARun.{IsEnd, HasShots, IsStuckEnd};

/// Draws that no heap's threads made: a thread's first one isn't its generator's; two threads drew a hash for one object; nobody drew an
/// object's hash; or a thread drew one that it had logged before.
///
/// Refuses what `the_end_of_a_heap_tells_its_run` says of draws.
pub fn no_draws_of_another_generator()
    ensures other { (start value : ℕ) → value ≢ draw_of start 0 1
        → HasDraws start ((record { stamp = 1; entry = Hash 0 value (Some 1) } ∷ []) ∷ []) → ⊥ }
    ensures twice { (start v w : ℕ)
        → HasDraws start
        ((record { stamp = 1; entry = Hash 0 v (Some 1) } ∷ [])
        ∷ (record { stamp = 1; entry = Hash 0 w (Some 1) } ∷ []) ∷ []) → ⊥ }
    ensures nobody { (start v : ℕ) → HasDraws start ((record { stamp = 1; entry = Hash 0 v None } ∷ []) ∷ []) → ⊥ }
    ensures late { (start v : ℕ)
        → HasDraws start
        ((record { stamp = 1; entry = Hash 0 v None } ∷ record { stamp = 2; entry = Hash 0 v (Some 1) } ∷ []) ∷ [])
        → ⊥ }
{}

/// Shots that no dump took: one leaves out an entry of another thread that stands before a tied entry that it has; one says that nobody
/// owns the object that its thread has entered; of two neither was made before the other; or a logged dump has none.
///
/// Refuses what `the_end_of_a_heap_tells_its_run` says of shots.
pub fn no_shots_that_are_not_right()
    ensures cut { (shape : List (ℕ × ℕ)) (cells : List (Option ℕ × ℕ)) → HasShots shape
        ((record { stamp = 1; entry = Enter 0 StackFirst } ∷ record { stamp = 2; entry = Exit 0 } ∷ [])
        ∷ (record { stamp = 3; entry = Enter 0 StackFirst } ∷ record { stamp = 4; entry = Dump 1 } ∷ []) ∷ [])
        ([] ∷ (record { number = 1; cut = 0 ∷ 1 ∷ []; cells = cells } ∷ []) ∷ []) → ⊥ }
    ensures cells { HasShots ((0, 0) ∷ [])
        ((record { stamp = 1; entry = Enter 0 StackFirst } ∷ record { stamp = 2; entry = Dump 1 } ∷ []) ∷ [])
        ((record { number = 1; cut = 1 ∷ []; cells = (None, 0) ∷ [] } ∷ []) ∷ []) → ⊥ }
    ensures unordered { (shape : List (ℕ × ℕ)) (logs : List (List Logged)) (c d : List (Option ℕ × ℕ))
        → HasShots shape logs
        ((record { number = 1; cut = 1 ∷ 0 ∷ []; cells = c } ∷ [])
        ∷ (record { number = 1; cut = 0 ∷ 1 ∷ []; cells = d } ∷ []) ∷ []) → ⊥ }
    ensures lacking { (shape : List (ℕ × ℕ))
        → HasShots shape ((record { stamp = 1; entry = Dump 1 } ∷ []) ∷ []) ([] ∷ []) → ⊥ }
{}

/// Stamps of a log that leave a gap or stand twice. And of an enter: one that is too high, where nobody has let go of the object, and one
/// that isn't above the exit before it.
///
/// Refuses what `the_end_of_a_heap_tells_its_run` says of stamps.
pub fn no_stamps_with_a_gap_or_twice()
    ensures gap { StampsAreExact
        ((record { stamp = 1; entry = Print Nil } ∷ record { stamp = 3; entry = Print Nil } ∷ []) ∷ []) → ⊥ }
    ensures twice { StampsAreExact
        ((record { stamp = 1; entry = Print Nil } ∷ record { stamp = 1; entry = Print Nil } ∷ []) ∷ []) → ⊥ }
    ensures high { StampsAreExact ((record { stamp = 2; entry = Enter 0 StackFirst } ∷ []) ∷ []) → ⊥ }
    ensures early { StampsAreExact
        ((record { stamp = 1; entry = Enter 0 StackFirst } ∷ record { stamp = 2; entry = Exit 0 } ∷ [])
        ∷ (record { stamp = 2; entry = Enter 0 StackFirst } ∷ []) ∷ []) → ⊥ }
{}

/// A thread prints an object at a stamp before that of its New. A dump's shot cuts the logs so that it has the print and not the New. Or a
/// thread makes an object by a number of another thread.
///
/// Refuses what `the_end_of_a_heap_tells_its_run` says of the objects that entries find.
pub fn no_use_of_an_object_before_its_new()
    ensures made { IsMadeInTime two_threads (appended made_late 1 printed_early) → ⊥ }
    ensures cut { IsMadeInTime two_threads
        (cut_logs (1 ∷ 1 ∷ []) (appended made_late 1 (record { stamp = 3; entry = Print (Ref 0) }))) → ⊥ }
    ensures number { IsMadeInTime two_threads
        ((record { stamp = 1; entry = New (made_number two_threads 1 0) 0 } ∷ []) ∷ [] ∷ []) → ⊥ }
{}

/// A halted run in which a thread can go on: it enters an object that the other one has left. Or all threads have ended. And an end with
/// the halt at which a thread has a hash unfinished.
///
/// Refuses what `the_end_of_a_heap_tells_its_run` says of a halted run.
pub fn no_halted_run_that_is_not_stuck()
    ensures enters { IsStuckEnd ((0, 0) ∷ []) 2
        (record (first_known 0) {
          log = record { stamp = 1; entry = Enter 0 StackFirst } ∷ record { stamp = 2; entry = Exit 0 }
              ∷ record { stamp = 3; entry = Done } ∷ [];
        }
        ∷ record (first_known 1) { unfinished = Some (record { op = op.Enter; object = 0 }) } ∷ []) → ⊥ }
    ensures ended { (shape : List (ℕ × ℕ)) → IsStuckEnd shape 1
        (record (first_known 0) { log = record { stamp = 1; entry = Done } ∷ [] } ∷ []) → ⊥ }
    ensures hash { (heap : Heap) (words : List ℕ) (ks : List ThreadView) (k : ThreadView) (t o : ℕ)
        → is_halted (slice_index words 0) ≡ true → slice_get ks t ≡ Some k
        → k.unfinished ≡ Some (record { op = op.Hash; object = o }) → IsEnd heap words ks → ⊥ }
{}

/// A prototype that isn't what the counted verdicts make: it is biased to nobody after a bulk revoke, has epoch 0 after one bulk rebias or
/// epoch 1 after none; or it is biased where the heap has no biases. The word of an epoch e is 256 e + 5.
///
/// Refuses the conclusions of `the_end_of_a_heap_tells_its_prototypes`.
pub fn no_prototype_beside_the_counted_verdicts()
    ensures revoked { (heap : Heap) (words : List ℕ) (ks : List ThreadView) (c : ℕ) → c < heap.shape.classes
        → heap.biasing ≡ true → 0 < bulk_revokes heap.shape.threads (counted_by ks) c
        → slice_index words (place_of heap.shape (Prototype c)) ≡ 5 → IsEnd heap words ks → ⊥ }
    ensures rebiased { (heap : Heap) (words : List ℕ) (ks : List ThreadView) (c : ℕ) → c < heap.shape.classes
        → heap.biasing ≡ true → bulk_revokes heap.shape.threads (counted_by ks) c ≡ 0
        → bulk_rebiases heap.shape.threads (counted_by ks) c ≡ 1
        → slice_index words (place_of heap.shape (Prototype c)) ≡ 5 → IsEnd heap words ks → ⊥ }
    ensures early { (heap : Heap) (words : List ℕ) (ks : List ThreadView) (c : ℕ) → c < heap.shape.classes
        → heap.biasing ≡ true → bulk_revokes heap.shape.threads (counted_by ks) c ≡ 0
        → bulk_rebiases heap.shape.threads (counted_by ks) c ≡ 0
        → slice_index words (place_of heap.shape (Prototype c)) ≡ 261 → IsEnd heap words ks → ⊥ }
    ensures plain { (heap : Heap) (words : List ℕ) (ks : List ThreadView) (c : ℕ) → c < heap.shape.classes
        → heap.biasing ≡ false → slice_index words (place_of heap.shape (Prototype c)) ≡ 5 → IsEnd heap words ks → ⊥ }
{}

/// A monitor that two marks name, two threads keep, or both a mark and a thread have; one that stands at a ring position of those at which
/// monitors stand, and that a mark names, that a thread keeps, or that stands at another one of these, too; one that is nowhere; and an object
/// that a thread waits on, and that has none.
///
/// Refuses the conclusion of `monitors_at_the_end_are_apart`.
pub fn no_monitor_in_two_places_or_in_none()
    ensures marks { (s : Shape) (words : List ℕ) (ks : List ThreadView) (o i m : ℕ) → i ≢ o → IsNamed s words o m
        → IsNamed s words i m → MonitorsAreApart s words ks → ⊥ }
    ensures threads { (s : Shape) (words : List ℕ) (ks : List ThreadView) (t u m : ℕ) → u ≢ t → kept_by ks t ≡ Some m
        → kept_by ks u ≡ Some m → MonitorsAreApart s words ks → ⊥ }
    ensures both { (s : Shape) (words : List ℕ) (ks : List ThreadView) (t o m : ℕ) → kept_by ks t ≡ Some m
        → IsNamed s words o m → MonitorsAreApart s words ks → ⊥ }
    ensures ring_and_mark { (s : Shape) (words : List ℕ) (ks : List ThreadView) (p o m : ℕ)
        (apart : MonitorsAreApart s words ks) → apart.first ≤ p → p < apart.first + apart.ringed
        → ringed_at s words p ≡ m → IsNamed s words o m → ⊥ }
    ensures ring_and_thread { (s : Shape) (words : List ℕ) (ks : List ThreadView) (p t m : ℕ)
        (apart : MonitorsAreApart s words ks) → apart.first ≤ p → p < apart.first + apart.ringed
        → ringed_at s words p ≡ m → kept_by ks t ≡ Some m → ⊥ }
    ensures ring_twice { (s : Shape) (words : List ℕ) (ks : List ThreadView) (p q m : ℕ)
        (apart : MonitorsAreApart s words ks) → apart.first ≤ p → p < apart.first + apart.ringed
        → apart.first ≤ q → q < apart.first + apart.ringed → q ≢ p
        → ringed_at s words p ≡ m → ringed_at s words q ≡ m → ⊥ }
    ensures lost { (s : Shape) (words : List ℕ) (ks : List ThreadView) (m : ℕ) → m < monitor_count s
        → 0 < length s.objects → ((t : ℕ) → kept_by ks t ≢ Some m) → IsNamedNowhere s words m
        → ((p : ℕ) → ringed_at s words p ≢ m) → MonitorsAreApart s words ks → ⊥ }
    ensures waits { (s : Shape) (words : List ℕ) (ks : List ThreadView) (t o : ℕ) → t < s.threads
        → waits_on (word_at s words (Waiting t)) o ≡ true → named_by s words o ≡ None
        → MonitorsAreApart s words ks → ⊥ }
{}
