//! Laws of the steps that find an object's hash, or draw one for it. And what the logs say of hashes at the end. The functions do nothing.

ghost use Rattle.std.specs.Prelude.{◌≡◌, ◌≢◌, ℕ, List, Some};
ghost use Rattle.plain_monitor.specs.Objects.{PlainObject};
ghost use Rattle.plain_monitor.specs.declared.entry.Entry.TheVariants.{Hash};
ghost use Rattle.core_world.specs.declared.word_id.WordId.TheVariants.{Mark, Displaced, Header};
ghost use Rattle.core_world.specs.Trees.HashSteps.{NextDraw, find_hash_plan, draw_plan};
ghost use Rattle.core_world.specs.Trees.Plans.{CallContext};
ghost use Rattle.core_world.specs.Valid.{IsValid};
ghost use Rattle.core_world.specs.World.{World, logs};
ghost use Rattle.core_locks.specs.DrawnHashes.{HashesAreDrawn};
ghost use Rattle.core_locks.specs.HashLaws.{MayFind, MayFindInRecord, MayFindInMonitor, HasHash, HasNoHash, MayDrawInMark, MayDrawInMonitor, hash_entry};
ghost use Rattle.core_locks.specs.Knowing.{KeepsValid, LogsFound, LogsValid};

/// A running thread in the middle of nothing loads an object's mark. Where that has a hash, it logs this hash, without a draw, and the
/// plain objects take the entry; else nothing is logged. The world stays valid.
// The thread knows of itself that it runs in the middle of nothing, that its waiting word is Ready, and that its log has room; by the
// definition of the steps, what it has unfinished, if anything, is this hash (`own_entry`). Nothing need have been seen.
pub fn finding_a_hash_in_a_mark_keeps_the_world_valid()
    ensures found { (e : CallContext) (o : ℕ)
        → LogsFound (λ w t. MayFind w.shape (w.known t) e o × HasHash w (Mark o))
        (λ w t. find_hash_plan e (Mark o) o) (hash_entry o) }
    ensures none { (e : CallContext) (o : ℕ)
        → KeepsValid (λ w t. MayFind w.shape (w.known t) e o × HasNoHash w (Mark o))
        (λ w t. find_hash_plan e (Mark o) o) }
{}

/// The same of the displaced word of its own record of the object at depth 1, after it saw in this call that the mark is not biased.
// That the record has the object at depth 1 stands in its own hold words. The mark that it saw names that record.
pub fn finding_a_hash_in_an_own_record_keeps_the_world_valid()
    ensures found { (e : CallContext) (o p : ℕ)
        → LogsFound (λ w t. MayFindInRecord w.shape (w.known t) e o p × HasHash w (Displaced t p))
        (λ w t. find_hash_plan e (Displaced t p) o) (hash_entry o) }
    ensures none { (e : CallContext) (o p : ℕ)
        → KeepsValid (λ w t. MayFindInRecord w.shape (w.known t) e o p × HasNoHash w (Displaced t p))
        (λ w t. find_hash_plan e (Displaced t p) o) }
{}

/// The same of the header in the object's monitor, after it saw in this call, or stored, a mark that names the monitor.
pub fn finding_a_hash_in_a_monitor_keeps_the_world_valid()
    ensures found { (e : CallContext) (o m : ℕ)
        → LogsFound (λ w t. MayFindInMonitor w.shape (w.known t) e o m × HasHash w (Header m))
        (λ w t. find_hash_plan e (Header m) o) (hash_entry o) }
    ensures none { (e : CallContext) (o m : ℕ)
        → KeepsValid (λ w t. MayFindInMonitor w.shape (w.known t) e o m × HasNoHash w (Header m))
        (λ w t. find_hash_plan e (Header m) o) }
{}

/// A running thread in the middle of nothing exchanges a neutral mark without a hash for the same with its next draw. Where that hits,
/// it logs the hash with the draw, and the plain objects take the entry. The world stays valid, whether the exchange hits or misses.
// The expected mark is the one that was loaded. The draw is the next one by the count of those that it has logged, which it keeps, and
// by the number from which the heap's generators start.
pub fn drawing_a_hash_into_a_mark_keeps_the_world_valid()
    ensures hit { (e : CallContext) (draw : NextDraw) (o mark : ℕ)
        → LogsValid (λ w t. MayDrawInMark w.start w.shape (w.known t) draw o mark × (w.words (Mark o) ≡ mark))
        (λ w t. draw_plan e draw (Mark o) o mark)
        (Hash o draw.value (Some draw.number)) }
    ensures miss { (e : CallContext) (draw : NextDraw) (o mark : ℕ)
        → KeepsValid (λ w t. MayDrawInMark w.start w.shape (w.known t) draw o mark × (w.words (Mark o) ≢ mark))
        (λ w t. draw_plan e draw (Mark o) o mark) }
{}

/// The same of the header without a hash that the object's monitor keeps, after it saw in this call, or stored, a mark that names the
/// monitor.
pub fn drawing_a_hash_into_a_monitor_keeps_the_world_valid()
    ensures hit { (e : CallContext) (draw : NextDraw) (o m header : ℕ)
        → LogsValid (λ w t. MayDrawInMonitor w.start w.shape (w.known t) draw o m header
        × (w.words (Header m) ≡ header))
        (λ w t. draw_plan e draw (Header m) o header)
        (Hash o draw.value (Some draw.number)) }
    ensures miss { (e : CallContext) (draw : NextDraw) (o m header : ℕ)
        → KeepsValid
        (λ w t. MayDrawInMonitor w.start w.shape (w.known t) draw o m header × (w.words (Header m) ≢ header))
        (λ w t. draw_plan e draw (Header m) o header) }
{}

/// In each valid world the draws of each thread are numbered from 1 on in its log and are its generator's; each object with a hash has
/// exactly one logged entry with a draw, whose value is the hash; and every hash entry of an object says its hash.
pub fn each_hash_is_drawn_once()
    ensures { (w : World) (objects : List PlainObject) → IsValid w objects → HashesAreDrawn w.start (logs w) objects }
{}
