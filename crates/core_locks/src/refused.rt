//! Laws of steps that no other law allows: each lacks a premise of the law of its kind, or is another step than the law has. Each
//! leads to a world that is not valid, whatever plain objects one takes. The functions do nothing.

ghost use Rattle.std.specs.Prelude.{◌≡◌, ◌≢◌, ℕ, ◌+◌, ◌<◌, length, true, false};
ghost use Rattle.mark_word.specs.declared.mark.MarkForm.TheVariants.{Locked};
ghost use Rattle.mark_word.specs.Mark.{mark_of};
ghost use Rattle.plain_monitor.specs.Limits.{most_holds};
ghost use Rattle.plain_monitor.specs.declared.entry.Entry.TheVariants.{Print};
ghost use Rattle.plain_monitor.specs.declared.entry.Value.{Value};
ghost use Rattle.plain_history.specs.HeldByLog.{HasLetGo};
ghost use Rattle.core_world.specs.declared.word_id.WordId.TheVariants.{Mark, Stamp, Displaced};
ghost use Rattle.core_world.specs.Words.Forms.{is_neutral};
ghost use Rattle.core_world.specs.Threads.ThreadView.{local_of};
ghost use Rattle.core_world.specs.Trees.HashSteps.{NextDraw, draw_plan};
ghost use Rattle.core_world.specs.Trees.LockSteps.{seize_plan, let_go_plan};
ghost use Rattle.core_world.specs.Locks.{owner_at, hash_at};
ghost use Rattle.core_world.specs.Trees.Operations.{get_plan};
ghost use Rattle.core_world.specs.Trees.Plans.{CallContext, next_stamp};
ghost use Rattle.core_world.specs.Steps.{world_after};
ghost use Rattle.core_world.specs.Valid.{Valid};
ghost use Rattle.core_world.specs.Trees.WaitSteps.{publish_plan};
ghost use Rattle.core_world.specs.World.{World};
ghost use Rattle.core_locks.specs.HashLaws.{IsItsNext};

mod deflation;
mod inflating;
mod owning;
mod wait;

pub use deflation::{
    no_claim_of_a_second_monitor, no_deflation_of_a_monitor_in_use,
    no_deflation_of_another_monitor, no_deflation_to_another_header, no_end_moved_before_the_store,
    no_store_over_a_filled_position,
};
pub use inflating::{
    no_hash_in_a_displaced_word_that_is_copied, no_inflation_by_a_store,
    no_inflation_without_the_header, no_inflation_without_the_owner,
    no_store_over_an_inflated_mark, no_store_over_anothers_inflation,
};
pub use owning::{
    no_entry_without_the_lock, no_free_monitor_with_recursions, no_recursion_without_a_hold,
    no_second_owner,
};
pub use wait::{
    no_halt_while_one_can_go_on, no_notify_all_that_misses_one, no_notify_of_a_later_waiter,
    no_notify_of_nobody, no_resume_untold, no_resume_with_another_count,
};

/// A running thread that exchanges a mark which isn't neutral, but names another thread's record, for its place.
pub fn no_exchange_of_another_mark()
    ensures { (w : World) (o t u p q : ℕ) (e : CallContext) → Valid w → (w.known t).running ≡ true → t ≢ u
        → u < 32 → p < 64 → q < most_holds
        → w.words (Mark o) ≡ mark_of (Locked u q)
        → Valid (world_after (seize_plan e t o (mark_of (Locked u q)) p) t w) → ⊥ }
{}

/// A running thread that exchanges a neutral mark for a place where it hasn't stored that mark as the displaced word.
pub fn no_exchange_without_the_displaced_word()
    ensures { (w : World) (o t mark p : ℕ) (e : CallContext) → Valid w → (w.known t).running ≡ true → p < most_holds
        → is_neutral mark ≡ true
        → w.words (Mark o) ≡ mark → w.words (Displaced t p) ≢ mark
        → Valid (world_after (seize_plan e t o mark p) t w) → ⊥ }
{}

/// A running thread that puts a header back, though the object's stamp is below that of the Exit which this logs.
pub fn no_exit_below_the_stamp()
    ensures { (w : World) (o t p header : ℕ) (e : CallContext) → (w.known t).running ≡ true
        → w.words (Mark o) ≡ mark_of (Locked t p)
        → is_neutral header ≡ true → w.words (Stamp o) < next_stamp (local_of (w.known t))
        → Valid (world_after (let_go_plan e o (mark_of (Locked t p)) header p) t w) → ⊥ }
{}

/// A running thread that puts a header back, though the object's stamp is another one than that of the Exit which this logs: it isn't 0,
/// and no thread let go of the object with it.
pub fn no_exit_with_another_stamp()
    ensures { (w : World) (o t p header : ℕ) (e : CallContext) → (w.known t).running ≡ true
        → w.words (Mark o) ≡ mark_of (Locked t p)
        → is_neutral header ≡ true → w.words (Stamp o) ≢ 0 → w.words (Stamp o) ≢ next_stamp (local_of (w.known t))
        → ((u : ℕ) → HasLetGo (w.known u).log o (w.words (Stamp o)) → ⊥)
        → Valid (world_after (let_go_plan e o (mark_of (Locked t p)) header p) t w) → ⊥ }
{}

/// A running thread that puts a header back in place of a mark which names another thread's record, whose thread is the plain owner,
/// wherever in the order its stamp puts the Exit.
pub fn no_exit_by_another()
    ensures { (w : World) (o t u q header : ℕ) (e : CallContext) (v : Valid w) → (w.known t).running ≡ true
        → u ≢ t → owner_at v.objects o u ≡ true
        → w.words (Mark o) ≡ mark_of (Locked u q)
        → Valid (world_after (let_go_plan e o (mark_of (Locked u q)) header q) t w) → ⊥ }
{}

/// A running thread that loads a slot of an object which it doesn't own, wherever in the order its stamp puts the Get.
pub fn no_get_without_the_lock()
    ensures { (w : World) (o slot t : ℕ) (e : CallContext) (v : Valid w) → (w.known t).running ≡ true
        → owner_at v.objects o t ≡ false
        → Valid (world_after (get_plan e o slot) t w) → ⊥ }
{}

/// A running thread that publishes more entries than its log has with the one that this logs.
pub fn no_length_ahead_of_the_log()
    ensures { (w : World) (t n : ℕ) (value : Value) (e : CallContext) → (w.known t).running ≡ true
        → length (w.known t).log + 1 < n
        → Valid (world_after (publish_plan e t (Print value) n) t w) → ⊥ }
{}

/// A running thread that exchanges a mark for a neutral one with a hash, and so logs a draw that isn't its next one.
pub fn no_draw_out_of_turn()
    ensures { (w : World) (t o mark : ℕ) (e : CallContext) (draw : NextDraw) → Valid w
        → (w.known t).running ≡ true → w.words (Mark o) ≡ mark
        → (IsItsNext w.start (w.known t) draw → ⊥) → Valid (world_after (draw_plan e draw (Mark o) o mark) t w) → ⊥ }
{}

/// A running thread that so draws a hash for an object that has one.
pub fn no_second_draw()
    ensures { (w : World) (t o mark : ℕ) (e : CallContext) (draw : NextDraw) (v : Valid w)
        → (w.known t).running ≡ true → w.words (Mark o) ≡ mark
        → 0 < hash_at v.objects o → Valid (world_after (draw_plan e draw (Mark o) o mark) t w) → ⊥ }
{}
