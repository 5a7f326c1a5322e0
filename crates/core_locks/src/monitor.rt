//! Laws of the steps on the words of monitors: a monitor is claimed, prepared and named by a mark; its owner word and its recursions
//! change; it is left, let go in a wait, and taken again. The functions do nothing.
//!
//! A thread counts on the words of a monitor in two ways. The one that it keeps, no other thread touches. The monitor of an object that it
//! owns, or is taking, has an owner word and recursions that no other thread changes; that the mark names it, it has seen in its call.

ghost use Rattle.std.specs.Prelude.{ℕ};
ghost use Rattle.plain_monitor.specs.declared.entry.Entry.TheVariants.{Exit};
ghost use Rattle.core_world.specs.declared.word_id.WordId.{WordId};
ghost use Rattle.core_world.specs.declared.word_id.WordId.TheVariants.{Owner, Recursions, Header, Object};
ghost use Rattle.core_world.specs.Trees.MonitorSteps.{claim_plan, fetch_plan, prepare_plan, inflate_plan, name_plan, name_neutral_plan, grab_plan, take_over_plan, raise_count_plan, lower_count_plan, reset_count_plan, free_plan};
ghost use Rattle.core_world.specs.Trees.Plans.{CallContext, load_plan};
ghost use Rattle.core_world.specs.Trees.WaitSteps.{save_count_plan, drop_plan, quit_plan, regain_plan, restore_plan};
ghost use Rattle.core_locks.specs.Knowing.{KeepsValid, LogsValid};
ghost use Rattle.core_locks.specs.LoadLaws.{MayLoadOfMonitor};
ghost use Rattle.core_locks.specs.MonitorLaws.{MayClaim, MayFetch, MayPrepare, MayPrepareOwner, MayPrepareObject, MayInflate, MayName, MayNameNeutral, MayGrab, MayTakeOver, MayRaiseCount, MayLowerCount, MayResetCount, MaySaveCount, MayFree, MayDrop, MayQuit, MayRegain, MayRestore};

/// A running thread that keeps no monitor claims a ring position, by a fetch-and-add on the claim word, and loads the place of that position: it keeps
/// the monitor that it finds there. Some monitor stands at each position up to the end, and nobody else has it.
// That it keeps none is its own knowledge: a thread with a kept monitor inflates with that.
pub fn claiming_a_monitor_keeps_the_world_valid()
    ensures position { (e : CallContext) → KeepsValid (λ w t. MayClaim (w.known t) e) (λ w t. claim_plan e) }
    ensures monitor { (e : CallContext) (p : ℕ)
        → KeepsValid (λ w t. MayFetch (w.known t) e p) (λ w t. fetch_plan e w.shape p) }
{}

/// A running thread stores a word of the monitor that it keeps, before a mark names it: nobody else reads or writes there.
// An owner word has to spell an owner that the heap has, and an object word an object: the tree stores the record that the mark named, or
// `Free`, and the object of its call.
pub fn preparing_a_monitor_keeps_the_world_valid()
    ensures owner { (e : CallContext) (m word : ℕ)
        → KeepsValid (λ w t. MayPrepareOwner w.shape (w.known t) e m word)
        (λ w t. prepare_plan e (w.known t).stage (Owner m) word) }
    ensures recursions { (e : CallContext) (m word : ℕ)
        → KeepsValid (λ w t. MayPrepare (w.known t) e m)
        (λ w t. prepare_plan e (w.known t).stage (Recursions m) word) }
    ensures header { (e : CallContext) (m word : ℕ)
        → KeepsValid (λ w t. MayPrepare (w.known t) e m) (λ w t. prepare_plan e (w.known t).stage (Header m) word) }
    ensures object { (e : CallContext) (m word : ℕ)
        → KeepsValid (λ w t. MayPrepareObject w.shape (w.known t) e m word)
        (λ w t. prepare_plan e (w.known t).stage (Object m) word) }
{}

/// A running thread exchanges a mark that names a lock record, its own or another's, for 0. From then on it counts on that mark and on the
/// record's displaced word, which is the object's header and can't change before the thread stores the inflated mark.
// The form of the expected mark is what the tree tested. It saw nothing of another's displaced word in this call: the tree loads it after
// the exchange. An older sight would be stale, since the record may have been left and taken again.
pub fn exchanging_a_locked_mark_keeps_the_world_valid()
    ensures { (e : CallContext) (o mark u p : ℕ)
        → KeepsValid (λ w t. MayInflate (w.known t) e o mark u p) (λ w t. inflate_plan e o mark u p) }
{}

/// A running thread makes a mark name the monitor that it keeps: by a store in the middle of its inflation, where no other thread changes
/// that mark, and by an exchange of a neutral one. The monitor says by its words what the mark said before: the record that had the lock as
/// its owner, or none, and the header.
// All words of the monitor are the thread's own stores in this call. The header is the displaced word that it loaded after the exchange
// for 0, or the neutral mark that it expects.
pub fn naming_a_monitor_keeps_the_world_valid()
    ensures store { (e : CallContext) (o m u p h : ℕ)
        → KeepsValid (λ w t. MayName w.shape (w.known t) e o m u p h) (λ w t. name_plan e o m) }
    ensures exchange { (e : CallContext) (o mark m : ℕ)
        → KeepsValid (λ w t. MayNameNeutral w.shape (w.known t) e o mark m) (λ w t. name_neutral_plan e o mark m) }
{}

/// A running thread that neither waits nor was notified exchanges the free owner word of an object's monitor for itself, to enter.
// The mark that names the monitor it saw in this call, and such a mark stays. The recursions of a monitor that it doesn't own it hasn't
// seen in this call; where it owned the monitor before in the same call, it has seen them last as 0.
pub fn exchanging_a_free_owner_keeps_the_world_valid()
    ensures { (e : CallContext) (o m : ℕ)
        → KeepsValid (λ w t. MayGrab (w.known t) e o m) (λ w t. grab_plan e t o m) }
{}

/// A running thread stores itself as the owner in place of its own record, which it found there. It has the object still, now by the
/// monitor; the recursions are still those of the record's way, 0.
// The owner word was loaded, or found by an exchange, in this call. That the thread has a hold of the object follows from the clauses at
// that moment.
pub fn storing_the_owner_keeps_the_world_valid()
    ensures { (e : CallContext) (o m p : ℕ)
        → KeepsValid (λ w t. MayTakeOver (w.known t) e o m p) (λ w t. take_over_plan e t o m) }
{}

/// The owner of a monitor stores its recursions: one more, before the hold word that they count; one less, before the hold word that
/// they don't count any more is cleared; and 0, where it has just stored itself in place of its own record, to wait or to exit.
// It found itself the owner in this call, or stored so. What it raises or lowers is what it loaded last, or the 0 after its own record.
pub fn storing_recursions_keeps_the_world_valid()
    ensures up { (e : CallContext) (o m r : ℕ)
        → KeepsValid (λ w t. MayRaiseCount (w.known t) e o m r) (λ w t. raise_count_plan e o m r) }
    ensures down { (e : CallContext) (o m r : ℕ)
        → KeepsValid (λ w t. MayLowerCount (w.known t) e o m r) (λ w t. lower_count_plan e o m r) }
    ensures none { (e : CallContext) (o m : ℕ)
        → KeepsValid (λ w t. MayResetCount (w.known t) e o m) (λ w t. reset_count_plan e m) }
{}

/// The owner of a monitor clears the owner word, which logs its last Exit of the object. The plain objects take that entry.
// It found the recursions 0 in this call, so this is its last hold, and raised the object's stamp to at least that of the entry.
// That what it has unfinished, if anything, is this exit (`own_entry`), is by the definition of the steps.
pub fn freeing_a_monitor_keeps_the_world_valid()
    ensures { (e : CallContext) (o m p stamp : ℕ)
        → LogsValid (λ w t. MayFree w.shape (w.known t) o m stamp) (λ w t. free_plan e o m p) (Exit o) }
{}

/// A thread that has logged its Wait lets go of the monitor: the recursions become 0, and then the owner word is cleared.
// That it stands there says its stage. The owner word is its own store or sight in this call.
pub fn letting_go_in_a_wait_keeps_the_world_valid()
    ensures recursions { (e : CallContext) (o m : ℕ)
        → KeepsValid (λ w t. MayDrop (w.known t) e o m) (λ w t. drop_plan e o m) }
    ensures owner { (e : CallContext) (o m : ℕ)
        → KeepsValid (λ w t. MayQuit (w.known t) e o m) (λ w t. quit_plan e m) }
{}

/// A thread whose wait was notified exchanges the free owner word for itself, and then stores the recursions that the wait saved. That these
/// are the right ones the step after them asks, which logs Resume.
// It loaded its own waiting word in this call, and that says so. As in an enter, it saw no recursions of the monitor, or 0.
pub fn resuming_by_the_monitor_keeps_the_world_valid()
    ensures owner { (e : CallContext) (o m : ℕ)
        → KeepsValid (λ w t. MayRegain (w.known t) e o m) (λ w t. regain_plan e t o m) }
    ensures recursions { (e : CallContext) (o m word : ℕ)
        → KeepsValid (λ w t. MayRestore (w.known t) e o m) (λ w t. restore_plan e o m word) }
{}

/// The owner's load of the recursions that its wait saves; and any load, by a running thread, of a word of a monitor that a mark names
/// which it saw in this call.
pub fn loading_a_word_of_a_monitor_keeps_the_world_valid()
    ensures saving { (e : CallContext) (o m : ℕ)
        → KeepsValid (λ w t. MaySaveCount (w.known t) e o m) (λ w t. save_count_plan e m) }
    ensures looking { (e : CallContext) (at : WordId) (o m : ℕ)
        → KeepsValid (λ w t. MayLoadOfMonitor (w.known t) e at o m) (λ w t. load_plan e (w.known t).stage at) }
{}
