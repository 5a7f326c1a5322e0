//! Laws of the steps that give idle monitors back at a reached safepoint. The functions do nothing.
//!
//! After the first of these stores no mark names the monitor, and it doesn't stand in the ring yet: until then it is with the thread that gives
//! it back. Every clause holds between any two of them.

ghost use Rattle.std.specs.Prelude.{ℕ, ◌%◌, List};
ghost use Rattle.plain_monitor.specs.Objects.{PlainObject};
ghost use Rattle.core_world.specs.World.{World};
ghost use Rattle.core_world.specs.Valid.{IsValid};
ghost use Rattle.core_world.specs.Words.Shape.{ring_places};
ghost use Rattle.core_locks.specs.MonitorLaws.{MayFetch};
ghost use Rattle.core_world.specs.declared.word_id.WordId.TheVariants.{Owner, Recursions, Header, Object, Ring};
ghost use Rattle.core_world.specs.Trees.DeflateSteps.{detach_plan, clean_plan, enqueue_plan, advance_plan};
ghost use Rattle.core_world.specs.Trees.Plans.{CallContext};
ghost use Rattle.core_locks.specs.Knowing.{KeepsValid};
ghost use Rattle.core_locks.specs.DeflationLaws.{MayDetach, MayClean, MayEnqueue, MayAdvance, IsOnlyFor};

/// A thread at its reached safepoint stores the header of a monitor as the mark of its object. By what it saw there the monitor is idle: the
/// mark names it, nobody owns it, and nobody waits on the object, was notified from it or enters it.
pub fn giving_an_object_its_header_keeps_the_world_valid()
    ensures { (e : CallContext) (o m header : ℕ)
        → KeepsValid (λ w t. MayDetach w.shape (w.known t) e o m header)
        (λ w t. detach_plan e (w.known t).stage o m header) }
{}

/// It clears a word of the monitor that it gives back, which no mark names and no thread keeps.
pub fn clearing_an_idle_monitor_keeps_the_world_valid()
    ensures owner { (e : CallContext) (m : ℕ)
        → KeepsValid (λ w t. MayClean (w.known t) e m) (λ w t. clean_plan e (w.known t).stage (Owner m)) }
    ensures recursions { (e : CallContext) (m : ℕ)
        → KeepsValid (λ w t. MayClean (w.known t) e m) (λ w t. clean_plan e (w.known t).stage (Recursions m)) }
    ensures header { (e : CallContext) (m : ℕ)
        → KeepsValid (λ w t. MayClean (w.known t) e m) (λ w t. clean_plan e (w.known t).stage (Header m)) }
    ensures object { (e : CallContext) (m : ℕ)
        → KeepsValid (λ w t. MayClean (w.known t) e m) (λ w t. clean_plan e (w.known t).stage (Object m)) }
{}

/// It stores the monitor at the place of the end position, at which no other one stands, since the monitor isn't in the ring.
pub fn storing_into_the_ring_keeps_the_world_valid()
    ensures { (e : CallContext) (m end : ℕ)
        → KeepsValid (λ w t. MayEnqueue (w.known t) e m end)
        (λ w t. enqueue_plan e (w.known t).stage w.shape end m) }
{}

/// And it moves the end past that position: the monitor stands in the ring.
pub fn moving_the_end_of_the_ring_keeps_the_world_valid()
    ensures { (e : CallContext) (m end : ℕ)
        → KeepsValid (λ w t. MayAdvance w.shape (w.known t) e m end)
        (λ w t. advance_plan e (w.known t).stage end) }
{}

/// A claim gives a monitor that nobody has. The heap has it, no mark names it, no thread keeps it or gives it back,
/// no other thread has claimed its place, and it stands at no filled position. So nobody owns it, waits on it or
/// stands before it, and no other claim gives it until it is given back.
pub fn a_claim_gives_a_monitor_of_nobody()
    ensures { (w : World) (objects : List PlainObject) (t : ℕ) (e : CallContext) (p : ℕ) → MayFetch (w.known t) e p
        → IsValid w objects
        → IsOnlyFor w t (w.words (Ring (p % ring_places w.shape))) }
{}
