//! The law of what is there after a step that logs an entry.

ghost use Rattle.std.specs.Prelude.{◌≡◌, ℕ, ◌<◌, List, Some};
ghost use Rattle.plain_monitor.specs.declared.entry.Logged.{Logged};
ghost use Rattle.plain_monitor.specs.Objects.{PlainObject, take_entry};
ghost use Rattle.core_world.specs.declared.plan.StepPlan.{StepPlan};
ghost use Rattle.core_world.specs.Steps.{world_after};
ghost use Rattle.core_world.specs.Valid.{Fits};
ghost use Rattle.core_world.specs.World.{World};
ghost use Rattle.core_law.specs.MadeLaw.{MadeLawHolds};
ghost use Rattle.core_made.specs.Steps.{IsFairTelling};

/// A step that logs an entry which makes no object keeps the law, where it spares what isn't there, begins no operation but
/// on an object that its thread knows, and the thread knows what the entry needs. Nor does it come to the mark of another
/// object, but at its thread's reached safepoint. Other threads may be making objects meanwhile.
pub fn telling_keeps_what_is_there()
    ensures { (w : World) (objects now : List PlainObject) (t : ℕ) (p : StepPlan) (y : Logged)
        → t < w.shape.threads → IsFairTelling w t p y → take_entry objects t y.entry ≡ Some now
        → Fits w objects → Fits (world_after p t w) now → MadeLawHolds w
        → MadeLawHolds (world_after p t w) }
{}
