//! Laws of the worlds, which hold of all shapes. Their functions do nothing.

ghost use Rattle.std.specs.Prelude.{ℕ, ◌<◌, Bool, List};
ghost use Rattle.plain_monitor.specs.Objects.{PlainObject, new_objects};
ghost use Rattle.core_world.specs.declared.plan.StepPlan.{StepPlan};
ghost use Rattle.core_world.specs.Words.Shape.{Shape, IsInLimits};
ghost use Rattle.core_world.specs.World.{World};
ghost use Rattle.core_world.specs.Opening.{opening};
ghost use Rattle.core_world.specs.Looking.{IsLook, IsMiss};
ghost use Rattle.core_world.specs.Steps.{world_after};
ghost use Rattle.core_world.specs.Valid.{Fits, IsValid, Valid};

/// The world before the first step is valid, for each shape within the limits, whatever number the generators start from, and
/// with biases and without: every clause holds of it, and its plain objects are the new ones.
pub fn the_opening_world_is_valid()
    ensures fits { (s : Shape) (start : ℕ) (biasing : Bool) → IsInLimits s
        → Fits (opening s start biasing) (new_objects s.objects) }
    ensures valid { (s : Shape) (start : ℕ) (biasing : Bool) → IsInLimits s → Valid (opening s start biasing) }
{}

/// A load that logs nothing, and an exchange that finds another word than it expects, keep every valid world valid, with the same
/// plain objects: of any thread, whether it runs, is stopped, or stands at its reached safepoint, also while a bias is being
/// revoked. A thread that neither runs nor stands at its safepoint looks at the safepoint word alone, and nobody looks at a
/// word of a monitor that it neither keeps nor has seen named by a mark.
pub fn a_look_keeps_the_world_valid()
    ensures load { (w : World) (objects : List PlainObject) (t : ℕ) (p : StepPlan) → t < w.shape.threads
        → IsLook (w.known t) p
        → IsValid w objects → IsValid (world_after p t w) objects }
    ensures miss { (w : World) (objects : List PlainObject) (t : ℕ) (p : StepPlan) → t < w.shape.threads
        → IsMiss (w.known t) p (w.words p.at) → IsValid w objects → IsValid (world_after p t w) objects }
{}
