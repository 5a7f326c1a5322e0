//! The law of what is there, in the opening world and after a step that makes no object.

ghost use Rattle.std.specs.Prelude.{◌≡◌, ℕ, ◌<◌, Bool, false, List, Some};
ghost use Rattle.plain_monitor.specs.Made.{class_if_there};
ghost use Rattle.plain_monitor.specs.Objects.{PlainObject};
ghost use Rattle.core_world.specs.declared.plan.StepPlan.{StepPlan};
ghost use Rattle.core_world.specs.Opening.{opening};
ghost use Rattle.core_world.specs.Steps.{world_after};
ghost use Rattle.core_world.specs.Trees.LookSteps.{keep_shot_plan};
ghost use Rattle.core_world.specs.Trees.Plans.{CallContext};
ghost use Rattle.core_world.specs.Valid.{Fits, IsRevoking};
ghost use Rattle.core_world.specs.Words.Names.{class_by, has_class};
ghost use Rattle.core_world.specs.Words.Shape.{Shape, IsInLimits};
ghost use Rattle.core_world.specs.World.{World, logs};
ghost use Rattle.core_locks.specs.ShotLaws.{MayKeepShot};
ghost use Rattle.core_world.specs.Threads.References.{numbering, making_in};
ghost use Rattle.core_law.specs.BiasLaw.{is_logged};
ghost use Rattle.core_law.specs.MadeLaw.{MadeLawHolds, IsFree, IsUnmade};
ghost use Rattle.bias_law.specs.Making.{IsUntouched};
ghost use Rattle.core_made.specs.Steps.{IsFairQuietly, is_there_in};

/// In the opening world the declared objects are there, and the words of all others are those of objects that aren't.
pub fn the_opening_world_has_what_is_declared()
    ensures { (s : Shape) (start : ℕ) (biasing : Bool) → IsInLimits s → MadeLawHolds (opening s start biasing) }
{}

/// A step that logs nothing keeps the law, where it spares what isn't there, and begins no operation but on an object that its
/// thread knows. Nor does it come to the mark of another object, but at its thread's reached safepoint.
pub fn a_quiet_step_keeps_what_is_there()
    ensures { (w : World) (t : ℕ) (p : StepPlan) → IsFairQuietly w t p → MadeLawHolds w
        → MadeLawHolds (world_after p t w) }
{}

/// The step that keeps a shot of a dump keeps the law: the shot cuts each log at its end.
pub fn keeping_a_shot_keeps_what_is_there()
    ensures { (w : World) (objects : List PlainObject) (t : ℕ) (e : CallContext) → t < w.shape.threads
        → MayKeepShot w.shape (w.known t) e → making_in e.unfinished ≡ making_in (w.known t).unfinished
        → Fits w objects → MadeLawHolds w → MadeLawHolds (world_after (keep_shot_plan e) t w) }
{}

/// While a bias is revoked the law holds, where it held before the first store: the stores are of marks that had the bias
/// pattern, and no object that isn't there has such a mark.
pub fn a_revocation_keeps_what_is_there()
    ensures { (w : World) (objects : List PlainObject) (s : IsRevoking w objects) → MadeLawHolds s.before
        → MadeLawHolds w }
{}

/// An object that isn't there is free, and as objects are at first; no log tells of it, and no entry is on it.
pub fn what_is_not_there_is_free()
    ensures free { (w : World) (objects : List PlainObject) (o : ℕ) → Fits w objects → MadeLawHolds w
        → is_there_in w o ≡ false → IsFree w objects o }
    ensures untouched { (w : World) (objects : List PlainObject) (o : ℕ) → Fits w objects → MadeLawHolds w
        → is_there_in w o ≡ false → IsUntouched w o }
{}

/// Which objects are there, the logs tell in two ways: an object is there after all entries of their order exactly where it is
/// declared, or some log has its New.
pub fn what_is_there_is_declared_or_logged()
    ensures { (w : World) (o : ℕ) → IsInLimits w.shape → MadeLawHolds w
        → is_logged w.shape (logs w) o ≡ is_there_in w o }
{}

/// What steps find of an object's class by words is what the logs say, where no thread is making the object: it is there by its
/// class word exactly where it is by the logs, and has the class with which it was declared or made.
pub fn class_words_tell_what_is_there()
    ensures there { (w : World) (o : ℕ) → IsInLimits w.shape → MadeLawHolds w → IsUnmade w o
        → has_class w.shape w.words o ≡ is_there_in w o }
    ensures class { (w : World) (law : MadeLawHolds w) (o c : ℕ) → IsInLimits w.shape
        → class_if_there (numbering w.shape) law.made o ≡ Some c → class_by w.shape w.words o ≡ c }
{}
