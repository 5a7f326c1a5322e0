//! Laws of the steps by which a running thread logs an entry without taking or leaving a lock: on a slot of an object that it holds, and
//! on its published length. And of the step by which it publishes its whole log.

ghost use Rattle.std.specs.Prelude.{ℕ, ◌+◌, length};
ghost use Rattle.plain_monitor.specs.declared.entry.Entry.{Entry};
ghost use Rattle.plain_monitor.specs.declared.entry.Entry.TheVariants.{Put};
ghost use Rattle.plain_monitor.specs.declared.entry.Value.{Value};
ghost use Rattle.core_world.specs.Trees.Operations.{get_plan, put_plan};
ghost use Rattle.core_world.specs.Trees.Plans.{CallContext};
ghost use Rattle.core_world.specs.Trees.SafepointSteps.{publish_log_plan};
ghost use Rattle.core_world.specs.Trees.WaitSteps.{publish_plan};
ghost use Rattle.core_locks.specs.JournalLaws.{MayGet, MayPut, MayPublish, MayPublishLog, get_entry};
ghost use Rattle.core_locks.specs.Knowing.{KeepsValid, LogsFound, LogsValid};

/// A running thread that holds an object, and is in the middle of nothing, loads one of the object's slots, and so logs a Get of the
/// value that the word spells. The world stays valid, and its plain objects take the entry.
// The thread knows of itself that it runs in the middle of nothing with nothing unfinished, that its waiting word is Ready, that it has a
// hold word for the object, and that its log has room. The heap's shape, which no step changes, has the thread, and the object and slot that the caller
// names. The steps of a get are defined with nothing unfinished.
pub fn logging_a_get_keeps_the_world_valid()
    ensures { (e : CallContext) (o slot : ℕ)
        → LogsFound (λ w t. MayGet w.shape (w.known t) e o slot) (λ w t. get_plan e o slot) (get_entry o slot) }
{}

/// A running thread that holds an object, and is in the middle of nothing, stores the word of a value in one of the object's slots, and
/// so logs a Put. The world stays valid, and its plain objects take the entry.
// What the thread may touch is known as for a get. The value that the caller puts has a word, and names an object that the shape has.
// By the definition of the steps, a logged Put leaves nothing unfinished.
pub fn logging_a_put_keeps_the_world_valid()
    ensures { (e : CallContext) (o slot : ℕ) (value : Value)
        → LogsValid (λ w t. MayPut w.shape (w.known t) o slot value)
        (λ w t. put_plan e o slot value) (Put o slot value) }
{}

/// A running thread in the middle of nothing publishes its length with one entry more, and so logs that entry: a Print, a Dump, an
/// ending, or a notify by the owner of an object that nobody waits on. The world stays valid, and its plain objects take the entry.
// The thread knows of itself that it runs in the middle of nothing, that its waiting word is Ready, that its log has room, and that what it
// has unfinished, if anything, is the dump or the notify whose entry this is (`own_entry`), which its call is. For a notify it has a hold word for the object, which the shape has, and has seen in this call that nobody waits. That the stored length
// is that of its log and one more is so by the definition of the steps.
pub fn publishing_a_length_keeps_the_world_valid()
    ensures { (e : CallContext) (entry : Entry)
        → LogsValid (λ w t. MayPublish w.shape (w.known t) entry)
        (λ w t. publish_plan e t entry (length (w.known t).log + 1)) entry }
{}

/// A running thread in the middle of nothing publishes its whole log, and logs nothing: its length word becomes the length of its log.
/// So it does before it stops. The world stays valid, with the same plain objects.
// The thread knows of itself that it runs in the middle of nothing; that the stored length is that of its log, and that the step leaves
// what is unfinished, is by the definition of the steps.
pub fn publishing_the_whole_log_keeps_the_world_valid()
    ensures { (e : CallContext)
        → KeepsValid (λ w t. MayPublishLog (w.known t) e) (λ w t. publish_log_plan e t (length (w.known t).log)) }
{}
