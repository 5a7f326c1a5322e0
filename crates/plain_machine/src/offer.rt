//! What a thread may do next.

use plain_monitor::Entry;

/// What a thread is offered. An offered `Enter` has the path `StackFirst`, and an offered `Hash` has `drawn` None.
#[derive(Clone, Copy, Debug, PartialEq, Eq)]
pub enum Offer {
    /// The entry that it makes next, with what the objects answer.
    Next(Entry),
    /// A hash entry of this object, which has no hash yet: any value that a hash may be.
    NextHash { object: u32 },
    /// Nothing: it asks to enter or resume the monitor of this object, which the owner has.
    Blocked { object: u32, owner: u32 },
    /// Nothing: it waits on this object, and was not notified.
    Waiting { object: u32 },
    /// Nothing: it has ended.
    Ended,
}
