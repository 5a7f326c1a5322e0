//! Where a thread stands in the middle of an operation.

use plain_monitor::Path;

/// Where a thread stands between a step on a lock and the step that tells it, so that the invariant can say by how much the words
/// are ahead of the logs or behind them. A thread stands at one of these at a time.
#[derive(Clone, Copy)]
pub enum Stage {
    /// Nothing is ahead or behind.
    Settled,
    /// It exchanged the object's neutral mark for its place, and hasn't stored the hold word.
    RecordLocked {
        object: u32,
        place: u32,
    },
    /// It exchanged the free owner word of the object's monitor to enter, and hasn't stored the hold word.
    MonitorAcquired {
        object: u32,
    },
    /// It has stored a bias to itself, by an exchange of the mark or in a bulk rebias, and hasn't stored the hold word.
    BiasAcquired {
        object: u32,
    },
    /// Its new hold word stands at this place, and the Enter, which will have this path, isn't logged.
    Enters {
        object: u32,
        place: u32,
        path: Path,
    },
    /// It exchanged the free owner word to resume, and the Resume isn't logged.
    Resumes {
        object: u32,
    },
    /// Its last Exit is logged, and the hold word at this place isn't cleared.
    Exits {
        object: u32,
        place: u32,
    },
    /// Its Wait is logged, and the owner word isn't cleared.
    Waits {
        object: u32,
    },
    /// It stored itself as the owner of the object's monitor, in place of its own record, and hasn't stored the recursions.
    OwnerConverted {
        object: u32,
    },
    /// The monitor's recursions count the hold that it is about to store.
    RecursionsRaised {
        object: u32,
    },
    /// The monitor's recursions don't count the hold any more that it is about to clear.
    RecursionsLowered {
        object: u32,
    },
    /// It exchanged the object's mark, which named this lock record, for 0, and hasn't stored the inflated mark.
    Inflates {
        object: u32,
        thread: u32,
        place: u32,
    },
    /// It notified so many waiters of the object, but not all, and the NotifyAll isn't logged. The words alone don't tell how many: an earlier
    /// notify may have told others.
    Notifies {
        object: u32,
        notified: u32,
    },
    /// It carries out the revocation of the object's bias at its safepoint, from the first store on. `rebias` is true in an enter,
    /// and `now` is the moment that the policy of bulk operations is given, in milliseconds.
    Revokes {
        object: u32,
        rebias: bool,
        now: u64,
    },
}
