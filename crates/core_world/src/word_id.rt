//! The words of the heap by name.

/// One word of the heap. Threads, objects, classes and monitors are numbers from 0; a place is below 64.
#[derive(Clone, Copy)]
pub enum WordId {
    /// Which threads run, which one has requested a safepoint, and whether the run is halted.
    Safepoint,
    /// The header that the class's new objects get; its epoch is the class's.
    Prototype { class: u32 },
    /// How many revocations of the class count for the policy of bulk operations.
    Revocations { class: u32 },
    /// The moment of the class's last bulk operation, in milliseconds from 1, or 0 for none.
    LastBulk { class: u32 },
    /// The object's header.
    Mark { object: u32 },
    /// A stamp that no entry which left the object free is above.
    Stamp { object: u32 },
    /// Of an object that a thread makes: its class plus 1, or 0 where it isn't there. A declared object has no such word.
    Class { object: u32 },
    /// A slot of the object.
    Slot { object: u32, slot: u32 },
    /// The object and the depth of the thread's lock record at this place.
    Hold { thread: u32, place: u32 },
    /// The displaced header of the thread's lock record at this place.
    Displaced { thread: u32, place: u32 },
    /// What the thread waits for.
    Waiting { thread: u32 },
    /// How many entries of its log the thread has published.
    Length { thread: u32 },
    /// Who owns the monitor.
    Owner { monitor: u32 },
    /// How often its owner has entered the monitor again.
    Recursions { monitor: u32 },
    /// The neutral header that the monitor keeps for its object.
    Header { monitor: u32 },
    /// The monitor's object.
    Object { monitor: u32 },
    /// How many ring positions have been claimed, modulo 2^64: the next one to be claimed.
    Claim,
    /// The ring position after the last one at which a monitor stands, modulo 2^64.
    End,
    /// The monitor that stands at the ring's positions of this remainder.
    Ring { place: u32 },
}
