//! What lies behind a handle.
ghost use Rattle.std.specs.Prelude.{◌≡◌};

use crate::store::{Lent, Passes};
use heap_table::{Closed, Heap};
use plain_monitor::Logged;
use std::alloc::Global;
use std::sync::Arc;

/// A heap that is being planned.
#[derive(Drop)]
pub struct Plan {
    pub threads: u32,
    pub fuel: u32,
    pub start: u32,
    pub biased: bool,
    /// How many slots the objects of each class have.
    pub slots: Vec<u32>,
    /// The class of each object.
    pub classes: Vec<u32>,
}

/// A heap, and its passes: each at home, or with its thread.
#[derive(Drop)]
pub struct Room {
    pub heap: Heap,
    pub passes: Passes,
    pub ghost keyed: { passes.table.shared.key ≡ heap },
    pub ghost each: { passes.table.shared.table_id.slots ≡ heap.heap.shape.threads },
}

/// A thread's pass, with its heap: the thread is between two calls.
#[derive(Drop)]
pub struct Seat {
    pub room: Arc<Room, Global>,
    pub lent: Lent,
    /// The page of the log that was handed out last. The next one gets its room.
    pub page: Vec<Logged>,
    /// It is known that the thread runs, and is in the middle of nothing.
    pub free: bool,
    pub ghost of_the_room: { lent.seat.table_id ≡ room.value.passes.table.shared.table_id },
}

#[derive(Drop)]
pub enum Inner {
    Plan(Plan),
    Room(Arc<Room, Global>),
    Seat(Seat),
    Closed(Closed),
    /// Nothing: while what the handle has is in a call, or where a pass of its heap was lost.
    Gone,
}
