//! The programs of `examples/`, each as the text of its file: `ANSWER` is that of `answer.mon`, `COUNTING_SYNC` that of `counting.sync`, and
//! so on. Tests take them from here.
//!
//! Made from `examples/` by `tools/examples --write`: change the programs there, and not this crate.
#![tactic(auto)]

mod texts_1;
mod texts_2;
mod texts_3;

pub use texts_1::{
    ANSWER, BULK_REBIAS, CONTENTION, COUNTING, CROSSWISE, DINING_RISING, DINING_THREE, DUMP,
    EXIT_TOO_OFTEN, FAULT_BY_ORDER, HAND_OVER, HANDOVER_40, HASH, INFLATED, LOST_NOTIFY, MADE,
    MANY_OBJECTS, OVERFLOW, STALE_EPOCH, TOO_DEEP, TOO_MANY,
};
pub use texts_2::{
    BOUNDED_BUFFER_SYNC, COUNTING_SYNC, CROSSED_BLOCKS_SYNC, MADE_BY_EACH_SYNC, MADE_QUEUE_SYNC,
    PHILOSOPHERS_SYNC, TWO_ADDERS, UNGUARDED_GET, WAIT_FOREVER, WAIT_WITHOUT_HOLD,
};
pub use texts_3::READERS_AND_WRITERS_SYNC;

/// All programs without blocks, each with the name of its file.
pub const EXAMPLES: [(&str, &str); 25] = [
    ("answer.mon", ANSWER),
    ("bulk_rebias.mon", BULK_REBIAS),
    ("contention.mon", CONTENTION),
    ("counting.mon", COUNTING),
    ("crosswise.mon", CROSSWISE),
    ("dining_rising.mon", DINING_RISING),
    ("dining_three.mon", DINING_THREE),
    ("dump.mon", DUMP),
    ("exit_too_often.mon", EXIT_TOO_OFTEN),
    ("fault_by_order.mon", FAULT_BY_ORDER),
    ("hand_over.mon", HAND_OVER),
    ("handover_40.mon", HANDOVER_40),
    ("hash.mon", HASH),
    ("inflated.mon", INFLATED),
    ("lost_notify.mon", LOST_NOTIFY),
    ("made.mon", MADE),
    ("many_objects.mon", MANY_OBJECTS),
    ("overflow.mon", OVERFLOW),
    ("stale_epoch.mon", STALE_EPOCH),
    ("too_deep.mon", TOO_DEEP),
    ("too_many.mon", TOO_MANY),
    ("two_adders.mon", TWO_ADDERS),
    ("unguarded_get.mon", UNGUARDED_GET),
    ("wait_forever.mon", WAIT_FOREVER),
    ("wait_without_hold.mon", WAIT_WITHOUT_HOLD),
];

/// All programs with blocks.
pub const BLOCKS: [(&str, &str); 7] = [
    ("bounded_buffer.sync", BOUNDED_BUFFER_SYNC),
    ("counting.sync", COUNTING_SYNC),
    ("crossed_blocks.sync", CROSSED_BLOCKS_SYNC),
    ("made_by_each.sync", MADE_BY_EACH_SYNC),
    ("made_queue.sync", MADE_QUEUE_SYNC),
    ("philosophers.sync", PHILOSOPHERS_SYNC),
    ("readers_and_writers.sync", READERS_AND_WRITERS_SYNC),
];
