//! One step with all that it makes of its thread's knowledge.

use crate::act::Act;
use crate::heap_call::{HeapCall, Unfinished};
use crate::stage::Stage;
use crate::word_id::WordId;
use lock_policy::Verdict;
use plain_monitor::Entry;

/// What a step logs, where it hits.
#[derive(Clone, Copy)]
pub enum LogEffect {
    /// Nothing.
    Quiet,
    /// This entry. An Enter or a Resume gets one more than the greater of the word found and the thread's last stamp, every other
    /// entry one more than the thread's last stamp.
    Log { entry: Entry },
    /// A Get with the value that the word found spells.
    LogGet { object: u32, slot: u32 },
    /// A Hash with the hash of the word found, not drawn, where that word is neutral and has a hash; no operation is unfinished
    /// then. Else nothing.
    LogHash { object: u32 },
}

/// What a thread keeps of a step for itself, where the step hits.
#[derive(Clone, Copy)]
pub enum LocalEffect {
    /// Nothing.
    Unchanged,
    /// The number found is the ring position whose monitor it loads next.
    Position,
    /// The number found is the monitor that it keeps from now on, and it has loaded its position.
    Claim,
    /// It gives this monitor back, which no mark names any more.
    Detach {
        monitor: u32,
    },
    /// The monitor that it gave back stands in the ring.
    Enqueue,
    /// It keeps no monitor any more.
    DropClaim,
    /// The number found is the recursions that its wait saves.
    SaveRecursions,
    /// It counts a verdict on the class, and a reset where there was one.
    CountVerdict {
        class: u32,
        verdict: Verdict,
        reset: bool,
    },
    /// What it has seen at its safepoint is its next shot.
    TakeShot,
}

/// One atomic step, and what it makes of its thread's knowledge where it hits.
#[derive(Clone, Copy)]
pub struct StepPlan {
    pub at: WordId,
    pub act: Act,
    pub note: LogEffect,
    pub own: LocalEffect,
    /// The call that it is a step of.
    pub task: HeapCall,
    /// The operation that is unfinished afterwards.
    pub after: Option<Unfinished>,
    /// Whether a check is unfinished afterwards.
    pub check: bool,
    /// Where the thread stands afterwards.
    pub stage: Stage,
}
