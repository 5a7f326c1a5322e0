//! Enters and exits of the common ways, each as one function: the same steps as elsewhere, and what the thread knows written once, after the last
//! of them. Where something is in the way, the answer says how far the steps came.
ghost use Rattle.std.specs.Prelude.{◌≡◌, ◌≢◌, ◌≤◌};
ghost use Rattle.core_world.specs.declared.heap_call.HeapCall.TheVariants.{Enter, Exit};
ghost use Rattle.heap_table.specs.Quick.{EntersFree, HasEntered, HasLeft, IsFree, LeavesFree, entering, leaving};
ghost use Rattle.core_world.specs.Locks.{hold_count};
ghost use Rattle.heap_table.specs.Resting.{MayOperate, Rests};
ghost use Rattle.heap_table.specs.declared.quick.QuickExit.TheVariants as exits;

use crate::call_context::CallContext;
use crate::heap::Heap;
use crate::holding::enter_marked;
use crate::leaving::leave_marked;
use crate::pass::Pass;
use crate::plans::quiet;
use crate::quick_exits::raise_at;
use crate::steps::step_at;
use core_world::{Act, HeapCall, Operation, Stage, Unfinished, WordId};
use plain_monitor::Path;

/// How far a quick enter came.
#[derive(Clone, Copy)]
pub enum QuickEnter {
    /// No step was made.
    Not,
    /// It is done: the thread has one more hold, by this path.
    Done { path: Path },
    /// The exchange of this mark found this other one, for which the enter is pending.
    Raced { expected: u64, found: u64 },
    /// It has loaded this mark, which has no bias pattern, and names a lock record of another thread, or is being inflated.
    Unbiased { mark: u64 },
    /// It has loaded the mark, which has the bias pattern, and the prototype of the class.
    Biased { mark: u64, prototype: u64 },
    /// The exchange of the owner word of this monitor found this other one.
    Taken { monitor: u32, found: u64 },
}

/// How far a quick exit came.
#[derive(Clone, Copy)]
pub enum QuickExit {
    /// No step was made.
    Not,
    /// It is done: the thread has one hold less.
    Left,
    /// The mark is being inflated, for which the exit is pending.
    Inflating,
    /// The exchange of this mark found this other one, for which the exit is pending.
    Raced {
        expected: u64,
        found: u64,
    },
    /// This monitor has this owner word, which isn't the thread's own. The newest hold is at this place.
    Owned {
        monitor: u32,
        owner: u64,
        place: u32,
    },
}

/// The call of an enter.
#[inline(always)]
fn entering(object: u32, now: u64) -> CallContext
    ensures { result ≡ entering object now }
{
    CallContext {
        task: HeapCall::Enter { object, now },
        unfinished: Some(Unfinished {
            op: Operation::Enter,
            object,
        }),
        check: false,
    }
}

/// The call of an exit.
#[inline(always)]
fn leaving(object: u32) -> CallContext
    ensures { result ≡ leaving object }
{
    CallContext {
        task: HeapCall::Exit { object },
        unfinished: Some(Unfinished {
            op: Operation::Exit,
            object,
        }),
        check: false,
    }
}

impl Heap {
    #[inline(always)]
    fn enter_quickly(&self, pass: &mut Pass, object: u32, now: u64, search: bool) -> QuickEnter
        requires may { MayOperate self.now pass.old (Enter object now) }
        requires free { IsFree pass.old.known }
        ensures entered { HasEntered self.now pass.old pass.new object now result }
        ensures free { EntersFree pass.new.known result }
    {
        if !pass.mirror.holds.is_packed() {
            return QuickEnter::Not;
        }
        if object >= self.setting.shape.declared() {
            return QuickEnter::Not;
        }
        let Some(word) = pass.mirror.holds.next_word(object, search) else {
            return QuickEnter::Not;
        };
        let call = entering(object, now);
        let words = &self.words;
        let setting = &self.setting;
        // The object's words have one place here for all their steps: after an act the shape would be read again.
        let at = setting.shape.mark_at(object);
        let first = quiet(&call, Stage::Settled, WordId::Mark { object }, Act::Load);
        let mark = step_at(words, setting, &mut pass.seat, at, &first);
        enter_marked(
            words,
            setting,
            &mut pass.seat,
            &mut pass.mirror,
            &call,
            object,
            now,
            mark,
            word,
            at,
        )
    }

    /// Enters a declared object where the thread is in the middle of nothing, and its hold words have no gap: by a bias that it has, by a lock
    /// record, or by a monitor that is free or its own.
    #[inline(always)]
    pub fn quick_enter(&self, pass: &mut Pass, object: u32, now: u64) -> QuickEnter
        requires may { MayOperate self.now pass.old (Enter object now) }
        requires free { IsFree pass.old.known }
        ensures entered { HasEntered self.now pass.old pass.new object now result }
        ensures free { EntersFree pass.new.known result }
    {
        self.enter_quickly(pass, object, now, true)
    }

    /// The same where the thread holds nothing, or its newest hold is of the object, so that nothing has to be looked for.
    #[inline(always)]
    pub fn enter_at_once(&self, pass: &mut Pass, object: u32, now: u64) -> QuickEnter
        requires may { MayOperate self.now pass.old (Enter object now) }
        requires free { IsFree pass.old.known }
        ensures entered { HasEntered self.now pass.old pass.new object now result }
        ensures free { EntersFree pass.new.known result }
    {
        self.enter_quickly(pass, object, now, false)
    }

    #[inline(always)]
    fn exit_quickly(&self, pass: &mut Pass, object: u32, search: bool) -> QuickExit
        requires rests { Rests self.now pass.old }
        requires may { 1 ≤ hold_count object pass.old.known.holds → MayOperate self.now pass.old (Exit object) }
        requires free { IsFree pass.old.known }
        ensures held { result ≢ exits.Not → 1 ≤ hold_count object pass.old.known.holds }
        ensures left { HasLeft self.now pass.old pass.new object result }
        ensures free { LeavesFree pass.new.known result }
    {
        if object >= self.setting.shape.declared() {
            return QuickExit::Not;
        }
        let Some((depth, place)) = pass.mirror.holds.newest(object, search) else {
            return QuickExit::Not;
        };
        let call = leaving(object);
        let next = pass.mirror.last + 1;
        let words = &self.words;
        let setting = &self.setting;
        // As in an enter.
        let at = setting.shape.mark_at(object);
        raise_at(
            words,
            setting,
            &mut pass.seat,
            &call,
            object,
            depth,
            at + 1,
            next,
        );
        let first = quiet(&call, Stage::Settled, WordId::Mark { object }, Act::Load);
        let mark = step_at(words, setting, &mut pass.seat, at, &first);
        leave_marked(
            words,
            setting,
            &mut pass.seat,
            &mut pass.mirror,
            &call,
            object,
            depth,
            mark,
            at,
            place,
            !search,
        )
    }

    /// Leaves the newest hold of a declared object, where the thread is in the middle of nothing.
    #[inline(always)]
    pub fn quick_exit(&self, pass: &mut Pass, object: u32) -> QuickExit
        requires may { MayOperate self.now pass.old (Exit object) }
        requires free { IsFree pass.old.known }
        ensures left { HasLeft self.now pass.old pass.new object result }
        ensures free { LeavesFree pass.new.known result }
    {
        self.exit_quickly(pass, object, true)
    }

    /// The same where that is the newest of all holds, so that nothing has to be looked for. Where the thread doesn't hold the object, nothing is asked of the
    /// exit.
    #[inline(always)]
    pub fn exit_at_once(&self, pass: &mut Pass, object: u32) -> QuickExit
        requires rests { Rests self.now pass.old }
        requires may { 1 ≤ hold_count object pass.old.known.holds → MayOperate self.now pass.old (Exit object) }
        requires free { IsFree pass.old.known }
        ensures held { result ≢ exits.Not → 1 ≤ hold_count object pass.old.known.holds }
        ensures left { HasLeft self.now pass.old pass.new object result }
        ensures free { LeavesFree pass.new.known result }
    {
        self.exit_quickly(pass, object, false)
    }
}
