//! What an instruction asks of the thread that is at it.

ghost use Rattle.std.specs.Prelude.{◌≡◌, sum};
ghost use Rattle.plain_machine.specs.Thread.{ThreadState, local, holds_of};

use plain_monitor::Value;

/// A thread as an instruction reads it: where it is, its locals, its holds, its dumps, and how many objects it has made.
///
/// `state` is the thread's state. A type may keep it in a shape of its own, and count a hold only where it is asked.
pub trait Actor {
    ghost state: { Self → ThreadState };

    /// How many instructions stand before the one that it is at.
    fn place(&self) -> u32
        ensures { result ≡ (state self.now).place };

    /// What the local with this number, from 0, is; nil where there is no such local.
    fn local(&self, x: u32) -> Value
        ensures { result ≡ local (state self.now) x };

    /// How often it holds the object: its enters less its exits; 0 where there is no such object.
    fn holds(&self, object: u32) -> u32
        ensures { result ≡ holds_of (state self.now) object };

    /// How many holds it has in all, over all objects.
    fn depth(&self) -> u32
        ensures { result ≡ sum (state self.now).holds };

    /// How many dumps it has made.
    fn dumps(&self) -> u32
        ensures { result ≡ (state self.now).dumps };

    /// How many objects it has made.
    fn made(&self) -> u32
        ensures { result ≡ (state self.now).made };
}
