//! What threads have made, by its parts, so that it can be kept in another form and made again.

ghost use Rattle.std.specs.Prelude.{◌≡◌, ◌<◌, ◌++◌, ◌∷◌, [], nat_lt, length, slice_set, slice_get, Some};
ghost use Rattle.plain_monitor.specs.Limits.{most_made};
ghost use Rattle.plain_monitor.specs.Made.{made_by};

use crate::register::{Register, Row};
use plain_monitor::limits::MADE;

impl Row {
    /// The classes of what the thread has made.
    fn classes(&self) -> &[u32]
        ensures { result.now ≡ self.now }
    {
        self.classes.as_slice()
    }

    /// The thread has made nothing.
    fn clear(&mut self)
        ensures { self.new ≡ [] }
    {
        self.classes.clear();
    }
}

impl Register {
    /// How many threads there are.
    pub fn threads(&self) -> u32
        ensures { result ≡ length self.now.made }
    {
        self.rows.len() as u32
    }

    /// The classes of what thread t has made, in their order.
    pub fn row(&self, t: u32) -> &[u32]
        requires { t < length self.now.made }
        ensures { slice_get self.now.made t ≡ Some result.now }
    {
        self.rows[t as usize].classes()
    }

    /// Whether thread t has made fewer objects than it may.
    pub fn may_add(&self, t: u32) -> bool
        ensures { result ≡ nat_lt (length (made_by self.now.made t)) most_made }
    {
        self.made_by(t) < MADE
    }

    /// Thread t has made nothing.
    pub fn clear(&mut self, t: u32)
        requires { t < length self.old.made }
        ensures made { self.new.made ≡ slice_set self.old.made t [] }
        ensures numbering { self.new.numbering ≡ self.old.numbering }
    {
        self.rows[t as usize].clear();
    }

    /// Thread t, which has made fewer objects than it may, has made one more, of this class.
    pub fn add(&mut self, t: u32, class: u32)
        requires t { t < length self.old.made }
        requires few { length (made_by self.old.made t) < most_made }
        ensures made { self.new.made ≡ slice_set self.old.made t (made_by self.old.made t ++ class ∷ []) }
        ensures numbering { self.new.numbering ≡ self.old.numbering }
    {
        self.rows[t as usize].add(class);
    }
}
