//! The words of a pool.
ghost use Rattle.std.specs.Prelude.{◌≡◌, ◌*◌};
ghost use Rattle.turn_pool.specs.inner.Words.{number};

// They lie 16 from one another: different workers write them, so each has a cache line of its own.
pub const READY: usize = 0;

pub const ENDED: usize = 16;

pub const STOPPED: usize = 32;

pub const STALLED: usize = 48;

/// How a thing lies at home: which word has its bit.
#[derive(Clone, Copy, Debug, PartialEq, Eq)]
pub enum Word {
    /// It may be taken for a turn.
    Ready,
    /// It has ended: nobody takes it any more.
    Ended,
    /// It has stopped all: nobody takes it any more.
    Stopped,
}

impl Word {
    // Where the word lies in the table.
    #[inline(always)]
    pub(crate) fn place(self) -> usize
        ensures { result ≡ 16 * number self }
    {
        match self {
            Word::Ready => READY,
            Word::Ended => ENDED,
            Word::Stopped => STOPPED,
        }
    }
}
