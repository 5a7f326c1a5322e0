//! The pages of a thread's log, and what is left of a heap's logs, as C reads them.
ghost use Rattle.std.specs.Prelude.{◌≡◌, [], IfErr, IfOk, unwrap_or};
ghost use Rattle.lock_runtime_c.specs.Left.{entry_answer, entry_row};
ghost use Rattle.lock_runtime_c.specs.Pages.{HandsOut};
ghost use Rattle.lock_runtime_c.specs.Rest.{IsAtRest};

use crate::answers::{Answer, answered};
use crate::inner::Seat;
use crate::nth::nth;
use crate::numbers::{Row, row_of};
use crate::outcome::{Misuse, Outcome, Said};
use plain_monitor::{Logged, NoMemory};
use std::alloc::Global;
use std::mem;

/// Hands out the entries that the thread logged since its last page, which lie in the seat until the next page is handed out; and how
/// many they are. The first time it takes memory, for one more page. Where there is none, the page before can't be read any more.
pub fn take_page(alloc: Global, seat: &mut Seat) -> Result<u64, NoMemory>
    requires { IsAtRest seat.old }
    ensures rests { IsAtRest seat.new }
    ensures room { seat.new.room ≡ seat.old.room }
    ensures page { IfOk result (λ count. HandsOut seat.old.lent.thing seat.new.lent.thing seat.new.page.items count) }
    ensures same { IfErr result (λ _. (seat.new.lent.thing ≡ seat.old.lent.thing) × (seat.new.page.items ≡ [])) }
{
    let mut empty = mem::replace(&mut seat.page, Vec::new(alloc));
    empty.clear();
    if empty.reserve(seat.room.heap.room() as usize).is_err() {
        return Err(NoMemory);
    }
    seat.page = seat.lent.thing.take_page(&seat.room.heap, empty);
    seat.free = seat.lent.thing.is_free();
    Ok(seat.page.len() as u64)
}

/// The entry with this number, from 0. `out` is as it was where there is none.
pub fn read_entry(entries: &[Logged], number: u64, out: &mut Row) -> Answer
    ensures answer { result ≡ entry_answer entries.now number }
    ensures found { out.new ≡ unwrap_or (entry_row entries.now number) out.old }
{
    match nth(entries, number) {
        Some(logged) => {
            *out = row_of(*logged);
            answered(Outcome::Done(Said::Nothing))
        }
        None => answered(Outcome::Misused(Misuse::NoEntry)),
    }
}
