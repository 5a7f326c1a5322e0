//! What a thread's pass tells, and the pages of its log, for C.
ghost use Rattle.std.specs.Prelude.{◌≡◌, unwrap_or};
ghost use Rattle.lock_runtime_c.specs.ByHandle.{AnswersOf, ByHandleOf, Reads, ReadsInto};
ghost use Rattle.lock_runtime_c.specs.Pages.{length_answer, page_answer, page_row, TakesPage, unfinished_answer};
ghost use Rattle.lock_runtime_c.specs.Rest.{RestsWithin};
ghost use Rattle.lock_runtime_c.specs.declared.outcome.Misuse.TheVariants.{Empty};
ghost use Rattle.lock_runtime_c.specs.declared.outcome.Outcome.TheVariants.{Misused};

use crate::answers::{Answer, answered, done_with};
use crate::handle::Slot;
use crate::inner::Inner;
use crate::logs::{read_entry, take_page};
use crate::numbers::{Row, op_number};
use crate::outcome::{Misuse, Outcome, Said};
use std::alloc::Global;

fn length_in(held: &Inner) -> Answer
    ensures { result ≡ length_answer held.now }
{
    match held {
        Inner::Seat(seat) => done_with(seat.lent.thing.length()),
        _ => answered(Outcome::Misused(Misuse::OtherKind)),
    }
}

/// How many entries the thread has logged, with those that it has handed out.
#[unsafe(no_mangle)]
pub extern "C" fn biasrun_log_length(alloc: Global, at: &mut Slot) -> Answer
    ensures { Reads length_answer at.old at.new result }
{
    let Some(held) = at.take(alloc) else {
        return answered(Outcome::Misused(Misuse::Empty));
    };
    let answer = length_in(&*held);
    at.put(alloc, held);
    answer
}

fn page_within(alloc: Global, held: &mut Inner) -> Outcome
    requires { RestsWithin held.old }
    ensures rests { RestsWithin held.new }
    ensures page { TakesPage held.old held.new result }
{
    match held {
        Inner::Seat(seat) => match take_page(alloc, seat) {
            Ok(count) => Outcome::Done(Said::Handed(count)),
            Err(_) => Outcome::NoMemory,
        },
        _ => Outcome::Misused(Misuse::OtherKind),
    }
}

fn page_by(alloc: Global, at: &mut Slot) -> Outcome
    ensures { ByHandleOf TakesPage (Misused Empty) at.old at.new result }
{
    let Some(mut held) = at.take(alloc) else {
        return Outcome::Misused(Misuse::Empty);
    };
    let outcome = page_within(alloc, &mut *held);
    at.put(alloc, held);
    outcome
}

/// Hands out the entries that the thread logged since its last page.
#[unsafe(no_mangle)]
pub extern "C" fn biasrun_take_page(alloc: Global, at: &mut Slot) -> Answer
    ensures { AnswersOf TakesPage at.old at.new result }
{
    answered(page_by(alloc, at))
}

fn page_entry_in(held: &Inner, number: u64, out: &mut Row) -> Answer
    ensures answer { result ≡ page_answer held.now number }
    ensures found { out.new ≡ unwrap_or (page_row held.now number) out.old }
{
    match held {
        Inner::Seat(seat) => read_entry(seat.page.as_slice(), number, out),
        _ => answered(Outcome::Misused(Misuse::OtherKind)),
    }
}

/// The entry with this number, from 0, of the page that was handed out last. `out` is as it was where there is none.
#[unsafe(no_mangle)]
pub extern "C" fn biasrun_page_entry(
    alloc: Global,
    at: &mut Slot,
    number: u64,
    out: &mut Row,
) -> Answer
    ensures { ReadsInto (λ x. page_answer x number) (λ x. page_row x number) at.old at.new out.old out.new result }
{
    let Some(held) = at.take(alloc) else {
        return answered(Outcome::Misused(Misuse::Empty));
    };
    let answer = page_entry_in(&*held, number, out);
    at.put(alloc, held);
    answer
}

fn unfinished_in(held: &Inner) -> Answer
    ensures { result ≡ unfinished_answer held.now }
{
    let Inner::Seat(seat) = held else {
        return answered(Outcome::Misused(Misuse::OtherKind));
    };
    match seat.lent.thing.unfinished() {
        Some(left) => Answer {
            kind: 0,
            detail: op_number(left.op),
            word: left.object as u64,
        },
        None => answered(Outcome::Done(Said::Nothing)),
    }
}

/// Which operation of the thread is unfinished, and its object.
#[unsafe(no_mangle)]
pub extern "C" fn biasrun_unfinished(alloc: Global, at: &mut Slot) -> Answer
    ensures { Reads unfinished_answer at.old at.new result }
{
    let Some(held) = at.take(alloc) else {
        return answered(Outcome::Misused(Misuse::Empty));
    };
    let answer = unfinished_in(&*held);
    at.put(alloc, held);
    answer
}
