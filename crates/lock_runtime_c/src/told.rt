//! What the runtime's answers are as outcomes.
ghost use Rattle.std.specs.Prelude.{◌≡◌};
ghost use Rattle.lock_runtime_c.specs.Outcomes.{of_progress, of_result, nothing, read, stored};
ghost use Rattle.lock_runtime_c.specs.declared.outcome.Refusal.TheVariants as refusal;
ghost use Rattle.lock_runtime_c.specs.declared.outcome.Said.TheVariants as said;

use crate::outcome::{Outcome, Refusal, Said};
use core_world::{IllegalMonitorState, Progress, TooDeep, TooManyDumps, Unguarded};
use plain_monitor::{Path, Value};

#[inline(always)]
pub fn turned(progress: Progress<()>) -> Outcome
    ensures { result ≡ of_progress nothing progress }
{
    match progress {
        Progress::Done(()) => Outcome::Done(Said::Nothing),
        Progress::Pending(why) => Outcome::Pending(why),
    }
}

#[inline(always)]
pub fn entered(answer: Result<Progress<Path>, TooDeep>) -> Outcome
    ensures { result ≡ of_result (of_progress said.Entered) refusal.TooDeep answer }
{
    match answer {
        Ok(Progress::Done(path)) => Outcome::Done(Said::Entered(path)),
        Ok(Progress::Pending(why)) => Outcome::Pending(why),
        Err(_) => Outcome::Refused(Refusal::TooDeep),
    }
}

#[inline(always)]
pub fn owned(answer: Result<Progress<()>, IllegalMonitorState>) -> Outcome
    ensures { result ≡ of_result (of_progress nothing) refusal.NotOwner answer }
{
    match answer {
        Ok(progress) => turned(progress),
        Err(_) => Outcome::Refused(Refusal::NotOwner),
    }
}

pub fn woke(answer: Result<Progress<Option<u32>>, IllegalMonitorState>) -> Outcome
    ensures { result ≡ of_result (of_progress said.Woke) refusal.NotOwner answer }
{
    match answer {
        Ok(Progress::Done(thread)) => Outcome::Done(Said::Woke(thread)),
        Ok(Progress::Pending(why)) => Outcome::Pending(why),
        Err(_) => Outcome::Refused(Refusal::NotOwner),
    }
}

pub fn woke_all(answer: Result<Progress<u32>, IllegalMonitorState>) -> Outcome
    ensures { result ≡ of_result (of_progress said.WokeAll) refusal.NotOwner answer }
{
    match answer {
        Ok(Progress::Done(count)) => Outcome::Done(Said::WokeAll(count)),
        Ok(Progress::Pending(why)) => Outcome::Pending(why),
        Err(_) => Outcome::Refused(Refusal::NotOwner),
    }
}

pub fn hashed(progress: Progress<u32>) -> Outcome
    ensures { result ≡ of_progress said.Hash progress }
{
    match progress {
        Progress::Done(value) => Outcome::Done(Said::Hash(value)),
        Progress::Pending(why) => Outcome::Pending(why),
    }
}

#[inline(always)]
pub fn got(answer: Result<Value, Unguarded>) -> Outcome
    ensures { result ≡ of_result read refusal.Unguarded answer }
{
    match answer {
        Ok(value) => Outcome::Done(Said::Read(value)),
        Err(_) => Outcome::Refused(Refusal::Unguarded),
    }
}

#[inline(always)]
pub fn stored(answer: Result<(), Unguarded>) -> Outcome
    ensures { result ≡ of_result stored refusal.Unguarded answer }
{
    match answer {
        Ok(()) => Outcome::Done(Said::Nothing),
        Err(_) => Outcome::Refused(Refusal::Unguarded),
    }
}

pub fn dumped(answer: Result<Progress<u32>, TooManyDumps>) -> Outcome
    ensures { result ≡ of_result (of_progress said.Dump) refusal.TooManyDumps answer }
{
    match answer {
        Ok(Progress::Done(number)) => Outcome::Done(Said::Dump(number)),
        Ok(Progress::Pending(why)) => Outcome::Pending(why),
        Err(_) => Outcome::Refused(Refusal::TooManyDumps),
    }
}

pub fn checked(progress: Progress<bool>) -> Outcome
    ensures { result ≡ of_progress said.Stuck progress }
{
    match progress {
        Progress::Done(stuck) => Outcome::Done(Said::Stuck(stuck)),
        Progress::Pending(why) => Outcome::Pending(why),
    }
}
