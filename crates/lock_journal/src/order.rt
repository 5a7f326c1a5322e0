//! The entries of all threads in one order.

ghost use Rattle.std.specs.Prelude.{◌≡◌, ℕ, ◌+◌, ◌<◌, ◌≤◌, List, [], ◌∷◌, length, take, slice_get, slice_index, slice_set, None, MatchOption, IfSome};
ghost use Rattle.std.specs.List.{AllByRecursion};
ghost use Rattle.plain_monitor.specs.Limits.{most_threads};
ghost use Rattle.plain_monitor.specs.Order.{order};
ghost use Rattle.plain_monitor.specs.History.{RisesAbove, log_of};
ghost use Rattle.plain_monitor.specs.declared.entry.Logged.{Logged};
ghost use Rattle.lock_journal.specs.Merging.{left_of, AreOfSixteen};
ghost use Rattle.lock_journal.specs.inner.Heads.{stamp_in, or_greatest, earlier, IsLeastOf, IsLeastHead, IsFirstLeast, HasStamps, IsAhead, IsLimit, IsFirstOf};

use crate::record::RunRecord;
use plain_monitor::limits::THREADS;
use plain_monitor::{List, Logged};
use std::marker::Model;

/// The most threads that a program has.
pub(crate) const MOST_THREADS: usize = THREADS as usize;

/// All entries of a run's logs by rising stamp, ties by rising thread. It takes no memory of the heap.
#[derive(Drop)]
pub struct Merge {
    /// How many entries of each thread's log were given.
    places: [usize; MOST_THREADS],
}

impl Model for Merge {
    ghost use Rattle.std.specs.Prelude.{ℕ, List};

    ghost Value = { List ℕ };

    ghost view = { λ m. m.places };
}

impl Merge {
    /// Before the first entry of the run.
    pub fn new(run: &RunRecord) -> Merge
        ensures { left_of run.now.logs result ≡ run.now.logs }
    {
        Merge {
            places: [0; MOST_THREADS],
        }
    }

    /// Before the first entry of any run.
    pub(crate) fn before_all() -> Merge
        ensures { (logs : List (List Logged)) → left_of logs result ≡ logs }
    {
        Merge {
            places: [0; MOST_THREADS],
        }
    }

    /// The next entry with its thread, the first in the order of those not yet given. `None` exactly after the last, and then
    /// nothing changes. `run` is the one that `new` was given. The stamps of each of its logs rise, and those after the sixteenth are empty,
    /// as in a run of a program (`legal_logs_can_be_merged`).
    pub fn next(&mut self, run: &RunRecord) -> Option<(u32, Logged)>
        requires rising { AllByRecursion (RisesAbove 0) run.now.logs }
        requires few { AreOfSixteen run.now.logs }
        ensures first { MatchOption result (order (left_of run.now.logs self.old) ≡ [])
            (λ x. order (left_of run.now.logs self.old) ≡ x ∷ order (left_of run.now.logs self.new)) }
        ensures thread { IfSome result (λ x. x.0 < length run.now.logs) }
        ensures end { result ≡ None → self.new ≡ self.old }
    {
        take_least(first_logs(run), &mut self.places)
    }

    /// The merge of this run that has the stamps of the heads at hand.
    pub(crate) fn ahead(&self, run: &RunRecord) -> Ahead
        requires { AreOfSixteen run.now.logs }
        ensures places { result.places ≡ self.now }
        ensures stamps { IsAhead run.now.logs result }
    {
        Ahead {
            places: self.places,
            stamps: head_stamps(first_logs(run), &self.places),
            leader: 0,
            limit: 0,
        }
    }

    /// How many entries of the thread's log were given or passed over.
    pub(crate) fn place(&self, thread: usize) -> usize
        requires { thread < most_threads }
        ensures { result ≡ slice_index self.now thread }
    {
        self.places[thread]
    }

    /// So many entries of the thread's log are passed over.
    pub(crate) fn set_place(&mut self, thread: usize, place: usize)
        requires { thread < most_threads }
        ensures { self.new ≡ slice_set self.old thread place }
    {
        self.places[thread] = place;
    }

    /// Goes on where the other one is.
    pub(crate) fn go_to(&mut self, ahead: &Ahead)
        ensures { self.new ≡ ahead.now.places }
    {
        self.places = ahead.places;
    }
}

/// A merge for a loop over many entries of one run: it holds the stamps of the heads, and goes on in one log while its stamps are below
/// those of the others. Where they aren't any more, it compares 16 numbers.
#[derive(Drop)]
pub(crate) struct Ahead {
    /// How many entries of each thread's log were given.
    places: [usize; MOST_THREADS],
    /// The stamp of the first entry that each thread has left, and the greatest number where it has none.
    stamps: [u64; MOST_THREADS],
    /// The thread whose log the merge goes on in.
    leader: u32,
    /// A stamp that none of the others' is below.
    limit: u64,
}

impl Ahead {
    /// The next entry with its thread, as `Merge::next` gives it. `run` is the one that it was made for.
    pub(crate) fn next(&mut self, run: &RunRecord) -> Option<(u32, Logged)>
        requires rising { AllByRecursion (RisesAbove 0) run.now.logs }
        requires few { AreOfSixteen run.now.logs }
        requires stamps { IsAhead run.now.logs self.old }
        ensures first { MatchOption result (order (left_of run.now.logs self.old.places) ≡ [])
            (λ x. order (left_of run.now.logs self.old.places) ≡ x ∷ order (left_of run.now.logs self.new.places)) }
        ensures end { result ≡ None → self.new ≡ self.old }
        ensures stamps { IsAhead run.now.logs self.new }
    {
        let logs = first_logs(run);
        let first = first_head(logs, &self.places, &self.stamps, self.leader, self.limit)?;
        let least = first.0;
        let head = take_head(logs, &mut self.places, least);
        let index = least.0 as usize;
        self.stamps[index] = cached_stamp(&logs[index], self.places[index]);
        self.leader = least.0;
        self.limit = first.1;
        Some((least.0, head))
    }
}

/// The logs of as many threads as a program has at most. After them a run has none but empty ones.
pub(crate) fn first_logs(run: &RunRecord) -> &[List<Logged>]
    ensures first { result.now ≡ take most_threads run.now.logs }
    ensures few { length result.now ≤ most_threads }
{
    let logs = run.logs.items();
    &logs[..logs.len().min(MOST_THREADS)]
}

/// The stamp of each thread's head, as `Ahead` holds them.
fn head_stamps(logs: &[List<Logged>], places: &[usize; MOST_THREADS]) -> [u64; MOST_THREADS]
    requires { length logs.now ≤ most_threads }
    ensures { HasStamps logs.now places.now result }
{
    let mut stamps = [u64::MAX; MOST_THREADS];
    for (thread, log) in logs.iter().enumerate() {
        stamps[thread] = cached_stamp(log, places[thread]);
    }
    stamps
}

/// The stamp of the entry at this place of the log, and the greatest number where it has none.
fn cached_stamp(log: &List<Logged>, place: usize) -> u64
    ensures { result ≡ or_greatest (stamp_in (slice_get log.now place)) }
{
    match stamp_at(log, place) {
        Some(stamp) => stamp,
        None => u64::MAX,
    }
}

/// The thread and the stamp of the least head, and a limit of the other stamps. Where each stamp at hand is the greatest number, the logs
/// tell.
fn first_head(
    logs: &[List<Logged>],
    places: &[usize; MOST_THREADS],
    stamps: &[u64; MOST_THREADS],
    leader: u32,
    limit: u64,
) -> Option<((u32, u64), u64)>
    requires few { length logs.now ≤ most_threads }
    requires stamps { HasStamps logs.now places.now stamps.now }
    requires leader { IsLimit stamps.now leader limit }
    ensures { IsFirstOf logs.now places.now stamps.now result }
{
    let first = first_stamp(stamps, leader, limit);
    let least = first.0;
    if least.1 < u64::MAX {
        return Some(first);
    }
    match least_head(logs, places) {
        Some(least) => Some((least, 0)),
        None => None,
    }
}

/// The least of the stamps with its thread, and a limit of the others: that of the leader, while it is below the limit.
fn first_stamp(stamps: &[u64; MOST_THREADS], leader: u32, limit: u64) -> ((u32, u64), u64)
    requires { IsLimit stamps.now leader limit }
    ensures first { IsFirstLeast stamps.now most_threads result.0 }
    ensures limit { IsLimit stamps.now result.0.0 result.1 }
{
    let stamp = stamps[leader as usize];
    if stamp < limit {
        ((leader, stamp), limit)
    } else {
        two_least(stamps)
    }
}

/// The least of the stamps, with the first thread that has it, and the least of the others. The thread says nothing where the least is the
/// greatest number.
fn two_least(stamps: &[u64; MOST_THREADS]) -> ((u32, u64), u64)
    ensures first { IsFirstLeast stamps.now most_threads result.0 }
    ensures limit { IsLimit stamps.now result.0.0 result.1 }
{
    let mut first = 0;
    let mut least = u64::MAX;
    let mut second = u64::MAX;
    for (thread, stamp) in stamps.iter().enumerate() {
        if *stamp < least {
            second = least;
            first = thread as u32;
            least = *stamp;
        } else if *stamp < second {
            second = *stamp;
        }
    }
    ((first, least), second)
}

/// Gives the first entry of those that are left, with its thread. `None` exactly where nothing is left.
fn take_least(logs: &[List<Logged>], places: &mut [usize; MOST_THREADS]) -> Option<(u32, Logged)>
    requires rising { AllByRecursion (RisesAbove 0) logs.now }
    requires few { length logs.now ≤ most_threads }
    ensures first { MatchOption result (order (left_of logs.now places.old) ≡ [])
        (λ x. order (left_of logs.now places.old) ≡ x ∷ order (left_of logs.now places.new)) }
    ensures thread { IfSome result (λ x. x.0 < length logs.now) }
    ensures end { result ≡ None → places.new ≡ places.old }
{
    let least = least_head(logs, places)?;
    let head = take_head(logs, places, least);
    Some((least.0, head))
}

/// Gives the least head, of which thread and stamp are known.
fn take_head(logs: &[List<Logged>], places: &mut [usize; MOST_THREADS], least: (u32, u64)) -> Logged
    requires rising { AllByRecursion (RisesAbove 0) logs.now }
    requires few { length logs.now ≤ most_threads }
    requires least { IsLeastHead logs.now places.old (length logs.now) least }
    ensures first { order (left_of logs.now places.old) ≡ (least.0, result) ∷ order (left_of logs.now places.new) }
    ensures places { places.new ≡ slice_set places.old least.0 (slice_index places.old least.0 + 1) }
{
    let index = least.0 as usize;
    let place = places[index];
    let head = logs[index].items()[place];
    places[index] = place + 1;
    head
}

/// Of the first entries that the threads have left, the thread and the stamp of the one that stands before the others.
fn least_head(logs: &[List<Logged>], places: &[usize; MOST_THREADS]) -> Option<(u32, u64)>
    requires { length logs.now ≤ most_threads }
    ensures { IsLeastOf logs.now places.now (length logs.now) result }
{
    let mut least = None;
    for (thread, log) in logs.iter().enumerate() {
        let stamp = stamp_at(log, places[thread]);
        least = earlier(least, thread as u32, stamp);
    }
    least
}

/// The stamp of the entry at this place of the log, from 0.
fn stamp_at(log: &List<Logged>, place: usize) -> Option<u64>
    ensures { result ≡ stamp_in (slice_get log.now place) }
{
    match log.items().get(place) {
        Some(logged) => Some(logged.stamp),
        None => None,
    }
}

/// The least so far, or the head of the next thread where its stamp is smaller.
fn earlier(least: Option<(u32, u64)>, thread: u32, stamp: Option<u64>) -> Option<(u32, u64)>
    ensures { result ≡ earlier least thread stamp }
{
    let Some(stamp) = stamp else {
        return least;
    };
    match least {
        Some(first) if first.1 <= stamp => Some(first),
        _ => Some((thread, stamp)),
    }
}
