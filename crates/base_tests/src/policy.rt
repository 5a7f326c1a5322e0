//! Worked examples of the policy and of the draws.

use crate::compare::same;
use lock_policy::{Draw, Verdict, decide};

#[test]
fn bulk_operations_come_at_20_and_40(rt: HostRuntime) {
    same(&rt, decide(19, 0, 5), (Verdict::BulkRebias, 20));
    same(&rt, decide(39, 9, 10), (Verdict::BulkRevoke, 40));
    same(&rt, decide(40, 9, 10), (Verdict::Single, 41));
    same(&rt, decide(41, 9, 10), (Verdict::Single, 41));
}

#[test]
fn counts_decay_after_25_seconds(rt: HostRuntime) {
    same(&rt, decide(25, 1000, 26000), (Verdict::Single, 1));
    same(&rt, decide(25, 1000, 25999), (Verdict::Single, 26));
    same(&rt, decide(25, 0, 99999), (Verdict::Single, 26));
    same(&rt, decide(25, 1000, 10), (Verdict::Single, 26));
}

#[test]
fn first_draws_go_by_the_start(rt: HostRuntime) {
    same(&rt, Draw::new(1).next(), 273_329_069);
    same(&rt, Draw::new(2).next(), 273_331_126);
}
