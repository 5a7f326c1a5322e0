//! The one step.
ghost use Rattle.std.specs.Prelude.{◌≡◌, [], ◌∷◌};
ghost use Rattle.core_world.specs.Steps.{known_after};
ghost use Rattle.heap_table.specs.Layout.{place_of, word_count};
ghost use Rattle.heap_table.specs.Ruled.{only, heap_in, Stepped};
ghost use Rattle.heap_table.specs.inner.Ruled.{MayStep};
ghost use Rattle.heap_table.specs.inner.Seats.{IsSeatOn, IsTableOf};

use crate::choice::{Chosen, Does};
use crate::rule::{Place, Words};
use crate::setting::Setting;
use core_world::{Act, StepPlan};
use std::marker::Brand;

#[inline(always)]
fn step_as<C: Chosen>(
    words: &Words,
    setting: &Setting,
    seat: &mut Place,
    at: usize,
    plan: &StepPlan,
) -> u64
    requires chosen { (C.heap ≡ heap_in setting.now) × (C.plan ≡ plan.now) }
    requires setting { IsTableOf setting.now words.now.shared.key words.now.shared.table_id }
    requires seat { IsSeatOn words.now.shared.table_id seat.old }
    requires may { MayStep (heap_in setting.now) (only seat.old.me.0) plan.now }
    requires place { at ≡ place_of setting.now.shape plan.now.at }
    ensures seat { (seat.new.table_id ≡ seat.old.table_id)
        × (seat.new.me ≡ (known_after setting.now.shape setting.now.start plan.now result (only seat.old.me.0) ∷ [], [])) }
    ensures stepped { Stepped (heap_in setting.now) (only seat.old.me.0) plan.now result }
{
    match plan.act {
        Act::Load => words.shared.load::<Does<C>>(seat, at),
        Act::Store { word } => words.shared.swap::<Does<C>>(seat, at, word),
        Act::CompareExchange { expected, word } => {
            words
                .shared
                .compare_exchange::<Does<C>>(seat, at, expected, word)
        }
        Act::FetchMax { word } => words.shared.fetch_max::<Does<C>>(seat, at, word),
        Act::FetchAnd { bits } => words.shared.fetch_and::<Does<C>>(seat, at, bits),
        Act::FetchAdd => words.shared.fetch_add::<Does<C>>(seat, at, 1),
    }
}

/// Makes one atomic act on the word of the plan. It answers the word that it found.
#[inline(always)]
pub fn step_in_table(words: &Words, setting: &Setting, seat: &mut Place, plan: StepPlan) -> u64
    requires setting { IsTableOf setting.now words.now.shared.key words.now.shared.table_id }
    requires seat { IsSeatOn words.now.shared.table_id seat.old }
    requires may { MayStep (heap_in setting.now) (only seat.old.me.0) plan }
    ensures seat { (seat.new.table_id ≡ seat.old.table_id)
        × (seat.new.me ≡ (known_after setting.now.shape setting.now.start plan result (only seat.old.me.0) ∷ [], [])) }
    ensures stepped { Stepped (heap_in setting.now) (only seat.old.me.0) plan result }
{
    let at = setting.shape.place(plan.at);
    step_at(words, setting, seat, at, &plan)
}

/// The same, in less code, for an owner word or recursions.
#[inline(always)]
pub fn step_in_monitor(words: &Words, setting: &Setting, seat: &mut Place, plan: &StepPlan) -> u64
    requires setting { IsTableOf setting.now words.now.shared.key words.now.shared.table_id }
    requires seat { IsSeatOn words.now.shared.table_id seat.old }
    requires may { MayStep (heap_in setting.now) (only seat.old.me.0) plan.now }
    ensures seat { (seat.new.table_id ≡ seat.old.table_id)
        × (seat.new.me ≡ (known_after setting.now.shape setting.now.start plan.now result (only seat.old.me.0) ∷ [], [])) }
    ensures stepped { Stepped (heap_in setting.now) (only seat.old.me.0) plan.now result }
{
    let at = setting.shape.place_in_monitor(plan.at);
    step_at(words, setting, seat, at, plan)
}

/// `step_in_table` at the word's place, which was reckoned before.
#[inline(always)]
pub fn step_at(
    words: &Words,
    setting: &Setting,
    seat: &mut Place,
    at: usize,
    plan: &StepPlan,
) -> u64
    requires setting { IsTableOf setting.now words.now.shared.key words.now.shared.table_id }
    requires seat { IsSeatOn words.now.shared.table_id seat.old }
    requires may { MayStep (heap_in setting.now) (only seat.old.me.0) plan.now }
    requires place { at ≡ place_of setting.now.shape plan.now.at }
    ensures seat { (seat.new.table_id ≡ seat.old.table_id)
        × (seat.new.me ≡ (known_after setting.now.shape setting.now.start plan.now result (only seat.old.me.0) ∷ [], [])) }
    ensures stepped { Stepped (heap_in setting.now) (only seat.old.me.0) plan.now result }
{
    step_as::<Brand>(words, setting, seat, at, plan)
}
