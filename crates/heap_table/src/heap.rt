//! The heap, and its one step.
ghost use Rattle.std.specs.Prelude.{◌≡◌, ◌≤◌, [], vec_capacity};
ghost use Rattle.heap_table.specs.Layout.{word_count};
ghost use Rattle.heap_table.specs.SafepointLoads.{IsSafepointLoad};
ghost use Rattle.heap_table.specs.Ruled.{heap_in};
ghost use Rattle.heap_table.specs.Seen.{HeapSeen};
ghost use Rattle.heap_table.specs.Stepping.{CanStep, HasStepped};

use crate::counts::ClassCounts;
use crate::pass::Pass;
use crate::rule::Words;
use crate::setting::Setting;
use crate::shape::HeapShape;
use crate::shots::Shot;
use crate::steps::step_in_table;
use core_world::StepPlan;
use plain_monitor::{List, Logged};
use std::marker::Model;

/// The words of a heap, which its threads share. They are at each moment those of a sound world.
#[derive(Drop)]
pub struct Heap {
    pub(crate) words: Words,
    pub(crate) setting: Setting,
    pub(crate) room: u32,
    pub(crate) spare: Spare,
}

/// Room for what `close` gives: for so many words, and for what so many passes leave.
#[derive(Drop)]
pub(crate) struct Spare {
    pub words: usize,
    pub threads: usize,
    pub copy: Vec<u64>,
    pub logs: Vec<List<Logged>>,
    pub shots: Vec<List<Shot>>,
    pub counts: Vec<List<ClassCounts>>,
    pub ghost empty: { (copy.items ≡ []) × (logs.items ≡ []) × (shots.items ≡ []) × (counts.items ≡ []) },
    pub ghost room: { (words ≤ vec_capacity copy) × (threads ≤ vec_capacity logs) × (threads ≤ vec_capacity shots) × (threads ≤ vec_capacity counts) },
}

impl Model for Heap {
    ghost Value = { HeapSeen };

    ghost view = { λ h. record { table = h.words.shared.table_id; heap = heap_in h.setting; room = h.room } };

    ghost invariant = { λ h. (h.words.shared.key ≡ h.setting)
        × (h.words.shared.table_id.words ≡ word_count h.setting.shape) × (h.words.shared.table_id.slots ≡ 0)
        × (h.spare.words ≡ word_count h.setting.shape) × (h.spare.threads ≡ h.setting.shape.threads) };
}

impl Heap {
    /// The shape: how many threads, classes and objects there are.
    #[inline(always)]
    pub fn shape(&self) -> &HeapShape
        ensures { result.now ≡ self.now.heap.shape }
    {
        &self.setting.shape
    }

    /// The first word of thread 0's hash generator.
    pub fn start(&self) -> u32
        ensures { result ≡ self.now.heap.start }
    {
        self.setting.start
    }

    /// How many entries a page of a log may have.
    #[inline(always)]
    pub fn room(&self) -> u32
        ensures { result ≡ self.now.room }
    {
        self.room
    }

    /// Whether the heap has biases.
    pub fn has_biases(&self) -> bool
        ensures { result ≡ self.now.heap.biasing }
    {
        self.setting.biasing
    }

    /// Makes one atomic act on the word of the plan, which is the next step of the pass's thread. It answers the word
    /// that it found. The log of the pass has room where the step logs. A step that takes a shot has a place for it,
    /// and the pass's draft is that shot.
    ///
    /// At the moment of the act the heap was in a sound state with the answer in this word, and the thread knew what
    /// it did. After it, the heap is in a sound state again. The pass knows what the step makes of its knowledge, and
    /// what is left of the call comes to an end or to a next step.
    #[inline(always)]
    pub fn step(&self, pass: &mut Pass, plan: StepPlan) -> u64
        requires { CanStep self.now pass.old plan }
        ensures { HasStepped self.now pass.old pass.new plan result }
    {
        let found = step_in_table(&self.words, &self.setting, &mut pass.seat, plan);
        pass.mirror.follow(&plan, found);
        found
    }

    /// `step` for a load of the safepoint word that leaves unfinished what is unfinished. Where nobody asks by that word, and the
    /// thread doesn't either, the pass is not written.
    #[inline(always)]
    pub fn step_in_passing(&self, pass: &mut Pass, plan: StepPlan) -> u64
        requires can { CanStep self.now pass.old plan }
        requires look { IsSafepointLoad plan }
        requires same { (plan.after ≡ pass.old.known.unfinished) × (plan.check ≡ pass.old.known.checking) }
        ensures { HasStepped self.now pass.old pass.new plan result }
    {
        let found = step_in_table(&self.words, &self.setting, &mut pass.seat, plan);
        pass.mirror.follow_in_passing(&plan, found);
        found
    }
}
