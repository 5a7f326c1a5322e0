//! What a pass keeps of its steps: at run time what its thread knows.
ghost use Rattle.std.specs.Prelude.{◌≡◌, ◌+◌, ◌*◌, ◌^◌, ◌<◌, ◌≤◌, ℕ, IfOk, [], length, true, vec_capacity, vec_len};
ghost use Rattle.plain_monitor.specs.Limits.{most_threads};
ghost use Rattle.heap_table.specs.Cells.{cells_shown};
ghost use Rattle.core_world.specs.There.{HasPlace};
ghost use Rattle.heap_table.specs.Drafts.{IsDrafted, IsLeft};
ghost use Rattle.heap_table.specs.inner.Drafts.{taken_after};
ghost use Rattle.heap_table.specs.LogEnds.{end_by};
ghost use Rattle.heap_table.specs.Tallies.{counts_shown};

use crate::afters::{
    Stand, halted_next, keep_next, looked_at, note_entry, published_next, saved_next, stand_next,
    store_hold, unfinished_next, wait_next,
};
use crate::call_context::CallContext;
use crate::counts::{ClassCounts, NO_COUNTS, count_next};
use crate::draws::{Drawing, draw_next};
use crate::holds::Holds;
use crate::made::made_next;
use crate::shots::Shots;
use core_world::{LocalEffect, LogEffect, StepPlan, Unfinished, apply};
use plain_monitor::{Entry, Logged};
use std::alloc::{AllocError, Global};
use std::mem;

/// How many entries a log may have: so many stamps there are for each thread.
const MOST_LOGGED: u64 = 2_199_023_255_552;

#[derive(Drop)]
pub struct Mirror {
    pub thread: u32,
    /// Where the thread's words begin in the table.
    pub home: u32,
    /// The thread's own bits in a mark that is biased to it.
    pub own_bits: u64,
    /// How many entries a page of the log may have.
    pub room: u32,
    /// Whether entries are kept, for a page.
    pub keeps: bool,
    /// How many entries of the log were handed out, or passed over where none are kept.
    pub given: u64,
    /// How many entries the log has, with those handed out or passed over.
    pub length: u64,
    /// How many it may have before the next page is handed out: by the page's room, where entries are kept, and by the stamps that there are.
    pub end: u64,
    /// The number of classes.
    pub classes: u32,
    /// The first word of the thread's generator.
    pub first: u32,
    /// The page: the entries that were not handed out.
    pub log: Vec<Logged>,
    pub last: u64,
    pub stand: Stand,
    pub kept: Option<u64>,
    pub saved: u64,
    pub holds: Holds,
    pub wait: u64,
    pub published: u64,
    pub unfinished: Option<Unfinished>,
    pub checking: bool,
    pub counts: Vec<ClassCounts>,
    pub drawing: Drawing,
    /// How many objects the thread has made.
    pub made: u64,
    pub shots: Shots,
    pub ghost has_room: { room ≤ vec_capacity log },
    pub ghost within: { vec_len log ≤ room },
    pub ghost few: { given < 2 ^ 42 },
    pub ghost whole: { length ≡ given + vec_len log },
    pub ghost ends: { end ≡ end_by keeps given room },
    pub ghost low: { thread < most_threads },
    pub ghost owns: { own_bits ≡ (thread + 1) * 1024 },
}

// The shots after a step that hit.
#[inline(always)]
fn shoot(shots: &mut Shots, own: &LocalEffect)
    requires { HasPlace own.now (length shots.old.taken.items) }
    ensures fixed { (shots.new.threads ≡ shots.old.threads) × (shots.new.objects ≡ shots.old.objects) }
    ensures taken { shots.new.taken.items
        ≡ taken_after own.now shots.old.taken.items shots.old.draft.cut.items (cells_shown shots.old.draft.cells.items) }
    ensures draft { IsLeft own.now shots.old.draft.cut.items (cells_shown shots.old.draft.cells.items)
        shots.new.draft.cut.items (cells_shown shots.new.draft.cells.items) }
{
    if let LocalEffect::TakeShot = *own {
        shots.take();
    }
}

/// How many entries a log may have before its next page is handed out, where so many were: no more than the stamps allow.
#[inline(always)]
fn end_after(keeps: bool, given: u64, room: u32) -> u64
    requires { given < 2 ^ 42 }
    ensures { result ≡ end_by keeps given room }
{
    if keeps {
        (given + u64::from(room)).min(MOST_LOGGED)
    } else {
        MOST_LOGGED
    }
}

/// Hands out the page, and goes on with this empty one.
pub fn turn_page(
    keeps: bool,
    room: u32,
    given: &mut u64,
    end: &mut u64,
    log: &mut Vec<Logged>,
    empty: Vec<Logged>,
) -> Vec<Logged>
    requires { given.old + vec_len log.old < 2 ^ 42 }
    ensures page { result ≡ log.old }
    ensures log { log.new ≡ empty }
    ensures given { given.new ≡ given.old + vec_len log.old }
    ensures end { end.new ≡ end_by keeps given.new room }
{
    let page = mem::replace(log, empty);
    *given += page.len() as u64;
    *end = end_after(keeps, *given, room);
    page
}

/// No verdict on any of so many classes.
fn no_counts(alloc: Global, classes: u32) -> Result<Vec<ClassCounts>, AllocError>
    ensures { IfOk result (λ v. v.items ≡ counts_shown 0 classes []) }
{
    let mut counts = Vec::with_capacity(alloc, classes as usize)?;
    for _class in 0..classes {
        counts.push(NO_COUNTS)?;
    }
    Ok(counts)
}

impl Mirror {
    ghost use Rattle.std.specs.Prelude.{replicate, Bool, Option, None};
    ghost use Rattle.core_world.specs.declared.heap_call.Unfinished.{Unfinished};
    ghost use Rattle.plain_monitor.specs.History.{last_stamp};
    ghost use Rattle.core_world.specs.Words.Acts.{word_after, hits};
    ghost use Rattle.core_world.specs.Threads.ThreadView.{ThreadView};
    ghost use Rattle.core_world.specs.Opening.{first_known};
    ghost use Rattle.core_world.specs.Words.Shape.{Shape};
    ghost use Rattle.core_world.specs.Steps.{known_after, with_entry, stamp_by};
    ghost use Rattle.heap_table.specs.Kept.{Mirrors, LogHasRoom, limit_by};
    ghost use Rattle.heap_table.specs.SafepointLoads.{IsSafepointLoad};
    ghost use Rattle.core_world.specs.declared.act.Act.{Act};
    ghost use Rattle.core_world.specs.declared.plan.LogEffect.TheVariants.{Log};
    ghost use Rattle.core_world.specs.declared.stage.Stage.{Stage};
    ghost use Rattle.core_world.specs.declared.word_id.WordId.{WordId};
    ghost use Rattle.core_world.specs.Trees.Plans as plans;
    ghost use Rattle.core_world.specs.Trees.Plans.{logging_plan, with_stage};
    ghost use Rattle.heap_table.specs.inner.Amid.{IsAside, IsSameFrame, lagging};
    ghost use Rattle.heap_table.specs.inner.Kept.{StampFits, with_any_entry, entry_after};
    ghost use Rattle.heap_table.specs.inner.Layout.{IsPlaced};

    /// Makes what the thread knows before its first step. Its words begin at `home`. `room` is how many entries a page of its log may have, and
    /// `first` the first word of its hash generator.
    ///
    /// # Errors
    ///
    /// `AllocError` where an allocation fails.
    pub fn new(
        alloc: Global,
        thread: u32,
        home: u32,
        room: u32,
        keeps: bool,
        classes: u32,
        first: u32,
        shots: Shots,
    ) -> Result<Mirror, AllocError>
        requires thread { thread < most_threads }
        requires shots { shots.taken.items ≡ [] }
        ensures follows { IfOk result (λ m. Mirrors m (first_known thread)) }
        ensures fixed { IfOk result (λ m. (m.room ≡ room) × (m.given ≡ 0) × (m.classes ≡ classes) × (m.first ≡ first)
            × (m.shots ≡ shots) × (m.keeps ≡ keeps)) }
        ensures home { IfOk result (λ m. m.home ≡ home) }
    {
        Ok(Mirror {
            thread,
            home,
            own_bits: (thread as u64 + 1) * 1024,
            room,
            keeps,
            given: 0,
            length: 0,
            end: end_after(keeps, 0, room),
            classes,
            first,
            log: Vec::with_capacity(alloc, room as usize)?,
            last: 0,
            stand: Stand {
                running: false,
                requesting: false,
                reached: false,
                halted: false,
            },
            kept: None,
            saved: 0,
            holds: Holds::new(),
            wait: 0,
            published: 0,
            unfinished: None,
            checking: false,
            counts: no_counts(alloc, classes)?,
            drawing: Drawing::new(first),
            made: 0,
            shots,
        })
    }

    /// Where the thread's hold word of this place lies.
    #[inline(always)]
    pub fn hold_at(&self, place: u32) -> usize
        ensures { result ≡ self.now.home + place }
    {
        self.home as usize + place as usize
    }

    /// Where the displaced header of the thread's lock record of this place lies.
    #[inline(always)]
    pub fn displaced_at(&self, place: u32) -> usize
        ensures { result ≡ self.now.home + 64 + place }
    {
        self.home as usize + 64 + place as usize
    }

    /// `follow` for a load of the safepoint word that leaves unfinished what is unfinished. Where nobody asks by that word, and the
    /// thread doesn't either, nothing is written: all is known already.
    #[inline(always)]
    pub fn follow_in_passing(&mut self, step: &StepPlan, found: u64)
        requires look { IsSafepointLoad step.now }
        requires same { (step.now.after ≡ self.old.unfinished) × (step.now.check ≡ self.old.checking) }
        ensures follows { (s : Shape) (start : ℕ) (k : ThreadView) → Mirrors self.old k → Mirrors self.new (known_after s start step.now found k) }
        ensures fixed { (self.new.room ≡ self.old.room)
            × (limit_by self.new.keeps self.new.given self.new.room ≡ limit_by self.old.keeps self.old.given self.old.room)
            × (self.new.classes ≡ self.old.classes) × (self.new.first ≡ self.old.first) × (self.new.shots.threads ≡ self.old.shots.threads)
            × (self.new.shots.objects ≡ self.old.shots.objects) }
        ensures home { self.new.home ≡ self.old.home }
        ensures draft { IsLeft step.now.own self.old.shots.draft.cut.items
            (cells_shown self.old.shots.draft.cells.items)
            self.new.shots.draft.cut.items (cells_shown self.new.shots.draft.cells.items) }
    {
        looked_at(found, &mut self.stand);
    }

    /// Makes of the knowledge what the step makes of it that found this word.
    #[inline(always)]
    pub fn follow(&mut self, step: &StepPlan, found: u64)
        requires at { IsPlaced step.now.at }
        requires room { self.old.keeps ≡ true → LogHasRoom step.now.note self.old.log.items self.old.room }
        requires few { self.old.given + 1 < 2 ^ 42 }
        requires shots { HasPlace step.now.own (length self.old.shots.taken.items) }
        requires draws { self.old.drawing.installed ≤ self.old.given + length self.old.log.items }
        requires made { self.old.made ≤ self.old.given + length self.old.log.items }
        requires stamp { hits step.now.act found ≡ true → StampFits step.now.note found self.old.last }
        ensures follows { (s : Shape) (start : ℕ) (k : ThreadView) → Mirrors self.old k
            → IsDrafted step.now.own s k self.old.shots.draft.cut.items (cells_shown self.old.shots.draft.cells.items)
            → Mirrors self.new (known_after s start step.now found k) }
        ensures late { hits step.now.act found ≡ true → (s : Shape) (start : ℕ) (k : ThreadView) (left : Option Unfinished) (check : Bool)
            → Mirrors (record self.old { unfinished = left; checking = check }) k
            → IsDrafted step.now.own s k self.old.shots.draft.cut.items (cells_shown self.old.shots.draft.cells.items)
            → Mirrors self.new (known_after s start step.now found k) }
        ensures fixed { (self.new.room ≡ self.old.room)
            × (limit_by self.new.keeps self.new.given self.new.room ≡ limit_by self.old.keeps self.old.given self.old.room)
            × (self.new.classes ≡ self.old.classes) × (self.new.first ≡ self.old.first) × (self.new.shots.threads ≡ self.old.shots.threads)
            × (self.new.shots.objects ≡ self.old.shots.objects) }
        ensures home { self.new.home ≡ self.old.home }
        ensures draft { IsLeft step.now.own self.old.shots.draft.cut.items
            (cells_shown self.old.shots.draft.cells.items)
            self.new.shots.draft.cut.items (cells_shown self.new.shots.draft.cells.items) }
    {
        let effect = apply(found, &step.act);
        if effect.hit {
            note_entry(
                self.keeps,
                &mut self.given,
                &mut self.length,
                &mut self.log,
                &mut self.last,
                &step.note,
                found,
            );
            stand_next(
                step.at,
                &step.act,
                effect.word,
                self.thread,
                &mut self.stand,
            );
            keep_next(&mut self.kept, &step.own, found);
            self.saved = saved_next(&step.own, found, self.saved);
            store_hold(&mut self.holds, step.at, &step.act);
            self.wait = wait_next(step.at, &step.act, self.thread, self.wait);
            self.published = published_next(step.at, &step.act, self.published);
            self.unfinished = unfinished_next(&step.note, found, step.after);
            self.checking = step.check;
            count_next(&mut self.counts, &step.own);
            draw_next(&mut self.drawing, &step.note);
            self.made = made_next(&step.note, self.made);
            shoot(&mut self.shots, &step.own);
        } else {
            self.stand.halted = halted_next(step.at, found, self.stand.halted);
        }
    }

    /// Keeps the entry that a step logged which found this word, and nothing else of what the step makes of the knowledge.
    #[inline(always)]
    pub fn note(&mut self, entry: Entry, found: u64)
        requires room { self.old.keeps ≡ true → length self.old.log.items < self.old.room }
        requires few { self.old.given + 1 < 2 ^ 42 }
        requires stamp { StampFits (Log entry) found self.old.last }
        ensures shows { (s : Shape) (start : ℕ) (e : plans.CallContext) (stage : Stage) (at : WordId) (act : Act) (k : ThreadView)
            → IsAside entry at act found self.old → Mirrors (lagging e self.old) k
            → Mirrors (lagging (record e { unfinished = None }) self.new)
            (known_after s start (with_stage stage (logging_plan entry e at act)) found k) }
        ensures frame { IsSameFrame self.old self.new }
        ensures same { (self.new.holds ≡ self.old.holds) × (self.new.unfinished ≡ self.old.unfinished) × (self.new.checking ≡ self.old.checking) }
    {
        note_entry(
            self.keeps,
            &mut self.given,
            &mut self.length,
            &mut self.log,
            &mut self.last,
            &LogEffect::Log { entry },
            found,
        );
    }

    /// Says what the call leaves unfinished, which lags up to here.
    #[inline(always)]
    pub fn stays_amid(&mut self, call: &CallContext)
        ensures shows { (k : ThreadView) → Mirrors (lagging call.now self.old) k → Mirrors self.new k }
        ensures frame { IsSameFrame self.old self.new }
    {
        self.unfinished = call.unfinished;
        self.checking = call.check;
    }
}
