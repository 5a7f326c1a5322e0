//! Whether the hashes of objects are those of the threads' generators.

ghost use Rattle.std.specs.Prelude.{◌≡◌, ◌<◌, ◌≤◌, IfOk, OnOk, length, position, replicate};
ghost use Rattle.plain_monitor.specs.Limits.{most_in_all};
ghost use Rattle.object_program.specs.Program.{objects_total};
ghost use Rattle.bias_check.specs.inner.Marks.{new_drawer, drawer_next, gives, drawers_to, new_hashes, noted, marked_at, marked, first_mark, is_bad};

use lock_policy::Draw;
use object_program::Program;
use plain_monitor::{Entry, NoMemory};
use std::alloc::Global;
use std::marker::Model;

/// What the hash entries of an object are so far.
#[derive(Clone, Copy, Debug, PartialEq, Eq)]
pub(crate) enum Mark {
    /// There are none.
    Unseen,
    /// All have this value, and none was drawn.
    Undrawn { value: u32 },
    /// All have this value, and one was drawn, as its thread's generator gives it.
    Drawn { value: u32 },
    /// They break the rule.
    Bad,
}

/// A thread's generator, and how many hashes were drawn from it.
#[derive(Drop)]
pub(crate) struct Drawer {
    pub(crate) draw: Draw,
    pub(crate) count: u32,
}

/// The generators of the threads, and what each object's hash entries are so far.
#[derive(Drop)]
pub(crate) struct Hashes {
    marks: Vec<Mark>,
    drawers: Vec<Drawer>,
}

impl Model for Hashes {
    ghost use Rattle.bias_check.specs.inner.HashState.{HashState};

    ghost Value = { HashState };

    ghost use Rattle.bias_check.specs.inner.HashesView.{hash_state, IsSmall};

    ghost view = { hash_state };

    ghost invariant = { IsSmall };
}

impl Drawer {
    /// The generator of thread `t`, before its first draw. Each thread begins at a word of its own.
    fn new(start: u32, t: u32) -> Drawer
        ensures { result ≡ new_drawer start t }
    {
        Drawer {
            draw: Draw::new(start.wrapping_add(t)),
            count: 0,
        }
    }

    /// Draws, and tells whether this value with this number is what was drawn. A log with more draws than a word counts has no
    /// room in memory.
    fn draws(&mut self, value: u32, number: u32) -> Result<bool, NoMemory>
        ensures right { IfOk result (λ right. right ≡ gives self.old value number) }
        ensures next { OnOk result (self.new ≡ drawer_next self.old) }
    {
        let Some(count) = self.count.checked_add(1) else {
            return Err(NoMemory);
        };
        self.count = count;
        let drawn = self.draw.next();
        Ok(number == count && value == drawn)
    }
}

impl Hashes {
    /// Before the first entry of a program, where the first thread's generator begins at `start`.
    pub(crate) fn new(alloc: Global, program: &Program, start: u32) -> Result<Hashes, NoMemory>
        ensures { IfOk result (λ h. h ≡ new_hashes program.now start) }
    {
        let marks = new_marks(alloc, object_count(program))?;
        let drawers = new_drawers(alloc, program, start)?;
        Ok(Hashes { marks, drawers })
    }

    /// Notes an entry that thread `t` made.
    pub(crate) fn note(&mut self, t: u32, entry: &Entry) -> Result<(), NoMemory>
        requires { t < length self.old.drawers }
        ensures noted { OnOk result (self.new ≡ noted self.old t entry.now) }
        ensures drawers { length self.new.drawers ≡ length self.old.drawers }
    {
        match *entry {
            Entry::Hash {
                object,
                value,
                drawn: None,
            } => {
                self.mark(object, value, None);
                Ok(())
            }
            Entry::Hash {
                object,
                value,
                drawn: Some(number),
            } => {
                let right = self.drawers[t as usize].draws(value, number)?;
                self.mark(object, value, Some(right));
                Ok(())
            }
            _ => Ok(()),
        }
    }

    /// Marks a hash entry of the object, and where it was drawn whether it is right.
    fn mark(&mut self, object: u32, value: u32, drawn: Option<bool>)
        ensures { self.new ≡ marked_at self.old object value drawn }
    {
        let at = object as usize;
        if at < self.marks.len() {
            self.marks[at] = marked(self.marks[at], value, drawn);
        }
    }

    /// The least object whose hash entries break the rule.
    pub(crate) fn first_bad(&self) -> Option<u32>
        ensures { result ≡ position is_bad self.now.marks }
    {
        let place = bad_place(&self.marks)?;
        Some(place as u32)
    }
}

/// Where the first mark stands that breaks the rule.
fn bad_place(marks: &[Mark]) -> Option<usize>
    ensures { result ≡ position is_bad marks.now }
{
    marks.iter().position(|mark| is_bad(*mark))
}

/// How many numbers the program's objects have, of those that it declares and those that its threads may make.
fn object_count(program: &Program) -> u32
    ensures total { result ≡ objects_total program.now }
    ensures few { result ≤ most_in_all }
{
    let _objects = program.objects.items();
    program.objects_total()
}

/// No object has a hash entry.
fn new_marks(alloc: Global, objects: u32) -> Result<Vec<Mark>, NoMemory>
    ensures { IfOk result (λ v. v.items ≡ replicate objects Mark.Unseen) }
{
    let mut marks = Vec::new(alloc);
    for _ in 0..objects {
        marks.push(Mark::Unseen).map_err(|_| NoMemory)?;
    }
    Ok(marks)
}

/// The generators of a program's threads.
fn new_drawers(alloc: Global, program: &Program, start: u32) -> Result<Vec<Drawer>, NoMemory>
    ensures { IfOk result (λ v. v.items ≡ drawers_to start (length program.now.threads)) }
{
    let mut drawers = Vec::new(alloc);
    let threads = program.threads.items().len();
    for t in 0..threads {
        let drawer = Drawer::new(start, t as u32);
        drawers.push(drawer).map_err(|_| NoMemory)?;
    }
    Ok(drawers)
}

/// The mark after one more hash entry.
fn marked(mark: Mark, value: u32, drawn: Option<bool>) -> Mark
    ensures { result ≡ marked mark value drawn }
{
    match mark {
        Mark::Unseen => first_mark(value, drawn),
        Mark::Undrawn { value: first } if first == value => first_mark(value, drawn),
        Mark::Drawn { value: first } if first == value && drawn.is_none() => mark,
        _ => Mark::Bad,
    }
}

/// The mark after a hash entry before which none was drawn.
fn first_mark(value: u32, drawn: Option<bool>) -> Mark
    ensures { result ≡ first_mark value drawn }
{
    match drawn {
        None => Mark::Undrawn { value },
        Some(true) => Mark::Drawn { value },
        Some(false) => Mark::Bad,
    }
}

/// Whether an object with this mark breaks the rule after the last line.
fn is_bad(mark: Mark) -> bool
    ensures { result ≡ is_bad mark }
{
    match mark {
        Mark::Unseen | Mark::Drawn { .. } => false,
        Mark::Undrawn { .. } | Mark::Bad => true,
    }
}
