//! Which objects are there, and of which class: those that the program declares, and those that its threads have made.

ghost use Rattle.std.specs.Prelude.{◌≡◌, ◌<◌, ◌≤◌, ◌++◌, ◌∷◌, [], true, length, slice_get, replicate, IfOk, OnOk, Some, is_some};
ghost use Rattle.std.specs.List.{list_all};
ghost use Rattle.plain_monitor.specs.Limits.{most_threads, most_made};
ghost use Rattle.plain_monitor.specs.Objects.{named};
ghost use Rattle.plain_monitor.specs.Made.{made_by, made_number, class_if_there, is_there, needs, one_or_none, refers, hands_on, may_create, take_made, nothing_made};
ghost use Rattle.object_program.specs.Program.{classes_from, numbering_of};

mod parts;

use object_program::{ObjectDef, Program};
use plain_monitor::limits::MADE;
use plain_monitor::{Entry, NoMemory, Value};
use std::alloc::Global;
use std::marker::Model;

/// The classes of the objects that one thread has made, in their order, with room for as many as it may make.
#[derive(Drop)]
struct Row {
    classes: Vec<u32>,
}

impl Model for Row {
    ghost use Rattle.std.specs.Prelude.{ℕ, List};

    ghost Value = { List ℕ };

    ghost use Rattle.plain_machine.specs.RowView.{row, RowHasRoom};

    ghost view = { row };

    ghost invariant = { RowHasRoom };
}

impl Row {
    /// The row of a thread that has made nothing.
    fn new(alloc: Global) -> Result<Row, NoMemory>
        ensures { IfOk result (λ r. r ≡ []) }
    {
        let mut classes = Vec::new(alloc);
        classes.reserve(MADE as usize).map_err(|_| NoMemory)?;
        Ok(Row { classes })
    }

    /// How many objects the thread has made.
    fn len(&self) -> u32
        ensures len { result ≡ length self.now }
        ensures few { result ≤ most_made }
    {
        self.classes.len() as u32
    }

    /// The class of the thread's object with this number, from 0, where it has made it.
    fn class(&self, k: u32) -> Option<u32>
        ensures { result ≡ slice_get self.now k }
    {
        self.classes.get(k as usize).copied()
    }

    /// It has made an object of this class.
    fn add(&mut self, class: u32)
        requires { length self.old < most_made }
        ensures { self.new ≡ self.old ++ class ∷ [] }
    {
        let added = self.classes.push(class);
        prove!(added.is_ok());
    }
}

/// Which numbers objects have, and which of them are there. Contracts see both.
#[derive(Drop)]
pub struct Register {
    declared: Vec<u32>,
    classes: u32,
    rows: Vec<Row>,
}

impl Model for Register {
    ghost use Rattle.plain_machine.specs.Registered.{Registered};

    ghost Value = { Registered };

    ghost use Rattle.plain_machine.specs.RegisterView.{registered, IsSmall};

    ghost view = { registered };

    ghost invariant = { IsSmall };
}

impl Register {
    /// The declared objects of a program, before any thread has made one. It takes all memory that it will need.
    ///
    /// # Errors
    ///
    /// `NoMemory` where an allocation fails.
    pub fn new(alloc: Global, program: &Program) -> Result<Register, NoMemory>
        ensures numbers { IfOk result (λ r. r.numbering ≡ numbering_of program.now) }
        ensures nothing { IfOk result (λ r. r.made ≡ nothing_made (numbering_of program.now)) }
    {
        let declared = classes_of(alloc, program.objects.items())?;
        let classes = program.classes.items().len() as u32;
        let rows = new_rows(alloc, program.threads.items().len() as u32)?;
        Ok(Register {
            declared,
            classes,
            rows,
        })
    }

    /// The class of object o, where it is there.
    pub fn class_of(&self, o: u32) -> Option<u32>
        ensures { result ≡ class_if_there self.now.numbering self.now.made o }
    {
        let first = self.declared.len() as u32;
        if o < first {
            return self.declared.get(o as usize).copied();
        }
        let row = self.rows.get(((o - first) / MADE) as usize)?;
        row.class((o - first) % MADE)
    }

    /// The number of the object that thread t makes next.
    pub fn next_of(&self, t: u32) -> u32
        requires { t < most_threads }
        ensures { result ≡ made_number self.now.numbering t (length (made_by self.now.made t)) }
    {
        self.declared.len() as u32 + MADE * t + self.made_by(t)
    }

    /// How many objects thread t has made.
    fn made_by(&self, t: u32) -> u32
        ensures len { result ≡ length (made_by self.now.made t) }
        ensures few { result ≤ most_made }
    {
        match self.rows.get(t as usize) {
            Some(row) => row.len(),
            None => 0,
        }
    }

    /// Whether object o is there.
    fn is_there(&self, o: u32) -> bool
        ensures { result ≡ is_there self.now.numbering self.now.made o }
    {
        let first = self.declared.len() as u32;
        o < first || (o - first) % MADE < self.made_by((o - first) / MADE)
    }

    /// Whether the object, where there is one, is there.
    fn has(&self, object: Option<u32>) -> bool
        ensures { result ≡ list_all (is_there self.now.numbering self.now.made) (one_or_none object) }
    {
        match object {
            None => true,
            Some(object) => self.is_there(object),
        }
    }

    /// Whether each object is there that the entry names or hands on.
    fn has_needs(&self, entry: &Entry) -> bool
        ensures { result ≡ list_all (is_there self.now.numbering self.now.made) (needs entry.now) }
    {
        let named = self.has(named(entry));
        let handed_on = self.has(handed_on(entry));
        named && handed_on
    }

    /// Whether thread t may make this object of this class: it is the thread's next one, and there is such a class.
    fn may_create(&self, t: u32, object: u32, class: u32) -> bool
        ensures { result ≡ may_create self.now.numbering self.now.made t (object, class) }
    {
        if t as usize >= self.rows.len() || self.made_by(t) >= MADE || class >= self.classes {
            return false;
        }
        object == self.next_of(t)
    }

    /// Whether an entry of thread t finds what it needs: each object that it is about, or, where it makes one, that this is its next.
    pub fn may_take(&self, t: u32, entry: &Entry) -> bool
        ensures { result ≡ is_some (take_made self.now.numbering self.now.made t entry.now) }
    {
        match entry {
            Entry::New { object, class } => self.may_create(t, *object, *class),
            _ => self.has_needs(entry),
        }
    }

    /// What is there after an entry of thread t, which finds what it needs.
    pub fn note(&mut self, t: u32, entry: &Entry)
        requires { is_some (take_made self.old.numbering self.old.made t entry.now) ≡ true }
        ensures made { take_made self.old.numbering self.old.made t entry.now ≡ Some self.new.made }
        ensures numbering { self.new.numbering ≡ self.old.numbering }
    {
        if let Entry::New { class, .. } = entry {
            self.rows[t as usize].add(*class);
        }
    }
}

/// The rows of so many threads that have made nothing.
fn new_rows(alloc: Global, threads: u32) -> Result<Vec<Row>, NoMemory>
    ensures { IfOk result (λ v. v.items ≡ replicate threads []) }
{
    let mut rows = Vec::new(alloc);
    for _ in 0..threads {
        rows.push(Row::new(alloc)?).map_err(|_| NoMemory)?;
    }
    Ok(rows)
}

/// The class of each declared object, by its number.
fn classes_of(alloc: Global, objects: &[ObjectDef]) -> Result<Vec<u32>, NoMemory>
    ensures { IfOk result (λ v. v.items ≡ classes_from objects.now) }
{
    let mut classes = Vec::new(alloc);
    for object in objects {
        push_class(&mut classes, object.class, object.size)?;
    }
    Ok(classes)
}

/// Adds the class of a declaration that stands for this many objects.
fn push_class(classes: &mut Vec<u32>, class: u32, size: u32) -> Result<(), NoMemory>
    ensures { OnOk result (classes.new.items ≡ classes.old.items ++ replicate size class) }
{
    for _ in 0..size {
        classes.push(class).map_err(|_| NoMemory)?;
    }
    Ok(())
}

/// The object that the entry names.
fn named(entry: &Entry) -> Option<u32>
    ensures { result ≡ named entry.now }
{
    match entry {
        Entry::Enter { object, .. } => Some(*object),
        Entry::Exit { object } => Some(*object),
        Entry::Wait { object } => Some(*object),
        Entry::Resume { object } => Some(*object),
        Entry::Notify { object, .. } => Some(*object),
        Entry::NotifyAll { object, .. } => Some(*object),
        Entry::Get { object, .. } => Some(*object),
        Entry::Put { object, .. } => Some(*object),
        Entry::Hash { object, .. } => Some(*object),
        Entry::New { .. }
        | Entry::Print { .. }
        | Entry::Dump { .. }
        | Entry::Trap { .. }
        | Entry::Spent
        | Entry::Done => None,
    }
}

/// The object that the entry hands on.
fn handed_on(entry: &Entry) -> Option<u32>
    ensures { one_or_none result ≡ hands_on entry.now }
{
    match entry {
        Entry::Put { value, .. } => referred(value),
        Entry::Print { value } => referred(value),
        _ => None,
    }
}

/// The object that the value refers to.
fn referred(value: &Value) -> Option<u32>
    ensures { one_or_none result ≡ refers value.now }
{
    match value {
        Value::Ref(object) => Some(*object),
        _ => None,
    }
}
