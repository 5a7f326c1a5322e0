//! The numbers of what C gets.
ghost use Rattle.std.specs.Prelude.{◌≡◌, Option, Some, IfSome};
ghost use Rattle.lock_runtime_c.specs.Numbers as numbers;

use core_world::{Operation, PendingCause};
use plain_monitor::{Entry, Fault, Logged, Path, Value};

/// A value: nil, a number, or an object.
#[repr(C)]
#[derive(Clone, Copy)]
pub struct Cell {
    pub kind: u32,
    pub object: u32,
    pub number: i64,
}

/// An entry of a log.
#[repr(C)]
#[derive(Clone, Copy)]
pub struct Row {
    pub stamp: u64,
    pub kind: u32,
    pub object: u32,
    pub detail: u32,
    pub number: u32,
    pub value: Cell,
}

pub fn bool_number(is: bool) -> u32
    ensures { result ≡ numbers.bool_number is }
{
    match is {
        false => 0,
        true => 1,
    }
}

#[inline(always)]
pub fn path_number(path: Path) -> u32
    ensures { result ≡ numbers.path_number path }
{
    match path {
        Path::BiasOwn => 1,
        Path::BiasTaken => 2,
        Path::StackFirst => 3,
        Path::StackAgain => 4,
        Path::MonitorFirst => 5,
        Path::MonitorAgain => 6,
    }
}

#[inline(always)]
pub fn cause_number(why: PendingCause) -> u32
    ensures { result ≡ numbers.cause_number why }
{
    match why {
        PendingCause::Owned { .. } => 1,
        PendingCause::NotNotified { .. } => 2,
        PendingCause::Raced { .. } => 3,
        PendingCause::Inflating => 4,
        PendingCause::Stopping { .. } => 5,
        PendingCause::Requested { .. } => 6,
        PendingCause::Halted => 7,
    }
}

/// The word that the call found.
#[inline(always)]
pub fn cause_word(why: PendingCause) -> u64
    ensures { result ≡ numbers.cause_word why }
{
    match why {
        PendingCause::Owned { word } => word,
        PendingCause::NotNotified { word } => word,
        PendingCause::Raced { found, .. } => found,
        PendingCause::Inflating => 0,
        PendingCause::Stopping { word } => word,
        PendingCause::Requested { word } => word,
        PendingCause::Halted => 0,
    }
}

pub fn op_number(op: Operation) -> u32
    ensures { result ≡ numbers.op_number op }
{
    match op {
        Operation::Enter => 1,
        Operation::Exit => 2,
        Operation::Wait => 3,
        Operation::Notify => 4,
        Operation::NotifyAll => 5,
        Operation::Hash => 6,
        Operation::Dump => 7,
        Operation::Create => 8,
    }
}

fn fault_number(fault: Fault) -> u32
    ensures { result ≡ numbers.fault_number fault }
{
    match fault {
        Fault::IllegalMonitorState => 1,
        Fault::Unguarded => 2,
        Fault::NotRef => 3,
        Fault::NotInt => 4,
        Fault::Range => 5,
        Fault::Overflow => 6,
        Fault::TooDeep => 7,
        Fault::TooManyDumps => 8,
        Fault::TooMany => 9,
    }
}

pub fn value_kind(value: Value) -> u32
    ensures { result ≡ numbers.value_kind value }
{
    match value {
        Value::Nil => 0,
        Value::Int(_) => 1,
        Value::Ref(_) => 2,
    }
}

/// The value in numbers.
pub fn cell_of(value: Value) -> Cell
    ensures { result ≡ numbers.cell_of value }
{
    let (object, number) = match value {
        Value::Nil => (0, 0),
        Value::Int(number) => (0, number),
        Value::Ref(object) => (object, 0),
    };
    Cell {
        kind: value_kind(value),
        object,
        number,
    }
}

/// The value that C gives in numbers, where its kind is one.
pub fn value_of(cell: Cell) -> Option<Value>
    ensures { result ≡ numbers.value_of cell }
{
    match cell.kind {
        0 => Some(Value::Nil),
        1 => Some(Value::Int(cell.number)),
        2 => Some(Value::Ref(cell.object)),
        _ => None,
    }
}

// Which entry it is, its object, and its two numbers.
fn parts_of(entry: Entry) -> (u32, u32, u32, u32)
    ensures { result ≡ numbers.parts_of entry }
{
    match entry {
        Entry::Enter { object, path } => (1, object, path_number(path), 0),
        Entry::Exit { object } => (2, object, 0, 0),
        Entry::Get { object, slot, .. } => (3, object, slot, 0),
        Entry::Put { object, slot, .. } => (4, object, slot, 0),
        Entry::Wait { object } => (5, object, 0, 0),
        Entry::Resume { object } => (6, object, 0, 0),
        Entry::Notify {
            object,
            woken: None,
        } => (7, object, 0, 0),
        Entry::Notify {
            object,
            woken: Some(thread),
        } => (7, object, 1, thread),
        Entry::NotifyAll { object, woken } => (8, object, 0, woken),
        Entry::Hash {
            object,
            value,
            drawn: None,
        } => (9, object, 0, value),
        Entry::Hash {
            object,
            value,
            drawn: Some(number),
        } => (9, object, number, value),
        Entry::New { object, class } => (10, object, class, 0),
        Entry::Print { .. } => (11, 0, 0, 0),
        Entry::Dump { number } => (12, 0, 0, number),
        Entry::Trap { fault, index } => (13, 0, fault_number(fault), index),
        Entry::Spent => (14, 0, 0, 0),
        Entry::Done => (15, 0, 0, 0),
    }
}

// The value that the entry tells, or nil.
fn value_in(entry: Entry) -> Value
    ensures { result ≡ numbers.value_in entry }
{
    match entry {
        Entry::Get { value, .. } => value,
        Entry::Put { value, .. } => value,
        Entry::Print { value } => value,
        _ => Value::Nil,
    }
}

/// The entry in numbers.
pub fn row_of(logged: Logged) -> Row
    ensures { result ≡ numbers.row_of logged }
{
    let (kind, object, detail, number) = parts_of(logged.entry);
    Row {
        stamp: logged.stamp,
        kind,
        object,
        detail,
        number,
        value: cell_of(value_in(logged.entry)),
    }
}
