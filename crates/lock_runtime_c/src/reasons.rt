//! Why a call can't begin: the first reason, in the order in which they are tried here.
ghost use Rattle.std.specs.Prelude.{◌≡◌, ◌+◌, ◌≤◌, ◌&&◌, nat_le, nat_lt, if◌then◌else◌, length, Some};
ghost use Rattle.core_world.specs.Clauses.Lengths.{log_limit};
ghost use Rattle.core_world.specs.Threads.References.{is_value_over};
ghost use Rattle.core_world.specs.Trees.Operations.{same_op};
ghost use Rattle.core_world.specs.Words.Forms.{says_ended, waits_on};
ghost use Rattle.lock_runtime_c.specs.LogRoom.{is_full, room_for};
ghost use Rattle.lock_runtime_c.specs.Reasons as reasons;

use crate::outcome::Misuse;
use core_world::{HeapCall, Operation, Unfinished};
use heap_table::{Heap, Pass, wait_of_word};
use mark_word::WaitForm;
use plain_monitor::Value;

#[inline(always)]
fn same_op(one: Operation, other: Operation) -> bool
    ensures { result ≡ same_op one other }
{
    match (one, other) {
        (Operation::Enter, Operation::Enter) => true,
        (Operation::Exit, Operation::Exit) => true,
        (Operation::Wait, Operation::Wait) => true,
        (Operation::Notify, Operation::Notify) => true,
        (Operation::NotifyAll, Operation::NotifyAll) => true,
        (Operation::Hash, Operation::Hash) => true,
        (Operation::Dump, Operation::Dump) => true,
        (Operation::Create, Operation::Create) => true,
        _ => false,
    }
}

// The operation that the call makes, and its object.
#[inline(always)]
fn operation(task: HeapCall) -> Option<(Operation, u32)>
    ensures { result ≡ reasons.operation task }
{
    match task {
        HeapCall::Enter { object, .. } => Some((Operation::Enter, object)),
        HeapCall::Exit { object } => Some((Operation::Exit, object)),
        HeapCall::Wait { object, .. } => Some((Operation::Wait, object)),
        HeapCall::Notify { object, .. } => Some((Operation::Notify, object)),
        HeapCall::NotifyAll { object, .. } => Some((Operation::NotifyAll, object)),
        HeapCall::Hash { object, .. } => Some((Operation::Hash, object)),
        HeapCall::Dump => Some((Operation::Dump, 0)),
        _ => None,
    }
}

// Whether it goes on with what is unfinished.
#[inline(always)]
fn goes_on(made: Option<(Operation, u32)>, left: Unfinished) -> bool
    ensures { result ≡ reasons.goes_on made (Some left) }
{
    match made {
        Some((op, object)) => same_op(left.op, op) && left.object == object,
        None => false,
    }
}

#[inline(always)]
fn other_operation(made: Option<(Operation, u32)>, left: Option<Unfinished>) -> Option<Misuse>
    ensures { result ≡ reasons.other_operation made left }
{
    match left {
        None => None,
        Some(left) => {
            if goes_on(made, left) {
                None
            } else {
                Some(Misuse::IsUnfinished(left.op))
            }
        }
    }
}

// Whether the thread ended, by its waiting word.
#[inline(always)]
fn has_ended(pass: &Pass) -> bool
    ensures { result ≡ says_ended pass.now.known.wait }
{
    match wait_of_word(pass.wait_word()) {
        Some(form) => match form {
            WaitForm::Ended => true,
            _ => false,
        },
        None => false,
    }
}

// How the thread stands, for an operation.
#[inline(always)]
fn of_standing(pass: &Pass, made: Option<(Operation, u32)>) -> Option<Misuse>
    ensures { result ≡ reasons.of_standing pass.now.known made }
{
    if has_ended(pass) {
        return Some(Misuse::Ended);
    }
    if pass.checking() {
        return Some(Misuse::CheckIsUnfinished);
    }
    if let Some(why) = other_operation(made, pass.unfinished()) {
        return Some(why);
    }
    if pass.running() || (pass.requesting() && pass.unfinished().is_some()) {
        None
    } else {
        Some(Misuse::IsStopped)
    }
}

// Each object of the heap is a declared one.
#[inline(always)]
fn of_object(heap: &Heap, object: u32) -> Option<Misuse>
    ensures { result ≡ reasons.of_object heap.now.heap.shape object }
{
    if object < heap.shape().declared() {
        None
    } else {
        Some(Misuse::NoObject)
    }
}

/// What is wrong with the slot of a get.
#[inline(always)]
pub fn of_slot(heap: &Heap, object: u32, slot: u32) -> Option<Misuse>
    ensures { result ≡ reasons.of_slot heap.now.heap.shape object slot }
{
    if object >= heap.shape().declared() {
        return Some(Misuse::NoObject);
    }
    if slot < heap.shape().slots_of(object) {
        None
    } else {
        Some(Misuse::NoSlot)
    }
}

#[inline(always)]
fn is_value(heap: &Heap, value: Value) -> bool
    ensures { result ≡ is_value_over (λ o. nat_lt o heap.now.heap.shape.declared) value }
{
    match value {
        Value::Nil => true,
        Value::Int(number) => Value::LEAST <= number && number <= Value::GREATEST,
        Value::Ref(object) => object < heap.shape().declared(),
    }
}

#[inline(always)]
fn of_value(heap: &Heap, value: Value) -> Option<Misuse>
    ensures { result ≡ reasons.of_value heap.now.heap.shape value }
{
    if is_value(heap, value) {
        None
    } else {
        Some(Misuse::NoValue)
    }
}

/// What is wrong with what a put writes, and where.
#[inline(always)]
pub fn of_put(heap: &Heap, object: u32, slot: u32, value: Value) -> Option<Misuse>
    ensures { result ≡ reasons.or_else (reasons.of_slot heap.now.heap.shape object slot)
        (reasons.of_value heap.now.heap.shape value) }
{
    match of_slot(heap, object, slot) {
        Some(why) => Some(why),
        None => of_value(heap, value),
    }
}

// A thread ends without holds.
#[inline(always)]
fn of_holds(pass: &Pass) -> Option<Misuse>
    ensures { result ≡ reasons.of_holds pass.now.known }
{
    if pass.holds() == 0 {
        None
    } else {
        Some(Misuse::IsHolding)
    }
}

// What is wrong with the operands of an operation.
#[inline(always)]
fn of_operands(heap: &Heap, pass: &Pass, task: HeapCall) -> Option<Misuse>
    ensures { result ≡ reasons.of_operands heap.now.heap.shape pass.now.known task }
{
    match task {
        HeapCall::Enter { object, .. } => of_object(heap, object),
        HeapCall::Exit { object } => of_object(heap, object),
        HeapCall::Wait { object, .. } => of_object(heap, object),
        HeapCall::Notify { object, .. } => of_object(heap, object),
        HeapCall::NotifyAll { object, .. } => of_object(heap, object),
        HeapCall::Hash { object, .. } => of_object(heap, object),
        HeapCall::Get { object, slot } => of_slot(heap, object, slot),
        HeapCall::Put {
            object,
            slot,
            value,
        } => of_put(heap, object, slot, value),
        HeapCall::Print { value } => of_value(heap, value),
        HeapCall::Finish { .. } => of_holds(pass),
        _ => None,
    }
}

// Poll and stop are for a thread that runs.
#[inline(always)]
fn of_running(pass: &Pass) -> Option<Misuse>
    ensures { result ≡ reasons.of_running pass.now.known }
{
    if pass.running() {
        None
    } else if pass.requesting() {
        Some(Misuse::IsAsking)
    } else {
        Some(Misuse::IsStopped)
    }
}

// And resume for one that is stopped.
#[inline(always)]
fn of_stopped(pass: &Pass) -> Option<Misuse>
    ensures { result ≡ reasons.of_stopped pass.now.known }
{
    if pass.requesting() {
        Some(Misuse::IsAsking)
    } else if pass.running() {
        Some(Misuse::IsRunning)
    } else {
        None
    }
}

// Whether the thread runs, or asks for a safepoint for a check.
#[inline(always)]
fn asks_to_check(pass: &Pass) -> bool
    ensures { result ≡ (if pass.now.known.requesting then pass.now.known.checking else pass.now.known.running) }
{
    if pass.requesting() {
        pass.checking()
    } else {
        pass.running()
    }
}

#[inline(always)]
fn other_asked(pass: &Pass) -> Misuse
    ensures { result ≡ reasons.other_asked pass.now.known.requesting pass.now.known.unfinished }
{
    if !pass.requesting() {
        return Misuse::IsStopped;
    }
    match pass.unfinished() {
        Some(left) => Misuse::IsUnfinished(left.op),
        None => Misuse::IsStopped,
    }
}

#[inline(always)]
fn of_check(pass: &Pass) -> Option<Misuse>
    ensures { result ≡ reasons.of_check pass.now.known }
{
    if has_ended(pass) {
        return Some(Misuse::Ended);
    }
    if asks_to_check(pass) {
        None
    } else {
        Some(other_asked(pass))
    }
}

#[inline(always)]
fn of_operation(heap: &Heap, pass: &Pass, task: HeapCall) -> Option<Misuse>
    ensures { result ≡ reasons.or_else (reasons.of_standing pass.now.known (reasons.operation task))
        (reasons.of_operands heap.now.heap.shape pass.now.known task) }
{
    match of_standing(pass, operation(task)) {
        Some(why) => Some(why),
        None => of_operands(heap, pass, task),
    }
}

/// The first reason why a call of this task can't begin, the room of the log aside.
#[inline(always)]
pub fn first_reason(heap: &Heap, pass: &Pass, task: HeapCall) -> Option<Misuse>
    ensures { result ≡ reasons.first_reason heap.now.heap.shape pass.now.known task }
{
    match task {
        HeapCall::Poll => of_running(pass),
        HeapCall::Stop => of_running(pass),
        HeapCall::Resume => of_stopped(pass),
        HeapCall::Check => of_check(pass),
        HeapCall::Create { .. }
        | HeapCall::StackEnter { .. }
        | HeapCall::StackExit { .. }
        | HeapCall::Request
        | HeapCall::Reached
        | HeapCall::Release => Some(Misuse::OtherKind),
        _ => of_operation(heap, pass, task),
    }
}

// Whether this waiting word says that its thread waits on the object.
#[inline(always)]
fn waits_on(word: u64, object: u32) -> bool
    ensures { result ≡ waits_on word object }
{
    match wait_of_word(word) {
        Some(form) => match form {
            WaitForm::Waiting { object: on, .. } => on == object,
            _ => false,
        },
        None => false,
    }
}

// For how many entries the log has to have room. An exit only takes up what its hold had kept. All else leaves the room that each hold needs for
// its exit, and but for an end and a wait that has let go it leaves one more, for these; an enter is a hold more.
#[inline(always)]
fn room_for(pass: &Pass, task: HeapCall) -> u32
    ensures room { result ≡ room_for pass.now task }
    ensures few { result ≤ 67 }
{
    match task {
        HeapCall::Exit { .. } => 1,
        HeapCall::Finish { .. } => pass.holds() + 1,
        HeapCall::Wait { object, .. } => {
            if waits_on(pass.wait_word(), object) {
                pass.holds() + 1
            } else {
                pass.holds() + 3
            }
        }
        HeapCall::Enter { .. } => pass.holds() + 3,
        _ => pass.holds() + 2,
    }
}

/// Whether the log hasn't the room that the call needs, besides what the thread's holds do.
#[inline(always)]
pub fn is_full(pass: &Pass, task: HeapCall) -> bool
    ensures { result ≡ is_full pass.now task }
{
    match task {
        HeapCall::Poll => false,
        HeapCall::Stop => false,
        HeapCall::Resume => false,
        HeapCall::Check => false,
        _ => !pass.fits(room_for(pass, task)),
    }
}
