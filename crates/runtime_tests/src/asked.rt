//! For the tests: whether a call may begin, asked as the test runs.
ghost use Rattle.std.specs.Prelude.{◌≡◌, ◌==◌, ◌+◌, ◌≤◌, ◌&&◌, ◌||◌, not, nat_lt, nat_le, if◌then◌else◌, true, false};
ghost use Rattle.std.specs.Prelude.{is_none, length};
ghost use Rattle.std.specs.List.{list_all};
ghost use Rattle.core_world.specs.Clauses.Lengths.{log_limit};
ghost use Rattle.core_world.specs.declared.heap_call.HeapCall.TheVariants.{Check};
ghost use Rattle.core_world.specs.Threads.References.{tells_of, is_told, has_reference, has_value};
ghost use Rattle.core_world.specs.Trees.Calls.{has_made_numbers, may_operate, may_begin, most_logged};
ghost use Rattle.core_world.specs.Trees.Operations.{same_op, goes_on_with};
ghost use Rattle.core_world.specs.Words.Forms.{says_ended, waits_on};
ghost use Rattle.core_world.specs.Words.Shape.{slots_of};
ghost use Rattle.heap_table.specs.Resting.{Rests, MayCall, MayOperate};

use core_world::{HeapCall, Operation};
use heap_table::{Heap, Pass, wait_of_word};
use mark_word::WaitForm;
use plain_monitor::limits::MADE;
use plain_monitor::{Entry, Logged, Value};

fn same_op(one: Operation, other: Operation) -> bool
    ensures { result ≡ same_op one other }
{
    match (one, other) {
        (Operation::Enter, Operation::Enter) => true,
        (Operation::Exit, Operation::Exit) => true,
        (Operation::Wait, Operation::Wait) => true,
        (Operation::Notify, Operation::Notify) => true,
        (Operation::NotifyAll, Operation::NotifyAll) => true,
        (Operation::Hash, Operation::Hash) => true,
        (Operation::Dump, Operation::Dump) => true,
        (Operation::Create, Operation::Create) => true,
        _ => false,
    }
}

// Whether this operation on the object is unfinished.
fn goes_on(pass: &Pass, op: Operation, object: u32) -> bool
    ensures { result ≡ goes_on_with op object pass.now.known.unfinished }
{
    match pass.unfinished() {
        None => false,
        Some(unfinished) => same_op(unfinished.op, op) && unfinished.object == object,
    }
}

// Whether the thread runs, or asks for a safepoint for the operation that goes on, and leaves nothing else unfinished.
fn stands(pass: &Pass, going: bool) -> bool
    ensures { result ≡ (not pass.now.known.checking
        && (pass.now.known.running || (pass.now.known.requesting && going))
        && (is_none pass.now.known.unfinished || going)) }
{
    let runs = pass.running() || (pass.requesting() && going);
    let free = pass.unfinished().is_none() || going;
    !pass.checking() && runs && free
}

// Whether the thread ended, by its waiting word.
fn said_ended(pass: &Pass) -> bool
    ensures { result ≡ says_ended pass.now.known.wait }
{
    match wait_of_word(pass.wait_word()) {
        Some(form) => match form {
            WaitForm::Ended => true,
            _ => false,
        },
        None => false,
    }
}

// Whether the log may have an entry more, in any heap.
fn is_short(pass: &Pass) -> bool
    ensures { result ≡ nat_lt (length pass.now.known.log) log_limit }
{
    pass.may_grow(1)
}

// Whether this waiting word says that its thread waits on the object.
fn waits_on(word: u64, object: u32) -> bool
    ensures { result ≡ waits_on word object }
{
    match wait_of_word(word) {
        Some(form) => match form {
            WaitForm::Waiting { object: on, .. } => on == object,
            _ => false,
        },
        None => false,
    }
}

// How many entries the call logs at most.
fn most_logged(pass: &Pass, task: HeapCall) -> u32
    ensures most { result ≡ most_logged pass.now.known task }
    ensures few { result ≤ 2 }
{
    match task {
        HeapCall::Wait { object, .. } => {
            if waits_on(pass.wait_word(), object) {
                1
            } else {
                2
            }
        }
        _ => 1,
    }
}

// Whether the log may have so many more, in any heap.
fn is_short_for(pass: &Pass, most: u32) -> bool
    requires { most ≤ 2 }
    ensures { result ≡ nat_le (length pass.now.known.log + most) log_limit }
{
    pass.may_grow(most)
}

fn may_operate(heap: &Heap, pass: &Pass, going: bool) -> bool
    requires { Rests heap.now pass.now }
    ensures { result ≡ true → may_operate pass.now.known going ≡ true }
{
    if said_ended(pass) {
        return false;
    }
    stands(pass, going) && is_short(pass)
}

// Whether the entry tells of the object.
fn tells_of(object: u32, entry: Entry) -> bool
    ensures { result ≡ tells_of object entry }
{
    match entry {
        Entry::New { object: made, .. } => object == made,
        Entry::Get {
            value: Value::Ref(got),
            ..
        } => object == got,
        _ => false,
    }
}

// Whether some entry of the log does.
fn is_told(log: &[Logged], object: u32) -> bool
    ensures { result ≡ is_told log.now object }
{
    log.iter().any(|logged| tells_of(object, logged.entry))
}

// Whether the object is a declared one. Each thread has a reference to those.
fn is_declared(heap: &Heap, pass: &Pass, object: u32) -> bool
    requires { Rests heap.now pass.now }
    ensures { result ≡ true → has_reference heap.now.heap.shape pass.now.known object ≡ true }
{
    object < heap.shape().declared()
}

// Whether the object is one that the thread made or got.
fn is_known(heap: &Heap, pass: &Pass, object: u32) -> bool
    requires { Rests heap.now pass.now }
    ensures { result ≡ true → has_reference heap.now.heap.shape pass.now.known object ≡ true }
{
    (object as usize) < heap.shape().objects() && is_told(pass.log(), object)
}

fn has_reference(heap: &Heap, pass: &Pass, object: u32) -> bool
    requires { Rests heap.now pass.now }
    ensures { result ≡ true → has_reference heap.now.heap.shape pass.now.known object ≡ true }
{
    is_declared(heap, pass, object) || is_known(heap, pass, object)
}

// Whether the heap has the numbers of all objects that its threads may make.
fn has_made_numbers(heap: &Heap) -> bool
    ensures { result ≡ has_made_numbers heap.now.heap.shape }
{
    let shape = heap.shape();
    let made = MADE * shape.threads();
    shape.declared() as usize + made as usize <= shape.objects()
}

fn may_create(heap: &Heap, pass: &Pass, class: u32) -> bool
    requires { Rests heap.now pass.now }
    ensures { result ≡ true → (nat_lt class heap.now.heap.shape.classes && has_made_numbers heap.now.heap.shape
        && may_operate pass.now.known false) ≡ true }
{
    class < heap.shape().classes() && has_made_numbers(heap) && may_operate(heap, pass, false)
}

fn has_slot(heap: &Heap, pass: &Pass, object: u32, slot: u32) -> bool
    requires { Rests heap.now pass.now }
    ensures { result ≡ true → (has_reference heap.now.heap.shape pass.now.known object
        && nat_lt slot (slots_of heap.now.heap.shape object)) ≡ true }
{
    has_reference(heap, pass, object) && slot < heap.shape().slots_of(object)
}

fn has_value(heap: &Heap, pass: &Pass, value: Value) -> bool
    requires { Rests heap.now pass.now }
    ensures { result ≡ true → has_value heap.now.heap.shape pass.now.known value ≡ true }
{
    match value {
        Value::Nil => true,
        Value::Int(number) => Value::LEAST <= number && number <= Value::GREATEST,
        Value::Ref(object) => has_reference(heap, pass, object),
    }
}

fn may_take(heap: &Heap, pass: &Pass, op: Operation, object: u32) -> bool
    requires { Rests heap.now pass.now }
    ensures { result ≡ true → (has_reference heap.now.heap.shape pass.now.known object
        && may_operate pass.now.known (goes_on_with op object pass.now.known.unfinished)) ≡ true }
{
    has_reference(heap, pass, object) && may_operate(heap, pass, goes_on(pass, op, object))
}

fn holds_nothing(pass: &Pass) -> bool
    ensures { result ≡ true → list_all (λ h. h == 0) pass.now.known.holds ≡ true }
{
    pass.holds() == 0
}

fn may_finish(heap: &Heap, pass: &Pass) -> bool
    requires { Rests heap.now pass.now }
    ensures { result ≡ true → (list_all (λ h. h == 0) pass.now.known.holds && may_operate pass.now.known false) ≡ true }
{
    holds_nothing(pass) && may_operate(heap, pass, false)
}

// Whether the thread runs, or asks for a safepoint for a check.
fn asks_to_check(pass: &Pass) -> bool
    ensures { result ≡ (if pass.now.known.requesting then pass.now.known.checking else pass.now.known.running) }
{
    if pass.requesting() {
        pass.checking()
    } else {
        pass.running()
    }
}

fn may_check(heap: &Heap, pass: &Pass) -> bool
    requires { Rests heap.now pass.now }
    ensures { result ≡ true → may_begin heap.now.heap.shape heap.now.heap.biasing pass.now.known Check ≡ true }
{
    if said_ended(pass) {
        return false;
    }
    asks_to_check(pass)
}

// Whether the call of this task may begin.
fn may_begin(heap: &Heap, pass: &Pass, task: HeapCall) -> bool
    requires { Rests heap.now pass.now }
    ensures { result ≡ true → may_begin heap.now.heap.shape heap.now.heap.biasing pass.now.known task ≡ true }
{
    match task {
        HeapCall::Enter { object, .. } => may_take(heap, pass, Operation::Enter, object),
        HeapCall::Exit { object } => may_take(heap, pass, Operation::Exit, object),
        HeapCall::Wait { object, .. } => {
            may_take(heap, pass, Operation::Wait, object)
                && is_short_for(pass, most_logged(pass, task))
        }
        HeapCall::Notify { object, .. } => may_take(heap, pass, Operation::Notify, object),
        HeapCall::NotifyAll { object, .. } => may_take(heap, pass, Operation::NotifyAll, object),
        HeapCall::Hash { object, .. } => may_take(heap, pass, Operation::Hash, object),
        HeapCall::Get { object, slot } => {
            has_slot(heap, pass, object, slot) && may_operate(heap, pass, false)
        }
        HeapCall::Put {
            object,
            slot,
            value,
        } => {
            has_slot(heap, pass, object, slot)
                && has_value(heap, pass, value)
                && may_operate(heap, pass, false)
        }
        HeapCall::Print { value } => has_value(heap, pass, value) && may_operate(heap, pass, false),
        HeapCall::Dump => may_operate(heap, pass, goes_on(pass, Operation::Dump, 0)),
        HeapCall::Create { class } => may_create(heap, pass, class),
        HeapCall::Finish { .. } => may_finish(heap, pass),
        HeapCall::Poll => pass.running(),
        HeapCall::Stop => pass.running(),
        HeapCall::Resume => !pass.running() && !pass.requesting(),
        HeapCall::Check => may_check(heap, pass),
        _ => false,
    }
}

fn has_room(pass: &Pass, task: HeapCall) -> bool
    ensures { result ≡ true → length pass.now.known.log + most_logged pass.now.known task ≤ pass.now.limit }
{
    pass.room() >= u64::from(most_logged(pass, task))
}

/// Whether a call of this task may begin that makes no operation.
pub fn may_call(heap: &Heap, pass: &Pass, task: HeapCall) -> bool
    requires { Rests heap.now pass.now }
    ensures { result ≡ true → MayCall heap.now pass.now task }
{
    may_begin(heap, pass, task)
}

/// Whether an operation of this task may begin.
pub fn may_make(heap: &Heap, pass: &Pass, task: HeapCall) -> bool
    requires { Rests heap.now pass.now }
    ensures { result ≡ true → MayOperate heap.now pass.now task }
{
    may_call(heap, pass, task) && has_room(pass, task)
}
