//! The instructions that compute the value of a local.

ghost use Rattle.std.specs.Prelude.{◌≡◌, ℤ, ◌<◌, ◌+ℤ◌, ◌-ℤ◌, ◌*ℤ◌, nat_abs, slice_get, IfSome, SomeIff, is_some};
ghost use Rattle.plain_monitor.specs.Numbers.{IsInRange};
ghost use Rattle.object_program.specs.Limits.{most_code};
ghost use Rattle.plain_machine.specs.Thread.{combines, computes, first_of, element, is_element};
ghost use Rattle.plain_machine.specs.Next.{meant, IsReadyNext};

use crate::actor::Actor;
use crate::step::{Next, fault};
use object_program::Program;
use plain_monitor::{Fault, Value};

/// x becomes the sum of two numbers.
pub fn add<T: Actor>(thread: &T, x: u32, y: Value, z: Value) -> Next
    requires { (T.state thread.now).place < most_code }
    ensures next { combines (T.state thread.now) x (λ a b. a +ℤ b) y z ≡ meant (T.state thread.now) result }
    ensures ready { IsReadyNext (T.state thread.now) result }
{
    match (y, z) {
        (Value::Int(y), Value::Int(z)) => compute(thread, x, sum(y, z)),
        _ => fault(thread, Fault::NotInt),
    }
}

/// x becomes the difference of two numbers.
pub fn sub<T: Actor>(thread: &T, x: u32, y: Value, z: Value) -> Next
    requires { (T.state thread.now).place < most_code }
    ensures next { combines (T.state thread.now) x (λ a b. a -ℤ b) y z ≡ meant (T.state thread.now) result }
    ensures ready { IsReadyNext (T.state thread.now) result }
{
    match (y, z) {
        (Value::Int(y), Value::Int(z)) => compute(thread, x, difference(y, z)),
        _ => fault(thread, Fault::NotInt),
    }
}

/// x becomes the product of two numbers.
pub fn mul<T: Actor>(thread: &T, x: u32, y: Value, z: Value) -> Next
    requires { (T.state thread.now).place < most_code }
    ensures next { combines (T.state thread.now) x (λ a b. a *ℤ b) y z ≡ meant (T.state thread.now) result }
    ensures ready { IsReadyNext (T.state thread.now) result }
{
    match (y, z) {
        (Value::Int(y), Value::Int(z)) => compute(thread, x, product(y, z)),
        _ => fault(thread, Fault::NotInt),
    }
}

/// The sum, where a value may be it.
fn sum(y: i64, z: i64) -> Option<i64>
    ensures { SomeIff result (IsInRange (y +ℤ z)) (y +ℤ z) }
{
    in_range(y.checked_add(z)?)
}

/// The difference, where a value may be it.
fn difference(y: i64, z: i64) -> Option<i64>
    ensures { SomeIff result (IsInRange (y -ℤ z)) (y -ℤ z) }
{
    in_range(y.checked_sub(z)?)
}

/// The product, where a value may be it.
fn product(y: i64, z: i64) -> Option<i64>
    ensures { SomeIff result (IsInRange (y *ℤ z)) (y *ℤ z) }
{
    in_range(y.checked_mul(z)?)
}

/// The number, where a value may be it.
fn in_range(number: i64) -> Option<i64>
    ensures { SomeIff result (IsInRange number) number }
{
    if number < Value::LEAST || number > Value::GREATEST {
        return None;
    }
    Some(number)
}

/// x becomes the number, where a value may be it.
fn compute<T: Actor>(thread: &T, x: u32, number: Option<i64>) -> Next
    requires { (T.state thread.now).place < most_code }
    ensures next { (z : ℤ) → SomeIff number (IsInRange z) z
        → computes (T.state thread.now) x z ≡ meant (T.state thread.now) result }
    ensures ready { IsReadyNext (T.state thread.now) result }
{
    match number {
        Some(number) => Next::Sets {
            local: x,
            value: Value::Int(number),
        },
        None => fault(thread, Fault::Overflow),
    }
}

/// The first object of a declaration.
pub fn first_object(program: &Program, n: u32) -> u32
    ensures { result ≡ first_of (slice_get program.now.objects n) }
{
    match program.objects.items().get(n as usize) {
        Some(definition) => definition.first,
        None => 0,
    }
}

/// x refers to element i of declaration n.
pub fn element<T: Actor>(program: &Program, thread: &T, x: u32, n: u32, i: Value) -> Next
    requires { (T.state thread.now).place < most_code }
    ensures next { element (T.state thread.now) x (slice_get program.now.objects n) i
        ≡ meant (T.state thread.now) result }
    ensures ready { IsReadyNext (T.state thread.now) result }
{
    let Value::Int(i) = i else {
        return fault(thread, Fault::NotInt);
    };
    let Some(definition) = program.objects.items().get(n as usize) else {
        return fault(thread, Fault::Range);
    };
    match place(i, definition.size) {
        Some(place) => Next::Sets {
            local: x,
            value: Value::Ref(definition.first + place),
        },
        None => fault(thread, Fault::Range),
    }
}

/// The number as a place in an array of this size.
fn place(i: i64, size: u32) -> Option<u32>
    ensures some { IfSome result (λ place. (place ≡ nat_abs i) × (place < size)) }
    ensures test { is_some result ≡ is_element i size }
{
    if i < 0 || i >= i64::from(size) {
        return None;
    }
    Some(i as u32)
}
