//! The cycles of machines in which threads wait.

ghost use Rattle.std.specs.Prelude.{◌≡◌, length};

use crate::compare::same;
use example_programs::WAIT_FOREVER;
use object_program::Program;
use plain_machine::{Machine, Offer};
use plain_monitor::{List, NoMemory};
use program_syntax::read_program;
use std::alloc::Global;
use std::process::Abort;
use std::test::Fail;
use wait_report::{Cycle, Link, find_cycles};

/// More rounds than any of these programs makes.
const ROUNDS: usize = 50;

/// A text of so many objects, `o0`, `o1` and so on, and of a thread for each pair.
fn text(alloc: Global, objects: usize, pairs: &[(usize, usize)]) -> Result<String, Fail> {
    let mut text = String::from_str(alloc, "class C 0\n")?;
    for o in 0..objects {
        push_object(alloc, &mut text, o)?;
    }
    for (first, second) in pairs {
        push_thread(alloc, &mut text, *first, *second)?;
    }
    Ok(text)
}

/// Writes the line of an object.
fn push_object(alloc: Global, text: &mut String, o: usize) -> Result<(), Fail> {
    let line = format!(in alloc; "object o{o} C\n")?;
    text.push_str(line.as_str())?;
    Ok(())
}

/// Writes a thread with the number of the first object: it enters that, then the second, and comes to its end without leaving them.
fn push_thread(alloc: Global, text: &mut String, first: usize, second: usize) -> Result<(), Fail> {
    let lines = format!(in alloc;
        "\
thread t{first}
local x
ref x o{first}
enter x
ref x o{second}
enter x
end
"
    )?;
    text.push_str(lines.as_str())?;
    Ok(())
}

/// One round of turns and the next, until nobody can go on or many rounds are over.
fn stand_still(program: &Program, machine: &mut Machine)
    requires { length machine.old.threads ≡ length program.now.threads }
    ensures { length machine.new.threads ≡ length program.now.threads }
{
    for _ in 0..ROUNDS {
        turn_each(program, machine);
    }
}

/// A turn of each thread.
fn turn_each(program: &Program, machine: &mut Machine)
    requires { length machine.old.threads ≡ length program.now.threads }
    ensures { length machine.new.threads ≡ length program.now.threads }
{
    for t in 0..program.threads.items().len() {
        if let Offer::Next(entry) = machine.offer(t as u32) {
            let _ = machine.take(t as u32, &entry);
        }
    }
}

/// The cycles at the end of the program.
fn cycles_at_end(alloc: Global, program: &Program) -> Result<List<Cycle>, NoMemory> {
    let mut machine = Machine::new(alloc, program, 100)?;
    stand_still(program, &mut machine);
    find_cycles(alloc, program, &machine)
}

/// The cycles at the end of the program with this text. The program and the machine are large, so each is held by a function of its own.
fn cycles_of(alloc: Global, text: &str) -> Result<List<Cycle>, Fail> {
    let program = read_program(alloc, text.as_bytes())?;
    Ok(cycles_at_end(alloc, &program)?)
}

/// Asserts that these are the cycles, each as the pairs of its links.
fn expect(rt: &impl Abort, cycles: &[Cycle], expected: &[&[(u32, u32)]]) {
    same(rt, cycles.len(), expected.len());
    for (cycle, pairs) in cycles.iter().zip(expected.iter()) {
        expect_links(rt, cycle.links.items(), pairs);
    }
}

/// Asserts that these are the links, each as a thread and the object that it waits for.
fn expect_links(rt: &impl Abort, links: &[Link], pairs: &[(u32, u32)]) {
    same(rt, links.len(), pairs.len());
    for (link, pair) in links.iter().zip(pairs.iter()) {
        same(rt, (link.thread, link.object), *pair);
    }
}

/// Two threads that enter the same objects the other way round, and the cycle of both.
const CROSSWISE: &[(usize, usize)] = &[(0, 1), (1, 0)];

const OF_CROSSWISE: &[&[(u32, u32)]] = &[&[(0, 1), (1, 0)]];

#[test]
fn crosswise_threads_are_a_cycle(rt: HostRuntime) -> Result<(), Fail> {
    let text = text(rt.alloc(), 2, CROSSWISE)?;
    let cycles = cycles_of(rt.alloc(), text.as_str())?;
    expect(&rt, cycles.items(), OF_CROSSWISE);
    Ok(())
}

#[test]
fn a_wait_is_no_cycle(rt: HostRuntime) -> Result<(), Fail> {
    let cycles = cycles_of(rt.alloc(), WAIT_FOREVER)?;
    expect(&rt, cycles.items(), &[]);
    Ok(())
}

/// Three circles: 0 and 3; 1, 5 and 2; 4 and 6. Thread 7 waits for one of the first and is in none.
const CIRCLES: &[(usize, usize)] = &[
    (0, 3),
    (1, 5),
    (2, 1),
    (3, 0),
    (4, 6),
    (5, 2),
    (6, 4),
    (7, 3),
];

const OF_CIRCLES: &[&[(u32, u32)]] = &[
    &[(0, 3), (3, 0)],
    &[(1, 5), (5, 2), (2, 1)],
    &[(4, 6), (6, 4)],
];

#[test]
fn three_cycles_are_given_once_each(rt: HostRuntime) -> Result<(), Fail> {
    let text = text(rt.alloc(), 8, CIRCLES)?;
    let cycles = cycles_of(rt.alloc(), text.as_str())?;
    expect(&rt, cycles.items(), OF_CIRCLES);
    Ok(())
}
