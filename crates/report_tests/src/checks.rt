//! Journals whose answers are known from outside.

use bias_check::{CheckFault, Checked, Reached, check_journal};
use example_programs::{ANSWER, HASH, WAIT_FOREVER};
use object_program::Program;
use program_syntax::read_program;
use std::alloc::Global;
use std::process::Abort;
use std::test::Fail;

/// Two threads, and an object that is named as no value is.
const PAIR: &str = "\
class C 1
object nil C
thread t1
local o
print o
end
thread t2
local o
ref o nil
print o
end
";

/// A thread that holds two objects at its end, of which it entered the second one first.
const HOLDS_AT_THE_END: &str = "\
class C 1
object a C
object b C
thread t1
local o
ref o b
enter o
ref o a
enter o
end
";

/// Two threads that wait on an object, and one that notifies one of them.
const TWO_WAIT: &str = "\
class C 1
object a C
thread t1
local o
ref o a
enter o
wait o
exit o
end
thread t2
local o
ref o a
enter o
wait o
exit o
end
thread t3
local o
ref o a
enter o
notify o
exit o
end
";

/// The answer of the program to a journal, with 1,000 units of fuel and generators from 1.
fn answer_to(alloc: Global, program: &Program, lines: &[u8]) -> Result<Checked, CheckFault> {
    if lines.len() > 1000 {
        return Err(CheckFault::NoMemory);
    }
    check_journal(alloc, program, 1000, 1, lines)
}

/// The same of the program with this text.
fn answer(alloc: Global, program: &str, lines: &[u8]) -> Result<Result<Checked, CheckFault>, Fail> {
    let program = read_program(alloc, program.as_bytes())?;
    Ok(answer_to(alloc, &program, lines))
}

/// Expects this answer to the journal of the program.
fn expect<R: Abort + AllocGlobal>(
    rt: &R,
    program: &str,
    lines: &str,
    expected: Result<Checked, CheckFault>,
) -> Result<(), Fail> {
    let found = answer(rt.alloc(), program, lines.as_bytes())?;
    assert_eq!(rt; found, expected, "of {lines}");
    Ok(())
}

/// Expects this answer to each journal of one line, of the program in which two wait.
fn expect_each<R: Abort + AllocGlobal>(
    rt: &R,
    journals: &[&str],
    expected: Result<Checked, CheckFault>,
) -> Result<(), Fail> {
    for line in journals {
        expect(rt, TWO_WAIT, line, expected)?;
    }
    Ok(())
}

/// The answer to so many entries after which each thread has ended.
fn ended(entries: u64) -> Result<Checked, CheckFault> {
    legal(entries, Reached::Ended)
}

/// The answer to so many entries.
fn legal(entries: u64, state: Reached) -> Result<Checked, CheckFault> {
    Ok(Checked::Legal { entries, state })
}

/// The answer to a line that is no step.
fn no_step(line: u32) -> Result<Checked, CheckFault> {
    Ok(Checked::NoStep { line })
}

/// The answer to a line that no entry has.
fn unreadable(line: u32) -> Result<Checked, CheckFault> {
    Err(CheckFault::Unreadable { line })
}

#[test]
fn a_whole_run_is_legal(rt: HostRuntime) -> Result<(), Fail> {
    let lines = "@1 t1 enter a stack-first\n@2 t1 print 42\n@3 t1 exit a\n@4 t1 done\n";
    expect(&rt, ANSWER, lines, ended(4))
}

#[test]
fn a_wait_that_is_not_asked_is_no_step(rt: HostRuntime) -> Result<(), Fail> {
    let lines = "@1 t1 enter a stack-first\n@2 t1 print 42\n@3 t1 wait a\n@4 t1 done\n";
    expect(&rt, ANSWER, lines, no_step(3))
}

#[test]
fn no_lines_are_legal(rt: HostRuntime) -> Result<(), Fail> {
    expect(&rt, ANSWER, "", legal(0, Reached::Open))
}

#[test]
fn a_line_of_no_entry_is_unreadable(rt: HostRuntime) -> Result<(), Fail> {
    let other = "@1 t1 enter z stack-first\n@2 t1 print 42\n@3 t1 exit a\n@4 t1 done\n";
    expect(&rt, ANSWER, other, unreadable(1))?;
    let cut = "@1 t1 enter a stack-first\n@2 t1 print 42\n@3 t1 exit a\n@4 t1 done";
    expect(&rt, ANSWER, cut, unreadable(4))
}

#[test]
fn a_line_with_the_stamp_0_is_no_step(rt: HostRuntime) -> Result<(), Fail> {
    let at_once = "@0 t1 enter a stack-first\n@1 t1 print 42\n@2 t1 exit a\n@3 t1 done\n";
    expect(&rt, ANSWER, at_once, no_step(1))?;
    let later = "@1 t1 enter a stack-first\n@0 t1 print 42\n@2 t1 exit a\n@3 t1 done\n";
    expect(&rt, ANSWER, later, no_step(2))?;
    expect(&rt, ANSWER, "@00 t1 enter a stack-first\n", unreadable(1))
}

/// Lines on objects that nobody made.
const OF_NOBODY: &[&str] = &[
    "@1 t1 enter t1.0 stack-first\n",
    "@1 t1 enter t3.1023 stack-first\n",
    "@1 t1 print t2.7\n",
    "@1 t1 hash t1.0 7 draw 1\n",
    "@1 t1 new t2.0 C\n",
];

#[test]
fn an_object_that_nobody_made_is_no_step(rt: HostRuntime) -> Result<(), Fail> {
    expect_each(&rt, OF_NOBODY, no_step(1))
}

/// Lines with names that no made object has.
const OF_NO_NAME: &[&str] = &[
    "@1 t1 enter t1.1024 stack-first\n",
    "@1 t1 enter t1.00 stack-first\n",
    "@1 t1 enter nobody.0 stack-first\n",
    "@1 t1 enter t1. stack-first\n",
    "@1 t1 new t1.0 D\n",
];

#[test]
fn a_name_that_no_made_object_has_is_unreadable(rt: HostRuntime) -> Result<(), Fail> {
    expect_each(&rt, OF_NO_NAME, unreadable(1))
}

#[test]
fn a_hash_that_nobody_drew_is_bad(rt: HostRuntime) -> Result<(), Fail> {
    let lines = "@1 t1 hash a 77\n@2 t1 print 77\n@3 t1 done\n";
    expect(&rt, HASH, lines, Ok(Checked::BadHash { object: 0 }))
}

#[test]
fn a_thread_that_waits_for_ever_is_stuck(rt: HostRuntime) -> Result<(), Fail> {
    let lines = "@1 t1 enter a monitor-first\n@2 t1 wait a\n";
    expect(&rt, WAIT_FOREVER, lines, legal(2, Reached::Stuck))
}

#[test]
fn a_word_with_two_readings_is_what_the_machine_takes(rt: HostRuntime) -> Result<(), Fail> {
    let lines = "@1 t1 print nil\n@1 t2 print nil\n@2 t1 done\n@2 t2 done\n";
    expect(&rt, PAIR, lines, ended(4))?;
    let turned = "@1 t2 print nil\n@1 t1 print nil\n@2 t1 done\n@2 t2 done\n";
    expect(&rt, PAIR, turned, no_step(2))
}

#[test]
fn what_is_held_at_the_end_is_left_by_rising_number(rt: HostRuntime) -> Result<(), Fail> {
    let lines = "\
@1 t1 enter b stack-first
@2 t1 enter a stack-first
@3 t1 exit a
@4 t1 exit b
@5 t1 done
";
    expect(&rt, HOLDS_AT_THE_END, lines, ended(5))?;
    let turned = "\
@1 t1 enter b stack-first
@2 t1 enter a stack-first
@3 t1 exit b
@4 t1 exit a
@5 t1 done
";
    expect(&rt, HOLDS_AT_THE_END, turned, no_step(3))
}

#[test]
fn a_notify_names_the_thread_that_has_waited_longest(rt: HostRuntime) -> Result<(), Fail> {
    let lines = "\
@1 t1 enter a stack-first
@2 t1 wait a
@3 t2 enter a stack-first
@4 t2 wait a
@5 t3 enter a stack-first
@6 t3 notify a t1
@7 t3 exit a
@8 t1 resume a
@9 t1 exit a
@10 t1 done
";
    expect(&rt, TWO_WAIT, lines, legal(10, Reached::Open))?;
    let other = "\
@1 t1 enter a stack-first
@2 t1 wait a
@3 t2 enter a stack-first
@4 t2 wait a
@5 t3 enter a stack-first
@6 t3 notify a t2
";
    expect(&rt, TWO_WAIT, other, no_step(6))
}
