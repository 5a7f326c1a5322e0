//! Programs that are written: each has one text, which is read as the same program.

use crate::texts::read;
use example_programs::EXAMPLES;
use object_program::Program;
use program_syntax::write_program;
use std::process::Abort;
use std::test::Fail;

/// The text of two threads with an array, labels before one instruction, jumps, a negative number and an object that a thread
/// makes.
const CANONICAL: &str = "\
class C 2
class D 0
class E 4
object a D
array b C 3
thread t1
local x
local y
set x -1
label top
label again
elem y b x
put y 1 x
jlt x x top
jump top
end
thread t2
local z
new z E
end
";

/// The same program with other spaces, comments, zeros and ends of lines, with a local and classes where they are needed, one of
/// them between the threads, and with a jump to the other label.
const LOOSE: &str = "\
class\tC 002\r
# two classes
class D -0

object a D # the first
 array b C 0003
thread t1
local x
set x -01
label top
local y
label again
elem y b x
put y 01 x
jlt x x top
jump again
end
class E 04
thread t2
local z
new\tz  E # one more
end";

/// Adds what is written of the program.
fn append(rt: &impl Abort, program: &Program, out: &mut Vec<u8>) {
    assert!(rt; write_program(program, out).is_ok());
}

/// What is written of the text's program after the two bytes that `out` has already.
fn appended<R: Abort + AllocGlobal>(rt: &R, text: &str) -> Result<Vec<u8>, Fail> {
    let mut out = Vec::from_slice(rt.alloc(), b"# ")?;
    let program = read(rt, text.as_bytes());
    append(rt, &program, &mut out);
    Ok(out)
}

/// Compares what is written of the text's program with this.
fn expect<R: Abort + AllocGlobal>(rt: &R, text: &str, due: &str) -> Result<(), Fail> {
    let out = appended(rt, text)?;
    assert!(rt; out.as_slice().strip_prefix(b"# ") == Some(due.as_bytes()));
    Ok(())
}

/// Compares each of the programs with what is written of it.
fn expect_each<R: Abort + AllocGlobal>(rt: &R, programs: &[(&str, &str)]) -> Result<(), Fail> {
    for (_, text) in programs {
        expect(rt, text, text)?;
    }
    Ok(())
}

#[test]
fn each_program_has_one_text(rt: HostRuntime) -> Result<(), Fail> {
    expect(&rt, CANONICAL, CANONICAL)?;
    expect(&rt, LOOSE, CANONICAL)?;
    expect_each(&rt, &EXAMPLES)
}
