//! Programs with blocks that are written: each has one text, which is read as the same program.

use crate::counting::counting_program;
use std::process::Abort;
use std::test::Fail;
use sync_source::SyncProgram;
use sync_syntax::{read_sync, write_sync};

/// The text of two threads with an array, a negative number, blocks one in another, an `else`, and blocks without
/// statements.
const CANONICAL: &str = "\
class C 2
class D 0
object a D
array b C 3
thread t1
local x
local y
local z
set x -1
while x < y
sync z
if x = y
print x
else
if y < x
done
while y = y
done
done
if x < x
else
notify z
done
done
done
elem y b x
put y 1 x
end
thread t2
end
";

/// The same program with other spaces, comments, zeros and ends of lines, with locals where they are needed, and with an
/// `else` without statements.
const LOOSE: &str = "\
class\tC 002\r
# two classes
class D -0

object a D # the first
 array b C 0003
thread t1
local x
set x -01
local y
while  x < y
local z
sync z # a monitor
if x = y
print x
else
if y < x
else
done
while y = y
done
done
if x < x
else
notify z
done
done
done # of the loop
elem y b x
put y 01 x
end
thread t2
end";

/// The text of the counting program, written by hand.
const COUNTING: &str = "\
class C 1
object a C
thread t1
local o
local i
local n
local one
ref o a
set i 0
set n 2
set one 1
while i < n
sync o
print i
done
add i i one
done
end
";

/// Compares what is written of the program with this.
pub fn expect_written<R: Abort + AllocGlobal>(
    rt: &R,
    program: &SyncProgram,
    written: &[u8],
) -> Result<(), Fail> {
    let out = write_sync(rt.alloc(), program)?;
    assert!(rt; out.as_slice() == written);
    Ok(())
}

/// Compares what is written of the text's program with this.
fn expect<R: Abort + AllocGlobal>(rt: &R, text: &str, written: &str) -> Result<(), Fail> {
    let program = read_sync(rt.alloc(), text.as_bytes())?;
    expect_written(rt, &program, written.as_bytes())
}

#[test]
fn each_program_with_blocks_has_one_text(rt: HostRuntime) -> Result<(), Fail> {
    expect(&rt, CANONICAL, CANONICAL)?;
    expect(&rt, LOOSE, CANONICAL)?;
    expect(&rt, COUNTING, COUNTING)
}

#[test]
fn a_program_that_is_made_is_written(rt: HostRuntime) -> Result<(), Fail> {
    let program = counting_program(rt.alloc())?;
    expect_written(&rt, &program, COUNTING.as_bytes())
}
