//! The code of the counting program, as text, written by hand.

use crate::counting::counting_program;
use object_program::Program;
use program_syntax::write_program;
use std::process::Abort;
use std::test::Fail;
use sync_source::compile;

pub const CODE: &str = "\
class C 1
object a C
thread t1
local o
local i
local n
local one
ref o a
set i 0
set n 2
set one 1
label L5
jlt i n L7
jump L12
label L7
enter o
print i
exit o
add i i one
jump L5
label L12
end
";

/// Asserts that this is what is written of the program.
pub fn expect_code<R: Abort + AllocGlobal>(
    rt: &R,
    program: &Program,
    code: &[u8],
) -> Result<(), Fail> {
    let mut out = Vec::new(rt.alloc());
    write_program(program, &mut out)?;
    assert!(rt; out.as_slice() == code);
    Ok(())
}

#[test]
fn blocks_become_jumps_and_labels(rt: HostRuntime) -> Result<(), Fail> {
    let source = counting_program(rt.alloc())?;
    let program = compile(rt.alloc(), &source)?;
    expect_code(&rt, &program, CODE.as_bytes())
}
