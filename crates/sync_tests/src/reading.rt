//! The counting program as text: its code, and its refusals where a line is changed.

use crate::code::{CODE, expect_code};
use crate::texts::expect_refusal;
use std::alloc::{AllocError, Global};
use std::test::Fail;
use sync_source::compile;
use sync_syntax::{SyncRefusalCause, read_sync};

const DECLARED: &str = "\
class C 1
object a C
thread t1
local o
local i
local n
local one
ref o a
set i 0
set n 2
set one 1
while i < n
sync o
";

/// The lines up to the `sync`, and then these.
fn after_declared(alloc: Global, lines: &[u8]) -> Result<Vec<u8>, AllocError> {
    let mut text = Vec::from_slice(alloc, DECLARED.as_bytes())?;
    text.extend_from_slice(lines)?;
    Ok(text)
}

#[test]
fn a_text_is_compiled(rt: HostRuntime) -> Result<(), Fail> {
    let text = after_declared(rt.alloc(), b"print i\ndone\nadd i i one\ndone\nend\n")?;
    let source = read_sync(rt.alloc(), text.as_slice())?;
    let program = compile(rt.alloc(), &source)?;
    expect_code(&rt, &program, CODE.as_bytes())
}

#[test]
fn a_loop_without_its_done_is_refused(rt: HostRuntime) -> Result<(), Fail> {
    let text = after_declared(rt.alloc(), b"print i\ndone\nadd i i one\nend\n")?;
    expect_refusal(&rt, text.as_slice(), 12, SyncRefusalCause::Open);
    Ok(())
}

#[test]
fn a_change_of_a_reference_under_its_monitor_is_refused(rt: HostRuntime) -> Result<(), Fail> {
    let text = after_declared(rt.alloc(), b"ref o a\ndone\nadd i i one\ndone\nend\n")?;
    expect_refusal(&rt, text.as_slice(), 14, SyncRefusalCause::Assigned);
    Ok(())
}
