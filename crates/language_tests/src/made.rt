//! The text of the handover program, compared with one written by hand.

ghost use Rattle.std.specs.Prelude.{◌≤◌};

use crate::texts::written;
use example_programs::HANDOVER_40;
use handover_program::handover;
use object_program::Program;
use program_syntax::read_program;
use std::process::Abort;
use std::test::Fail;

/// The text that the program for this many items is written as.
fn text<R: Abort + AllocGlobal>(rt: &R, items: u32) -> Result<Vec<u8>, Fail>
    requires { (1 ≤ items) × (items ≤ 1500) }
{
    let program = handover(rt.alloc(), items)?;
    expect_objects(rt, &program, items);
    written(rt.alloc(), &program)
}

/// Ends the test where the program hasn't one object for each item, and one more.
fn expect_objects(rt: &impl Abort, program: &Program, items: u32)
    requires { items ≤ 1500 }
{
    assert_eq!(rt; program.objects_total(), items + 1, "for {items}");
}

#[test]
fn text_for_forty_items_is_the_one_written_by_hand(rt: HostRuntime) -> Result<(), Fail> {
    let made = text(&rt, 40)?;
    assert!(rt; made.as_slice() == HANDOVER_40.as_bytes());
    Ok(())
}

/// What is written of the program that is read from the text.
fn again<R: AllocGlobal>(rt: &R, text: &[u8]) -> Result<Vec<u8>, Fail> {
    let program = read_program(rt.alloc(), text)?;
    written(rt.alloc(), &program)
}

/// Ends the test where the text for this many items isn't that of the program which is read from it.
fn expect_again<R: Abort + AllocGlobal>(rt: &R, items: u32) -> Result<(), Fail>
    requires { (1 ≤ items) × (items ≤ 1500) }
{
    let made = text(rt, items)?;
    let again = again(rt, made.as_slice())?;
    assert!(rt; again.as_slice() == made.as_slice(), "for {items}");
    Ok(())
}

#[test]
fn fewest_and_most_items_have_texts_that_are_read_again(rt: HostRuntime) -> Result<(), Fail> {
    expect_again(&rt, 1)?;
    expect_again(&rt, 1_500)
}
