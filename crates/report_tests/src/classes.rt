//! The classes of the objects of a machine.

use object_program::Program;
use plain_machine::Machine;
use plain_monitor::NoMemory;
use program_syntax::read_program;
use std::process::Abort;
use std::test::Fail;

const TEXT: &[u8] = b"\
class C 0
class D 1
object a D
array s C 2
thread t
end
";

/// An object, and the class that it has.
const ROWS: &[(u32, Option<u32>)] = &[(0, Some(1)), (1, Some(0)), (2, Some(0)), (3, None)];

/// Expects the class of each row.
fn expect_classes(rt: &impl Abort, machine: &Machine) {
    for (o, class) in ROWS {
        assert_eq!(rt; machine.class_of(*o), *class, "of {o}");
    }
}

/// Expects them of the program's machine. The machine is large, as the program is, so this function holds it alone.
fn expect_classes_of<R: Abort + AllocGlobal>(rt: &R, program: &Program) -> Result<(), NoMemory> {
    let machine = Machine::new(rt.alloc(), program, 10)?;
    expect_classes(rt, &machine);
    Ok(())
}

#[test]
fn declared_objects_have_the_class_of_their_line(rt: HostRuntime) -> Result<(), Fail> {
    let program = read_program(rt.alloc(), TEXT)?;
    expect_classes_of(&rt, &program)?;
    Ok(())
}
