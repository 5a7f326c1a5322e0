//! Texts that are read, and the programs that they have.

use crate::texts::{is_read, read};
use object_program::{Code, Name, Program, ThreadDef};
use std::process::Abort;

/// Lines that are read: with tabs, CR, comments, no line feed at the end, and names that several spaces share.
const ALLOWED: &[&[u8]] = &[
    b"thread t\nend",
    b"thread t\r\nend\r",
    b"\t thread\t t \t\n  end\t",
    b"thread t#no blank before it\n# a line\n\nend # done",
    b"\
class n 1
object n n
thread n
local n
label n
jump n
end
",
    b"\
thread t
local x
set x -0
set x 0000000000000000001
set x -2305843009213693952
end
",
    b"\
thread t
label l
end
thread u
jump l
label l
end
",
    b"\
thread t
end
class n 1
thread u
local n
new n n
end
",
];

#[test]
fn allowed_texts_are_read(rt: HostRuntime) {
    for text in ALLOWED {
        assert!(rt; is_read(rt.alloc(), text));
    }
}

/// Each instruction with its operands, and labels before and after the jumps.
const EACH_INSTRUCTION: &[u8] = b"\
class C 3
class D 0
array s C 4
object a C
thread t
local x
local y
local z
label top
set x 7
add x y z
sub y z x
mul z x y
ref x a
elem y s z
enter x
exit x
wait x
notify x
notifyall x
get z x 2
put x 1 z
label mid
label also
hash y x
new z D
print y
jump top
jlt x y low
jeq y z also
dump
label low
end
";

/// What these lines are, and the targets of the labels.
const EACH_CODE: &[Code] = &[
    Code::Set { x: 0, v: 7 },
    Code::Add { x: 0, y: 1, z: 2 },
    Code::Sub { x: 1, y: 2, z: 0 },
    Code::Mul { x: 2, y: 0, z: 1 },
    Code::Ref { x: 0, n: 1 },
    Code::Elem { x: 1, n: 0, i: 2 },
    Code::Enter { x: 0 },
    Code::Exit { x: 0 },
    Code::Wait { x: 0 },
    Code::Notify { x: 0 },
    Code::NotifyAll { x: 0 },
    Code::Get { x: 2, o: 0, k: 2 },
    Code::Put { o: 0, k: 1, x: 2 },
    Code::Hash { x: 1, o: 0 },
    Code::New { x: 2, c: 1 },
    Code::Print { x: 1 },
    Code::Jump { l: 1 },
    Code::Jlt { x: 0, y: 1, l: 21 },
    Code::Jeq { x: 1, y: 2, l: 14 },
    Code::Dump,
    Code::End,
];

const TARGETS: &[u32] = &[1, 14, 14, 21];

/// Ends the test where the thread has other instructions.
fn expect_code(rt: &impl Abort, thread: &ThreadDef, code: &[Code]) {
    assert!(rt; thread.code.items() == code);
}

/// Ends the test where the labels of the thread have other targets.
fn expect_targets(rt: &impl Abort, thread: &ThreadDef, targets: &[u32]) {
    assert!(rt; thread.labels.items().len() == targets.len());
    for (label, target) in thread.labels.items().iter().zip(targets) {
        assert!(rt; label.index == *target);
    }
}

#[test]
fn each_instruction_is_read(rt: HostRuntime) {
    let program = read(&rt, EACH_INSTRUCTION);
    let Some(thread) = program.threads.items().first() else {
        panic!(rt; "no thread")
    };
    expect_code(&rt, thread, EACH_CODE);
    expect_targets(&rt, thread, TARGETS);
}

/// Two classes, two objects, and an array of four between them.
const DECLARED: &[u8] = b"\
class C 3
class D 0
object a D
array s C 4
object b D
thread t
end
";

/// The number of an object, its class, its slots and its place.
type Placed = (u32, u32, u32, (u32, u32));

const PLACES: &[Placed] = &[
    (0, 1, 0, (0, 0)),
    (1, 0, 3, (1, 0)),
    (4, 0, 3, (1, 3)),
    (5, 1, 0, (2, 0)),
];

/// Ends the test where the program declares and makes other numbers of objects.
fn expect_totals(rt: &impl Abort, program: &Program, declared: u32, all: u32, slots: u32) {
    assert!(rt; program.declared_total() == declared);
    assert!(rt; program.objects_total() == all);
    assert!(rt; program.made_slots() == slots);
}

/// Ends the test where the program has another class, slots or place for the object, where it declares that.
fn expect_place(rt: &impl Abort, program: &Program, placed: &Placed) {
    let (o, class, slots, place) = *placed;
    if o < program.declared_total() {
        let is_as_due = program.class_of(o) == class
            && program.slots_of(o) == slots
            && program.place_of(o) == place;
        assert!(rt; is_as_due, "{o}");
    }
}

/// A copy of a text's program; the test ends where there is none.
fn copied<R: Abort + AllocGlobal>(rt: &R, text: &[u8]) -> Program {
    let program = read(rt, text);
    match program.try_clone(rt.alloc()) {
        Ok(copy) => copy,
        Err(_) => panic!(rt; "no copy"),
    }
}

/// Ends the test where one of the objects isn't in its place.
fn expect_places(rt: &impl Abort, program: &Program, places: &[Placed]) {
    for place in places {
        expect_place(rt, program, place);
    }
}

/// Objects go by the lines that declare them, arrays with all of their elements.
#[test]
fn objects_go_by_the_lines_that_declare_them(rt: HostRuntime) {
    let program = copied(&rt, DECLARED);
    expect_totals(&rt, &program, 6, 6, 0);
    expect_places(&rt, &program, PLACES);
}

/// Threads of which one makes objects of two classes, and none makes one of the largest.
const MAKING: &[u8] = b"\
class C 3
class D 5
class E 9
object a E
thread t
local x
new x D
new x C
end
thread u
end
";

/// Each thread has numbers for the objects that it makes, where some thread makes one. Their slots are those of the largest
/// class that a `new` names.
#[test]
fn made_objects_have_the_slots_of_the_largest_class(rt: HostRuntime) {
    let program = read(&rt, MAKING);
    expect_totals(&rt, &program, 1, 2049, 5);
}

/// The name of these bytes; the test ends where they aren't one, or where it has others.
fn name(rt: &impl Abort, bytes: &[u8]) -> Name {
    let Some(name) = Name::new(bytes) else {
        panic!(rt; "no name")
    };
    assert!(rt; name.bytes() == bytes);
    name
}

/// Ends the test where the first name doesn't equal itself alone, or isn't the lesser one.
fn expect_less(rt: &impl Abort, first: &Name, second: &Name) {
    assert!(rt; *first == *first && *first != *second && *first < *second);
}

/// Ends the test where these bytes are a name and shouldn't be, or the other way round.
fn expect_named(rt: &impl Abort, bytes: &[u8], is_name: bool) {
    let size = bytes.len();
    assert!(rt; Name::new(bytes).is_some() == is_name, "{size} bytes");
}

#[test]
fn names_are_compared_and_wrong_ones_refused(rt: HostRuntime) {
    let first = name(&rt, b"_a1");
    let second = name(&rt, b"_a2");
    expect_less(&rt, &first, &second);
    expect_named(&rt, b"1a", false);
    expect_named(&rt, b"", false);
    expect_named(&rt, &[b'a'; 32], true);
    expect_named(&rt, &[b'a'; 33], false);
}
