//! The threads of the handover program.

ghost use Rattle.std.specs.Prelude.{◌≡◌, true, IfOk};
ghost use Rattle.object_program.specs.Name.{is_name};
ghost use Rattle.handover_program.specs.inner.HandoverProgram as spec;

use object_program::{Code, LabelDef, Name, ThreadDef};
use plain_monitor::List;
use std::alloc::{AllocError, Global};

/// The declarations of objects.
const ITEMS: u32 = 0;

const FLAG: u32 = 1;

/// The locals of each thread: the flag, the item, the number of the item, how many items there are, the two values that the flag
/// gets, and the one that it has.
const F: u32 = 0;

const O: u32 = 1;

const I: u32 = 2;

const N: u32 = 3;

const ONE: u32 = 4;

const TWO: u32 = 5;

const S: u32 = 6;

/// Takes the item with the number that comes next.
const TAKE: Code = Code::Elem {
    x: O,
    n: ITEMS,
    i: I,
};

/// Counts the item.
const NEXT: Code = Code::Add { x: I, y: I, z: ONE };

/// The second thread goes on where the flag says that the items are handed over.
const HANDED_OVER: Code = Code::Jeq {
    x: S,
    y: ONE,
    l: 11,
};

/// The first thread goes on where the flag says that they are handed back.
const HANDED_BACK: Code = Code::Jeq {
    x: S,
    y: TWO,
    l: 18,
};

/// The first thread, which has the items first and last.
///
/// # Errors
///
/// `AllocError` where an allocation fails.
pub fn first(alloc: Global, items: u32) -> Result<ThreadDef, AllocError>
    ensures { IfOk result (λ t. t ≡ spec.first_thread items) }
{
    let labels = [
        label(b"a", 6),
        label(b"b", 14),
        label(b"c", 18),
        label(b"d", 22),
        label(b"e", 27),
    ];
    Ok(ThreadDef {
        name: Name::of(b"t1"),
        locals: locals(alloc)?,
        labels: List::of(Vec::from_slice(alloc, &labels)?),
        code: first_code(alloc, items)?,
    })
}

/// The second thread, which has the items in between.
///
/// # Errors
///
/// `AllocError` where an allocation fails.
pub fn second(alloc: Global, items: u32) -> Result<ThreadDef, AllocError>
    ensures { IfOk result (λ t. t ≡ spec.second_thread items) }
{
    let labels = [label(b"a", 7), label(b"b", 11), label(b"c", 12)];
    Ok(ThreadDef {
        name: Name::of(b"t2"),
        locals: locals(alloc)?,
        labels: List::of(Vec::from_slice(alloc, &labels)?),
        code: second_code(alloc, items)?,
    })
}

/// The names of the locals.
fn locals(alloc: Global) -> Result<List<Name>, AllocError>
    ensures { IfOk result (λ names. names ≡ spec.locals) }
{
    let names = [
        Name::of(b"f"),
        Name::of(b"o"),
        Name::of(b"i"),
        Name::of(b"n"),
        Name::of(b"one"),
        Name::of(b"two"),
        Name::of(b"s"),
    ];
    Ok(List::of(Vec::from_slice(alloc, &names)?))
}

/// A label with this name that names this instruction.
fn label(bytes: &[u8], index: u32) -> LabelDef
    requires { is_name bytes.now ≡ true }
    ensures { result ≡ spec.label bytes.now index }
{
    LabelDef {
        name: Name::of(bytes),
        index,
    }
}

/// The instructions of the first thread.
fn first_code(alloc: Global, items: u32) -> Result<List<Code>, AllocError>
    ensures { IfOk result (λ code. code ≡ spec.first_code items) }
{
    let v = i64::from(items);
    let code = [
        Code::Ref { x: F, n: FLAG },
        Code::Set { x: I, v: 0 },
        Code::Set { x: N, v },
        Code::Set { x: ONE, v: 1 },
        Code::Set { x: TWO, v: 2 },
        TAKE,
        Code::Enter { x: O },
        Code::Exit { x: O },
        NEXT,
        Code::Jlt { x: I, y: N, l: 6 },
        Code::Enter { x: F },
        Code::Put { o: F, k: 0, x: ONE },
        Code::NotifyAll { x: F },
        Code::Get { x: S, o: F, k: 0 },
        HANDED_BACK,
        Code::Wait { x: F },
        Code::Jump { l: 14 },
        Code::Exit { x: F },
        Code::Set { x: I, v: 19 },
        Code::Jlt { x: I, y: N, l: 22 },
        Code::Jump { l: 27 },
        TAKE,
        Code::Enter { x: O },
        Code::Exit { x: O },
        NEXT,
        Code::Jlt { x: I, y: N, l: 22 },
        Code::Print { x: N },
        Code::End,
    ];
    Ok(List::of(Vec::from_slice(alloc, &code)?))
}

/// The instructions of the second thread.
fn second_code(alloc: Global, items: u32) -> Result<List<Code>, AllocError>
    ensures { IfOk result (λ code. code ≡ spec.second_code items) }
{
    let v = i64::from(items);
    let code = [
        Code::Ref { x: F, n: FLAG },
        Code::Set { x: I, v: 0 },
        Code::Set { x: N, v },
        Code::Set { x: ONE, v: 1 },
        Code::Set { x: TWO, v: 2 },
        Code::Enter { x: F },
        Code::Get { x: S, o: F, k: 0 },
        HANDED_OVER,
        Code::Wait { x: F },
        Code::Jump { l: 7 },
        Code::Exit { x: F },
        TAKE,
        Code::Enter { x: O },
        Code::Exit { x: O },
        NEXT,
        Code::Jlt { x: I, y: N, l: 12 },
        Code::Enter { x: F },
        Code::Put { o: F, k: 0, x: TWO },
        Code::NotifyAll { x: F },
        Code::Exit { x: F },
        Code::End,
    ];
    Ok(List::of(Vec::from_slice(alloc, &code)?))
}
