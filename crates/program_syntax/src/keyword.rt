//! The words that lines begin with: how each is spelled, and what its operands have to be.

ghost use Rattle.std.specs.Prelude.{◌≡◌};
ghost use Rattle.program_syntax.specs.Line.{operands_of};

use crate::limits::{OBJECTS, SLOTS};
use crate::operand::{Operand, Space};
use plain_monitor::Value;

#[derive(Clone, Copy)]
pub enum Keyword {
    Class,
    Object,
    Array,
    Thread,
    Local,
    Label,
    Set,
    Add,
    Sub,
    Mul,
    Ref,
    Elem,
    Enter,
    Exit,
    Wait,
    Notify,
    NotifyAll,
    Get,
    Put,
    Hash,
    New,
    Print,
    Jump,
    Jlt,
    Jeq,
    Dump,
    End,
}

/// How each is spelled.
pub const SPELLINGS: &[(&[u8], Keyword)] = &[
    (b"class", Keyword::Class),
    (b"object", Keyword::Object),
    (b"array", Keyword::Array),
    (b"thread", Keyword::Thread),
    (b"local", Keyword::Local),
    (b"label", Keyword::Label),
    (b"set", Keyword::Set),
    (b"add", Keyword::Add),
    (b"sub", Keyword::Sub),
    (b"mul", Keyword::Mul),
    (b"ref", Keyword::Ref),
    (b"elem", Keyword::Elem),
    (b"enter", Keyword::Enter),
    (b"exit", Keyword::Exit),
    (b"wait", Keyword::Wait),
    (b"notify", Keyword::Notify),
    (b"notifyall", Keyword::NotifyAll),
    (b"get", Keyword::Get),
    (b"put", Keyword::Put),
    (b"hash", Keyword::Hash),
    (b"new", Keyword::New),
    (b"print", Keyword::Print),
    (b"jump", Keyword::Jump),
    (b"jlt", Keyword::Jlt),
    (b"jeq", Keyword::Jeq),
    (b"dump", Keyword::Dump),
    (b"end", Keyword::End),
];

const LOCAL: Operand = Operand::Known(Space::Locals);

const LABEL: Operand = Operand::Known(Space::Labels);

const SLOT: Operand = Operand::Number(0, SLOTS as i64 - 1);

/// The operands of a line with this keyword, in order.
pub fn operands_of(keyword: Keyword) -> &'static [Operand]
    ensures { result.now ≡ operands_of keyword }
{
    match keyword {
        Keyword::Class => &[
            Operand::New(Space::Classes),
            Operand::Number(0, SLOTS as i64),
        ],
        Keyword::Object => &[Operand::New(Space::Objects), Operand::Known(Space::Classes)],
        Keyword::Array => &[
            Operand::New(Space::Objects),
            Operand::Known(Space::Classes),
            Operand::Number(1, OBJECTS as i64),
        ],
        Keyword::Thread => &[Operand::New(Space::Threads)],
        Keyword::Local => &[Operand::New(Space::Locals)],
        Keyword::Label => &[Operand::New(Space::Labels)],
        Keyword::Set => &[LOCAL, Operand::Number(Value::LEAST, Value::GREATEST)],
        Keyword::Add | Keyword::Sub | Keyword::Mul => &[LOCAL, LOCAL, LOCAL],
        Keyword::Ref => &[LOCAL, Operand::Known(Space::Objects)],
        Keyword::Elem => &[LOCAL, Operand::Known(Space::Objects), LOCAL],
        Keyword::Enter | Keyword::Exit | Keyword::Wait => &[LOCAL],
        Keyword::Notify | Keyword::NotifyAll | Keyword::Print => &[LOCAL],
        Keyword::Get => &[LOCAL, LOCAL, SLOT],
        Keyword::Put => &[LOCAL, SLOT, LOCAL],
        Keyword::Hash => &[LOCAL, LOCAL],
        Keyword::New => &[LOCAL, Operand::Known(Space::Classes)],
        Keyword::Jump => &[LABEL],
        Keyword::Jlt | Keyword::Jeq => &[LOCAL, LOCAL, LABEL],
        Keyword::Dump | Keyword::End => &[],
    }
}
