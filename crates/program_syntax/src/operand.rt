//! What the operands of a line have to be.

/// The spaces that names are declared in.
#[derive(Clone, Copy)]
pub enum Space {
    Classes,
    /// Objects and arrays together.
    Objects,
    Threads,
    /// The locals of the section.
    Locals,
    /// The labels of the section.
    Labels,
}

/// What an operand has to be.
#[derive(Clone, Copy)]
pub enum Operand {
    /// A name that its space doesn't have yet.
    New(Space),
    /// A name that its space has.
    Known(Space),
    /// A number from the first to the second.
    Number(i64, i64),
}

/// What an operand is tested for.
#[derive(Clone, Copy)]
pub enum Test {
    /// It stands in a name's place and isn't a name.
    BadName,
    /// It is to be a new name, and its space has it.
    Twice,
    /// It is to be a name of its space, and isn't.
    Undeclared,
    /// It stands in a number's place and isn't a number of the range.
    BadNumber,
}
