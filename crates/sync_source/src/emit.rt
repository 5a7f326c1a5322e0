//! The instructions of blocks.

ghost use Rattle.std.specs.Prelude.{◌≡◌, ◌+◌, ◌<◌, ◌≤◌, ◌^◌, [], ◌∷◌, ◌++◌, length, OnOk};
ghost use Rattle.object_program.specs.Limits.{most_code};
ghost use Rattle.object_program.specs.declared.program.Code.TheVariants as instr;
ghost use Rattle.sync_source.specs.BlockView.{before, all_of};
ghost use Rattle.sync_source.specs.Source.{Nothing, Sync, If, While};
ghost use Rattle.sync_source.specs.Compiled.{size, code_at, test_code};

use crate::source::{Block, Statement, Test};
use object_program::Code;
use std::alloc::AllocError;

/// How many instructions the block needs.
#[cycle(sizes)]
fn block_size(block: &Block) -> usize
    requires fits { size (all_of block.now.statements.items) < 2 ^ 32 }
    ensures { result ≡ size (all_of block.now.statements.items) }
{
    let mut sum = 0;
    for statement in &block.statements {
        sum += statement_size(statement);
    }
    sum
}

/// How many instructions the statement needs.
#[cycle(sizes)]
fn statement_size(statement: &Statement) -> usize
    requires fits { size (before statement.now Nothing) < 2 ^ 32 }
    ensures { result ≡ size (before statement.now Nothing) }
{
    match statement {
        Statement::Plain(_) => 1,
        Statement::Sync { body, .. } => 2 + block_size(body),
        Statement::If { body, other, .. } => 2 + block_size(other) + block_size(body),
        Statement::While { body, .. } => 3 + block_size(body),
    }
}

/// Writes the instructions of the block after these.
///
/// # Errors
///
/// `AllocError` where an allocation fails.
#[cycle(emit)]
pub fn emit_block(code: &mut Vec<Code>, block: &Block) -> Result<(), AllocError>
    requires fits { length code.old.items + size (all_of block.now.statements.items) ≤ most_code }
    ensures { OnOk result (code.new.items
        ≡ code.old.items ++ code_at (length code.old.items) (all_of block.now.statements.items)) }
{
    for statement in &block.statements {
        emit_statement(code, statement)?;
    }
    Ok(())
}

/// Writes those of the statement.
#[cycle(emit)]
fn emit_statement(code: &mut Vec<Code>, statement: &Statement) -> Result<(), AllocError>
    requires fits { length code.old.items + size (before statement.now Nothing) ≤ most_code }
    ensures { OnOk result (code.new.items
        ≡ code.old.items ++ code_at (length code.old.items) (before statement.now Nothing)) }
{
    match statement {
        Statement::Plain(instruction) => put(code, *instruction),
        Statement::Sync { local, body } => emit_sync(code, *local, body),
        Statement::If { test, body, other } => emit_if(code, *test, body, other),
        Statement::While { test, body } => emit_while(code, *test, body),
    }
}

/// An enter, the block, and an exit.
#[cycle(emit)]
fn emit_sync(code: &mut Vec<Code>, local: u32, body: &Block) -> Result<(), AllocError>
    requires fits { length code.old.items + 2 + size (all_of body.now.statements.items) ≤ most_code }
    ensures { OnOk result (code.new.items
        ≡ code.old.items ++ code_at (length code.old.items) (Sync local (all_of body.now.statements.items) Nothing)) }
{
    put(code, Code::Enter { x: local })?;
    emit_block(code, body)?;
    put(code, Code::Exit { x: local })
}

/// The test, the `else`, a jump past the block, and the block.
#[cycle(emit)]
fn emit_if(code: &mut Vec<Code>, test: Test, body: &Block, other: &Block) -> Result<(), AllocError>
    requires fits { length code.old.items + 2 + size (all_of other.now.statements.items)
        + size (all_of body.now.statements.items) ≤ most_code }
    ensures { OnOk result (code.new.items ≡ code.old.items ++ code_at (length code.old.items)
        (If test (all_of body.now.statements.items) (all_of other.now.statements.items) Nothing)) }
{
    let held = code.len() + 1 + block_size(other) + 1;
    let past = held + block_size(body);
    put(code, jump_where(test, held))?;
    emit_block(code, other)?;
    put(code, jump_to(past))?;
    emit_block(code, body)
}

/// The test, a jump past the loop, the block, and a jump to the test.
#[cycle(emit)]
fn emit_while(code: &mut Vec<Code>, test: Test, body: &Block) -> Result<(), AllocError>
    requires fits { length code.old.items + 3 + size (all_of body.now.statements.items) ≤ most_code }
    ensures { OnOk result (code.new.items
        ≡ code.old.items ++ code_at (length code.old.items) (While test (all_of body.now.statements.items) Nothing)) }
{
    let again = code.len();
    let held = again + 1 + 1;
    let past = held + block_size(body) + 1;
    put(code, jump_where(test, held))?;
    put(code, jump_to(past))?;
    emit_block(code, body)?;
    put(code, jump_to(again))
}

/// Goes on after this many instructions where the test holds.
fn jump_where(test: Test, place: usize) -> Code
    requires { place ≤ most_code }
    ensures { result ≡ test_code test place }
{
    let l = place as u32 + 1;
    if test.equal {
        Code::Jeq {
            x: test.x,
            y: test.y,
            l,
        }
    } else {
        Code::Jlt {
            x: test.x,
            y: test.y,
            l,
        }
    }
}

/// Goes on after this many instructions.
fn jump_to(place: usize) -> Code
    requires { place ≤ most_code }
    ensures { result ≡ instr.Jump (place + 1) }
{
    Code::Jump {
        l: place as u32 + 1,
    }
}

/// Writes one more instruction.
fn put(code: &mut Vec<Code>, instruction: Code) -> Result<(), AllocError>
    ensures { OnOk result (code.new.items ≡ code.old.items ++ instruction ∷ []) }
{
    code.push(instruction)?;
    Ok(())
}
