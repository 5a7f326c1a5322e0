//! What the lines of blocks make of the blocks that are open.

ghost use Rattle.std.specs.Prelude.{◌≡◌, true, IfOk};
ghost use Rattle.std.specs.List.{list_any};
ghost use Rattle.sync_source.specs.BlockView.{before, all_of};
ghost use Rattle.sync_source.specs.Source.{Nothing, Plain};
ghost use Rattle.sync_source.specs.Valid.{assigns};
ghost use Rattle.sync_syntax.specs.Blocks.{no_blocks, with_statement, with_block, with_else, without_block, closed};
ghost use Rattle.sync_syntax.specs.Blocks.{takes_else, takes_done, changes_local, changes_held};
ghost use Rattle.sync_syntax.specs.inner.Views.{opener_of, blocks_of};

use crate::block::{Blocks, OpenBlock, Opener};
use object_program::Code;
use plain_monitor::NoMemory;
use std::alloc::Global;
use sync_source::{Block, Statement};

/// The blocks of a section without lines.
pub fn no_blocks(alloc: Global) -> Blocks
    ensures { blocks_of result ≡ no_blocks }
{
    Blocks {
        opened: Vec::new(alloc),
        statements: Vec::new(alloc),
    }
}

/// With one more instruction.
///
/// # Errors
///
/// `NoMemory` where an allocation fails.
pub fn with_instruction(mut blocks: Blocks, code: Code) -> Result<Blocks, NoMemory>
    ensures { IfOk result (λ b. blocks_of b ≡ with_statement (blocks_of blocks) (Plain code Nothing)) }
{
    match blocks.statements.push(Statement::Plain(code)) {
        Ok(()) => Ok(blocks),
        Err(_) => Err(NoMemory),
    }
}

/// With one more block.
///
/// # Errors
///
/// `NoMemory` where an allocation fails.
pub fn with_block(alloc: Global, blocks: Blocks, opener: Opener) -> Result<Blocks, NoMemory>
    ensures { IfOk result (λ b. blocks_of b ≡ with_block (blocks_of blocks) (opener_of opener)) }
{
    let Blocks {
        mut opened,
        statements: earlier,
    } = blocks;
    match opened.push(OpenBlock { opener, earlier }) {
        Ok(()) => Ok(Blocks {
            opened,
            statements: Vec::new(alloc),
        }),
        Err(_) => Err(NoMemory),
    }
}

/// Closes the innermost block, by its `done`.
///
/// # Errors
///
/// `NoMemory` where an allocation fails.
pub fn without_block(alloc: Global, blocks: Blocks) -> Result<Blocks, NoMemory>
    ensures { IfOk result (λ b. blocks_of b ≡ without_block (blocks_of blocks).opened (blocks_of blocks).statements) }
{
    let Blocks {
        mut opened,
        statements,
    } = blocks;
    let Some(
        OpenBlock {
            opener,
            mut earlier,
        },
    ) = opened.pop()
    else {
        return Ok(Blocks { opened, statements });
    };
    match earlier.push(closed(alloc, opener, statements)) {
        Ok(()) => Ok(Blocks {
            opened,
            statements: earlier,
        }),
        Err(_) => Err(NoMemory),
    }
}

/// The statement that a block with these statements is.
fn closed(alloc: Global, opener: Opener, statements: Vec<Statement>) -> Statement
    ensures { before result Nothing ≡ closed (opener_of opener) (all_of statements.items) }
{
    let body = Block { statements };
    match opener {
        Opener::Sync { local } => Statement::Sync { local, body },
        Opener::If { test } => Statement::If {
            test,
            body,
            other: Block {
                statements: Vec::new(alloc),
            },
        },
        Opener::Else { test, held } => Statement::If {
            test,
            body: Block { statements: held },
            other: body,
        },
        Opener::While { test } => Statement::While { test, body },
    }
}

/// Ends the first part of the innermost `if`, by its `else`.
///
/// # Errors
///
/// `NoMemory` where an allocation fails.
pub fn with_else(alloc: Global, blocks: Blocks) -> Result<Blocks, NoMemory>
    requires { takes_else (blocks_of blocks).opened ≡ true }
    ensures { IfOk result (λ b. blocks_of b ≡ with_else (blocks_of blocks).opened (blocks_of blocks).statements) }
{
    let Blocks {
        mut opened,
        statements: held,
    } = blocks;
    let Some(
        OpenBlock {
            opener: Opener::If { test },
            earlier,
        },
    ) = opened.pop()
    else {
        unreachable!();
    };
    let opener = Opener::Else { test, held };
    match opened.push(OpenBlock { opener, earlier }) {
        Ok(()) => Ok(Blocks {
            opened,
            statements: Vec::new(alloc),
        }),
        Err(_) => Err(NoMemory),
    }
}

/// Whether an `else` may follow.
pub fn takes_else(blocks: &Blocks) -> bool
    ensures { result ≡ takes_else (blocks_of blocks.now).opened }
{
    match blocks.opened.as_slice().split_last() {
        Some((innermost, _)) => matches!(innermost.opener, Opener::If { .. }),
        None => false,
    }
}

/// Whether a `done` may follow.
pub fn takes_done(blocks: &Blocks) -> bool
    ensures { result ≡ takes_done (blocks_of blocks.now).opened }
{
    blocks.opened.as_slice().split_last().is_some()
}

/// Whether the instruction gives a value to a local that an open `sync` names.
pub fn changes_held(blocks: &Blocks, code: &Code) -> bool
    ensures { result ≡ changes_held code.now (blocks_of blocks.now).opened }
{
    some_changes(blocks.opened.as_slice(), code)
}

/// Whether it gives a value to a local that an open `sync` among these blocks names.
fn some_changes(opened: &[OpenBlock], code: &Code) -> bool
    ensures { result ≡ list_any (λ b. changes_local code.now (opener_of b.opener)) opened.now }
{
    opened.iter().any(|b| changes_local(code, &b.opener))
}

/// Whether the instruction gives a value to the local that this `sync` names.
fn changes_local(code: &Code, opener: &Opener) -> bool
    ensures { result ≡ changes_local code.now (opener_of opener.now) }
{
    match opener {
        Opener::Sync { local } => assigns(*local, code),
        _ => false,
    }
}

/// Whether the instruction gives a value to the local.
fn assigns(local: u32, code: &Code) -> bool
    ensures { result ≡ assigns local code.now }
{
    match code {
        Code::Set { x, .. } | Code::Ref { x, .. } | Code::Elem { x, .. } => *x == local,
        Code::Add { x, .. } | Code::Sub { x, .. } | Code::Mul { x, .. } => *x == local,
        Code::Get { x, .. } | Code::Hash { x, .. } | Code::New { x, .. } => *x == local,
        _ => false,
    }
}
