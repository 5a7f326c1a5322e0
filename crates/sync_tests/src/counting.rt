//! The program that counts to two under a monitor.

ghost use Rattle.std.specs.Prelude.{◌≡◌, IfOk};
ghost use Rattle.sync_source.specs.BlockView.{all_of};
ghost use Rattle.sync_tests.specs.Counting.{round, counting};

use object_program::{ClassDef, Code, Name, ObjectDef};
use plain_monitor::List;
use std::alloc::{AllocError, Global};
use sync_source::{Block, Statement, SyncProgram, SyncThread, Test};

/// `sync o`, `print i`, `done`, `add i i one`.
fn round(alloc: Global) -> Result<Block, AllocError>
    ensures { IfOk result (λ block. all_of block.statements.items ≡ round) }
{
    let mut guarded = Vec::new(alloc);
    guarded.push(Statement::Plain(Code::Print { x: 1 }))?;
    let mut statements = Vec::new(alloc);
    statements.push(Statement::Sync {
        local: 0,
        body: Block {
            statements: guarded,
        },
    })?;
    statements.push(Statement::Plain(Code::Add { x: 1, y: 1, z: 3 }))?;
    Ok(Block { statements })
}

/// `ref o a`, `set i 0`, `set n 2`, `set one 1`, `while i < n` with the round, `end`.
fn body(alloc: Global) -> Result<Block, AllocError>
    ensures { IfOk result (λ block. all_of block.statements.items ≡ counting) }
{
    let mut statements = Vec::new(alloc);
    statements.push(Statement::Plain(Code::Ref { x: 0, n: 0 }))?;
    statements.push(Statement::Plain(Code::Set { x: 1, v: 0 }))?;
    statements.push(Statement::Plain(Code::Set { x: 2, v: 2 }))?;
    statements.push(Statement::Plain(Code::Set { x: 3, v: 1 }))?;
    statements.push(Statement::While {
        test: Test {
            equal: false,
            x: 1,
            y: 2,
        },
        body: round(alloc)?,
    })?;
    statements.push(Statement::Plain(Code::End))?;
    Ok(Block { statements })
}

/// One class, one object, and a thread with that body.
pub fn counting_program(alloc: Global) -> Result<SyncProgram, AllocError> {
    let classes = [ClassDef {
        name: Name::of(b"C"),
        slots: 1,
    }];
    let objects = [ObjectDef {
        name: Name::of(b"a"),
        class: 0,
        first: 0,
        size: 1,
        array: false,
    }];
    let locals = [
        Name::of(b"o"),
        Name::of(b"i"),
        Name::of(b"n"),
        Name::of(b"one"),
    ];
    let mut threads = Vec::new(alloc);
    threads.push(SyncThread {
        name: Name::of(b"t1"),
        locals: List::of(Vec::from_slice(alloc, &locals)?),
        body: body(alloc)?,
    })?;
    Ok(SyncProgram {
        classes: List::of(Vec::from_slice(alloc, &classes)?),
        objects: List::of(Vec::from_slice(alloc, &objects)?),
        threads: List::of(threads),
    })
}
