//! The canonical text of a program with blocks, written.

ghost use Rattle.std.specs.Prelude.{◌≡◌, ◌≤◌, ◌∷◌, ◌++◌, [], length, map, codes, if◌then◌else◌, OnOk, IfOk, Ok};
ghost use Rattle.std.specs.List.{flat_map};
ghost use Rattle.program_syntax.specs.Text.{most_bytes};
ghost use Rattle.program_syntax.specs.Canonical.{line_text};
ghost use Rattle.program_syntax.specs.Written.{lines_text};
ghost use Rattle.sync_source.specs.Source.{Nothing, Sync, If, While};
ghost use Rattle.sync_source.specs.BlockView.{before, all_of};
ghost use Rattle.sync_source.specs.SourceView.{thread_text, sync_text};
ghost use Rattle.sync_syntax.specs.Refusal.{sync_program_of};
ghost use Rattle.sync_syntax.specs.Canonical.{heading, sign_of, test_words, done_words, else_lines, statement_lines};
ghost use Rattle.sync_syntax.specs.Canonical.{section_lines, sync_lines, canonical_sync};
ghost use Rattle.sync_syntax.specs.inner.Written.{statements_text};

use crate::laws::canonical_texts_are_read_back;
use object_program::{ClassDef, ObjectDef, ThreadDef};
use plain_monitor::{List, NoMemory};
use program_syntax::{
    local_name, write_classes, write_instruction, write_line, write_objects, write_thread,
};
use std::alloc::Global;
use sync_source::{Block, Statement, SyncProgram, SyncThread, Test};

/// The canonical text of the program with blocks. Where that text has at most 1,048,576 bytes, it is read as this
/// very program.
///
/// # Errors
///
/// `NoMemory` where an allocation fails.
pub fn write_sync(alloc: Global, program: &SyncProgram) -> Result<Vec<u8>, NoMemory>
    ensures text { IfOk result (λ text. text.items ≡ canonical_sync (sync_text program.now)) }
    ensures read { length (canonical_sync (sync_text program.now)) ≤ most_bytes
        → sync_program_of (canonical_sync (sync_text program.now)) ≡ Ok (sync_text program.now) }
{
    canonical_texts_are_read_back();
    // A look at a field tells the proof what holds of every `SyncProgram`.
    let _ = &program.threads;
    let mut out = Vec::new(alloc);
    write_parts(alloc, program, &mut out)?;
    Ok(out)
}

/// Writes the lines of the program, part by part.
fn write_parts(alloc: Global, program: &SyncProgram, out: &mut Vec<u8>) -> Result<(), NoMemory>
    ensures { OnOk result (out.new.items ≡ out.old.items ++ lines_text (sync_lines (sync_text program.now))) }
{
    let classes = program.classes.items();
    let objects = program.objects.items();
    write_classes(classes, out)?;
    write_objects(classes, objects, out)?;
    write_threads(alloc, classes, objects, program.threads.items(), out)
}

/// Writes the sections of the threads.
fn write_threads(
    alloc: Global,
    classes: &[ClassDef],
    objects: &[ObjectDef],
    threads: &[SyncThread],
    out: &mut Vec<u8>,
) -> Result<(), NoMemory>
    ensures { OnOk result (out.new.items ≡ out.old.items
        ++ lines_text (flat_map (section_lines classes.now objects.now) (map thread_text threads.now))) }
{
    for thread in threads {
        write_section(alloc, classes, objects, thread, out)?;
    }
    Ok(())
}

/// Writes the section of a thread.
fn write_section(
    alloc: Global,
    classes: &[ClassDef],
    objects: &[ObjectDef],
    thread: &SyncThread,
    out: &mut Vec<u8>,
) -> Result<(), NoMemory>
    ensures { OnOk result (out.new.items ≡ out.old.items
        ++ lines_text (section_lines classes.now objects.now (thread_text thread.now))) }
{
    let heading = heading(alloc, thread)?;
    write_thread(classes, objects, &heading, out)?;
    write_block(classes, objects, &heading, &thread.body, out)
}

/// The thread as the plain language has it before its first statement.
fn heading(alloc: Global, thread: &SyncThread) -> Result<ThreadDef, NoMemory>
    ensures { IfOk result (λ h. h ≡ heading (thread_text thread.now)) }
{
    let Ok(locals) = Vec::from_slice(alloc, thread.locals.items()) else {
        return Err(NoMemory);
    };
    Ok(ThreadDef {
        name: thread.name,
        locals: List::of(locals),
        labels: List::of(Vec::new(alloc)),
        code: List::of(Vec::new(alloc)),
    })
}

/// Writes the lines of the block's statements.
#[cycle(lines)]
fn write_block(
    classes: &[ClassDef],
    objects: &[ObjectDef],
    thread: &ThreadDef,
    block: &Block,
    out: &mut Vec<u8>,
) -> Result<(), NoMemory>
    ensures { OnOk result (out.new.items ≡ out.old.items
        ++ statements_text classes.now objects.now thread.now (all_of block.now.statements.items)) }
{
    for statement in &block.statements {
        write_statement(classes, objects, thread, statement, out)?;
    }
    Ok(())
}

/// Writes the lines of the statement.
#[cycle(lines)]
fn write_statement(
    classes: &[ClassDef],
    objects: &[ObjectDef],
    thread: &ThreadDef,
    statement: &Statement,
    out: &mut Vec<u8>,
) -> Result<(), NoMemory>
    ensures { OnOk result (out.new.items ≡ out.old.items
        ++ statements_text classes.now objects.now thread.now (before statement.now Nothing)) }
{
    match statement {
        Statement::Plain(code) => write_instruction(classes, objects, thread, *code, out),
        Statement::Sync { local, body } => write_sync_block(
            classes, objects, thread, *local, body, out,
        ),
        Statement::If { test, body, other } => write_if(
            classes, objects, thread, *test, body, other, out,
        ),
        Statement::While { test, body } => write_while(classes, objects, thread, *test, body, out),
    }
}

/// Writes a `sync`, its block, and a `done`.
#[cycle(lines)]
fn write_sync_block(
    classes: &[ClassDef],
    objects: &[ObjectDef],
    thread: &ThreadDef,
    local: u32,
    body: &Block,
    out: &mut Vec<u8>,
) -> Result<(), NoMemory>
    ensures { OnOk result (out.new.items ≡ out.old.items
        ++ statements_text classes.now objects.now thread.now (Sync local (all_of body.now.statements.items) Nothing)) }
{
    let words: [&[u8]; 2] = [b"sync", local_name(thread.locals.items(), local)];
    write_line(out, &words)?;
    write_block(classes, objects, thread, body, out)?;
    write_done(out)
}

/// Writes an `if`, its block, its `else`, and a `done`.
#[cycle(lines)]
fn write_if(
    classes: &[ClassDef],
    objects: &[ObjectDef],
    thread: &ThreadDef,
    test: Test,
    body: &Block,
    other: &Block,
    out: &mut Vec<u8>,
) -> Result<(), NoMemory>
    ensures { OnOk result (out.new.items ≡ out.old.items ++ statements_text classes.now objects.now thread.now
        (If test (all_of body.now.statements.items) (all_of other.now.statements.items) Nothing)) }
{
    write_test(b"if", thread, test, out)?;
    write_block(classes, objects, thread, body, out)?;
    write_else(classes, objects, thread, other, out)?;
    write_done(out)
}

/// Writes an `else` and its block, where it has statements.
#[cycle(lines)]
fn write_else(
    classes: &[ClassDef],
    objects: &[ObjectDef],
    thread: &ThreadDef,
    other: &Block,
    out: &mut Vec<u8>,
) -> Result<(), NoMemory>
    ensures { OnOk result (out.new.items ≡ out.old.items
        ++ lines_text (else_lines (all_of other.now.statements.items)
        (statement_lines classes.now objects.now thread.now (all_of other.now.statements.items)))) }
{
    let bare = other.statements.is_empty();
    if bare {
        return Ok(());
    }
    write_line(out, &[b"else"])?;
    write_block(classes, objects, thread, other, out)
}

/// Writes a `while`, its block, and a `done`.
#[cycle(lines)]
fn write_while(
    classes: &[ClassDef],
    objects: &[ObjectDef],
    thread: &ThreadDef,
    test: Test,
    body: &Block,
    out: &mut Vec<u8>,
) -> Result<(), NoMemory>
    ensures { OnOk result (out.new.items ≡ out.old.items
        ++ statements_text classes.now objects.now thread.now (While test (all_of body.now.statements.items) Nothing)) }
{
    write_test(b"while", thread, test, out)?;
    write_block(classes, objects, thread, body, out)?;
    write_done(out)
}

/// Writes the line of a test that begins with this word.
fn write_test(
    word: &[u8],
    thread: &ThreadDef,
    test: Test,
    out: &mut Vec<u8>,
) -> Result<(), NoMemory>
    ensures { OnOk result (out.new.items ≡ out.old.items ++ line_text (test_words word.now thread.now test)) }
{
    let locals = thread.locals.items();
    let words: [&[u8]; 4] = [
        word,
        local_name(locals, test.x),
        sign_of(&test),
        local_name(locals, test.y),
    ];
    write_line(out, &words)
}

/// The sign of a test.
fn sign_of(test: &Test) -> &[u8]
    ensures { result.now ≡ sign_of test.now }
{
    if test.equal { b"=" } else { b"<" }
}

/// Writes the line that closes a block.
fn write_done(out: &mut Vec<u8>) -> Result<(), NoMemory>
    ensures { OnOk result (out.new.items ≡ out.old.items ++ line_text done_words) }
{
    write_line(out, &[b"done"])
}
