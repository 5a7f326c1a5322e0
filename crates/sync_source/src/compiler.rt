//! From programs with blocks to programs.

ghost use Rattle.std.specs.Prelude.{◌≡◌, ◌≤◌, ◌∷◌, [], ◌++◌, length, map, decimal, IfOk};
ghost use Rattle.object_program.specs.Limits.{most_code};
ghost use Rattle.object_program.specs.Valid.{IsProgram};
ghost use Rattle.sync_source.specs.SourceView.{thread_text, sync_text};
ghost use Rattle.sync_source.specs.Compiled.{size, thread_code, compiled};
ghost use Rattle.sync_source.specs.SameMeaning.{DoesTheSame};
ghost use Rattle.sync_source.specs.BlockView.{all_of};
ghost use Rattle.std.specs.List.{AllByRecursion};

use crate::emit::emit_block;
use crate::label::labels;
use crate::laws::code_does_what_its_blocks_do;
use crate::source::{SyncProgram, SyncThread};
use object_program::{ClassDef, ObjectDef, Program, ThreadDef};
use plain_monitor::{List, NoMemory};
use std::alloc::{AllocError, Global};

/// The code of a program with blocks. With any fuel the same logs are legal for both, but for the indexes of traps, which in code are the
/// numbers of its instructions; and after legal logs each thread asks the same of the same objects.
///
/// Classes, objects and threads keep their order, names and locals. A `Sync` becomes an enter, its block and an exit; an `If` its test, its
/// `else`, a jump past its block, and its block; a `While` its test, a jump past the loop, its block, and a jump to the test. Each
/// instruction that a jump or a test may go to has one label, `L` and its number in the thread, from 1; labels go by rising numbers.
///
/// # Errors
///
/// `NoMemory` where an allocation fails.
pub fn compile(alloc: Global, source: &SyncProgram) -> Result<Program, NoMemory>
    ensures code { IfOk result (λ p. p ≡ compiled decimal (sync_text source.now)) }
    ensures same { IfOk result (λ p. DoesTheSame (sync_text source.now) p) }
{
    let classes = copy(alloc, source.classes.items()).map_err(|_| NoMemory)?;
    let objects = copy(alloc, source.objects.items()).map_err(|_| NoMemory)?;
    let threads = compile_threads(alloc, source.threads.items()).map_err(|_| NoMemory)?;
    Ok(assemble(source, classes, objects, threads))
}

/// The program of these classes, objects and threads, which are those of the code.
fn assemble(
    source: &SyncProgram,
    classes: List<ClassDef>,
    objects: List<ObjectDef>,
    threads: List<ThreadDef>,
) -> Program
    requires classes { classes ≡ source.now.classes }
    requires objects { objects ≡ source.now.objects }
    requires threads { threads ≡ map (thread_code decimal) (map thread_text source.now.threads) }
    ensures code { result ≡ compiled decimal (sync_text source.now) }
    ensures same { DoesTheSame (sync_text source.now) result }
{
    code_does_what_its_blocks_do();
    // A look at a field tells the proof what holds of every `SyncProgram`.
    let _ = &source.threads;
    Program {
        classes,
        objects,
        threads,
    }
}

/// The code of the threads, each in its place.
fn compile_threads(alloc: Global, threads: &[SyncThread]) -> Result<List<ThreadDef>, AllocError>
    requires fits { AllByRecursion (λ t. size (all_of t.body.statements.items) ≤ most_code) threads.now }
    ensures { IfOk result (λ compiled. compiled ≡ map (thread_code decimal) (map thread_text threads.now)) }
{
    let mut compiled = Vec::new(alloc);
    for thread in threads {
        compiled.push(compile_thread(alloc, thread)?)?;
    }
    Ok(List::of(compiled))
}

/// The code of the thread.
fn compile_thread(alloc: Global, thread: &SyncThread) -> Result<ThreadDef, AllocError>
    requires fits { size (all_of thread.now.body.statements.items) ≤ most_code }
    ensures { IfOk result (λ compiled. compiled ≡ thread_code decimal (thread_text thread.now)) }
{
    let mut code = Vec::new(alloc);
    emit_block(&mut code, &thread.body)?;
    let labels = labels(alloc, code.as_slice())?;
    Ok(ThreadDef {
        name: thread.name,
        locals: copy(alloc, thread.locals.items())?,
        labels: List::of(labels),
        code: List::of(code),
    })
}

/// A copy of the items.
fn copy<T: Copy>(alloc: Global, items: &[T]) -> Result<List<T>, AllocError>
    ensures { IfOk result (λ copied. copied ≡ items.now) }
{
    Ok(List::of(Vec::from_slice(alloc, items)?))
}
