//! Programs that are made and not read.
//!
//! `handover` makes the handover program for a number of items; `specs/HandoverText.antt` has its text.
#![tactic(auto)]

ghost use Rattle.std.specs.Prelude.{◌≡◌, ◌≤◌, Ok, IfOk};
ghost use Rattle.program_syntax.specs.Canonical.{canonical};
ghost use Rattle.program_syntax.specs.Refusal.{program_of};
ghost use Rattle.handover_program.specs.HandoverText.{handover_text};
ghost use Rattle.handover_program.specs.inner.HandoverProgram.{handover_of_items};

mod declared;
mod threads;

use object_program::Program;
use plain_monitor::{List, NoMemory};
use std::alloc::{AllocError, Global};

/// The handover program for this many items. Its canonical text is `handover_text items`, and it is the program that
/// is read of that text.
///
/// Its first thread enters each item and hands over by a flag. The second thread enters each item after that and
/// hands back. The first thread then enters the items from the 20th on once more. In a run with biased locking the
/// items are biased to the first thread, and where they are enough, their class is rebiased in bulk on the way, and
/// then revoked in bulk.
///
/// # Errors
///
/// `NoMemory` where an allocation fails.
pub fn handover(alloc: Global, items: u32) -> Result<Program, NoMemory>
    requires some { 1 ≤ items }
    requires few { items ≤ 1500 }
    ensures text { IfOk result (λ p. canonical p ≡ handover_text items) }
    ensures read { IfOk result (λ p. program_of (handover_text items) ≡ Ok p) }
{
    match made(alloc, items) {
        Ok(program) => Ok(program),
        Err(_) => Err(NoMemory),
    }
}

/// The program of its parts.
fn made(alloc: Global, items: u32) -> Result<Program, AllocError>
    requires some { 1 ≤ items }
    requires few { items ≤ 1500 }
    ensures { IfOk result (λ p. p ≡ handover_of_items items) }
{
    let mut both = Vec::new(alloc);
    both.push(threads::first(alloc, items)?)?;
    both.push(threads::second(alloc, items)?)?;
    Ok(Program {
        classes: declared::classes(alloc)?,
        objects: declared::objects(alloc, items)?,
        threads: List::of(both),
    })
}
