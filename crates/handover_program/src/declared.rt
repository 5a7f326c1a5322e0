//! What the handover program declares.

ghost use Rattle.std.specs.Prelude.{◌≡◌, IfOk};
ghost use Rattle.handover_program.specs.inner.HandoverProgram as spec;

use object_program::{ClassDef, Name, ObjectDef};
use plain_monitor::List;
use std::alloc::{AllocError, Global};

/// The class of the items and the class of the flag.
///
/// # Errors
///
/// `AllocError` where an allocation fails.
pub fn classes(alloc: Global) -> Result<List<ClassDef>, AllocError>
    ensures { IfOk result (λ all. all ≡ spec.classes) }
{
    let all = [
        ClassDef {
            name: Name::of(b"Item"),
            slots: 0,
        },
        ClassDef {
            name: Name::of(b"Flag"),
            slots: 1,
        },
    ];
    Ok(List::of(Vec::from_slice(alloc, &all)?))
}

/// The items, and the flag after them.
///
/// # Errors
///
/// `AllocError` where an allocation fails.
pub fn objects(alloc: Global, items: u32) -> Result<List<ObjectDef>, AllocError>
    ensures { IfOk result (λ all. all ≡ spec.objects items) }
{
    let all = [
        ObjectDef {
            name: Name::of(b"items"),
            class: 0,
            first: 0,
            size: items,
            array: true,
        },
        ObjectDef {
            name: Name::of(b"flag"),
            class: 1,
            first: items,
            size: 1,
            array: false,
        },
    ];
    Ok(List::of(Vec::from_slice(alloc, &all)?))
}
