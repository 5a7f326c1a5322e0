//! What the reader knows between two lines.

ghost use Rattle.std.specs.Prelude.{◌≡◌, ◌≤◌, length};
ghost use Rattle.object_program.specs.Limits.{most_classes, most_objects, most_locals, most_code};
ghost use Rattle.object_program.specs.Program.{total_of};

use crate::directory::Directory;
use object_program::{ClassDef, Code, LabelDef, Name, ObjectDef, ThreadDef};

/// The declarations of the lines so far.
#[derive(Drop)]
pub struct Declared {
    /// At most 64.
    pub classes: Directory<ClassDef>,
    pub objects: Directory<ObjectDef>,
    /// How many objects the declarations stand for, at most 4,096.
    pub total: u32,
    pub threads: Directory<ThreadDef>,
    ghost classes_few: { length classes ≤ most_classes },
    ghost objects_few: { length objects ≤ total },
    ghost total_is: { total ≡ total_of objects },
    ghost total_small: { total ≤ most_objects },
}

/// The open section of a thread.
#[derive(Drop)]
pub struct Section {
    pub name: Name,
    /// At most 32.
    pub locals: Directory<Name>,
    /// All labels of the section, those on its later lines too.
    pub labels: Directory<LabelDef>,
    /// How many of the labels stand on the lines so far.
    pub declared: usize,
    /// At most 4,096.
    pub code: Vec<Code>,
    ghost locals_few: { length locals ≤ most_locals },
    ghost code_few: { length code.items ≤ most_code },
}

/// What the lines so far have declared, and the section that is open.
#[derive(Drop)]
pub struct Reader {
    pub declared: Declared,
    pub section: Option<Section>,
}
