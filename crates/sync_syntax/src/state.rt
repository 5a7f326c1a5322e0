//! What the reader knows between two lines.

ghost use Rattle.std.specs.Prelude.{◌≡◌, ◌≤◌};
ghost use Rattle.object_program.specs.Limits.{most_code};
ghost use Rattle.sync_syntax.specs.Blocks.{code_used};
ghost use Rattle.sync_syntax.specs.inner.Views.{blocks_of, IsBare};

use crate::block::Blocks;
use program_syntax::Reader;
use sync_source::SyncThread;

/// What the lines so far have declared.
#[derive(Drop)]
pub struct SyncReader {
    /// Names, as the plain language declares them.
    pub plain: Reader,
    /// The threads whose sections are closed.
    pub threads: Vec<SyncThread>,
    /// The statements of the section that is open.
    pub blocks: Blocks,
    /// How many instructions their code has, at most 4,096.
    pub used: usize,
    ghost bare: { IsBare plain.section },
    ghost used_is: { used ≡ code_used (blocks_of blocks) },
    ghost used_few: { used ≤ most_code },
}
