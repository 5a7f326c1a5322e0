//! Laws that what is said of texts with blocks is refused where it is wrong. The functions do nothing.

ghost use Rattle.std.specs.Prelude.{◌≡◌, ◌<◌, [], length, Some, None, Ok, Err};
ghost use Rattle.program_syntax.specs.Refusal.{lines_of};
ghost use Rattle.program_syntax.specs.Text.{most_bytes};
ghost use Rattle.sync_source.specs.Examples.{changes_local, ends_inside, guarded};
ghost use Rattle.sync_source.specs.Source.{SyncText};
ghost use Rattle.sync_source.specs.Valid.{IsSyncText};
ghost use Rattle.sync_syntax.specs.Canonical.{canonical_sync};
ghost use Rattle.sync_syntax.specs.Examples.{unclosed};
ghost use Rattle.sync_syntax.specs.Reading.{SyncBefore, nothing_read};
ghost use Rattle.sync_syntax.specs.Refusal.{read_first, sync_program_of};
ghost use Rattle.sync_syntax.specs.declared.error.SyncRefusalCause.TheVariants.{Open, Assigned};

/// At the `done` of a block that block is open, so the conclusion of `no_block_is_open_at_an_end` isn't so at every line (`inside`). Where
/// the `done` is missing, the lines before the `end` have a cause, and so there is nothing that they declare (`unclosed`).
///
/// Refuses the conclusion of `no_block_is_open_at_an_end`.
pub fn a_block_is_open_at_its_done()
    ensures inside { ((b : SyncBefore) → read_first 8 nothing_read (lines_of (canonical_sync guarded)) ≡ Some b
        → b.blocks.opened ≡ []) → ⊥ }
    ensures unclosed { read_first 7 nothing_read (lines_of unclosed) ≡ None }
{}

/// What is no program with blocks is not read back from its text (`barred`), nor what has a text that is too long (`long`). So a block that
/// changes the local of its `sync`, whose text is refused at that line (`changed`), and one with an `end` in it, whose `sync` is refused
/// (`ended`).
///
/// Refuses the conclusion of `canonical_texts_are_read_back`.
pub fn no_text_is_read_back_as_what_is_no_program_with_blocks()
    ensures barred { (p : SyncText) → (IsSyncText p → ⊥) → sync_program_of (canonical_sync p) ≡ Ok p → ⊥ }
    ensures long { (p : SyncText) → most_bytes < length (canonical_sync p)
        → sync_program_of (canonical_sync p) ≡ Ok p → ⊥ }
    ensures changed { sync_program_of (canonical_sync changes_local) ≡ Err (record { line = 8; why = Assigned }) }
    ensures ended { sync_program_of (canonical_sync ends_inside) ≡ Err (record { line = 7; why = Open }) }
{}
