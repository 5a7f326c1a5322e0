//! What holds of the lines of every text, and of the canonical text of every program with blocks.

ghost use Rattle.std.specs.Prelude.{◌≡◌, ◌≤◌, ℕ, List, [], length, slice_get, Some, Ok};
ghost use Rattle.program_syntax.specs.Text.{words_of, most_bytes};
ghost use Rattle.program_syntax.specs.declared.keyword.Keyword.TheVariants as keyword;
ghost use Rattle.sync_syntax.specs.declared.word.Word.TheVariants as word;
ghost use Rattle.sync_syntax.specs.Word.{first_word};
ghost use Rattle.sync_syntax.specs.Reading.{SyncBefore, nothing_read};
ghost use Rattle.sync_syntax.specs.Refusal.{read_first, sync_program_of};
ghost use Rattle.sync_syntax.specs.Canonical.{canonical_sync};
ghost use Rattle.sync_source.specs.Source.{SyncText};
ghost use Rattle.sync_source.specs.Valid.{IsSyncText};

/// Where the lines before an `end` have no cause of refusal, no block is open at it: so a thread has all statements of
/// its section.
pub fn no_block_is_open_at_an_end()
    ensures { (lines : List (List ℕ)) (n : ℕ) (b : SyncBefore) (line : List ℕ)
        → read_first n nothing_read lines ≡ Some b → slice_get lines n ≡ Some line
        → first_word (words_of line) ≡ Some (word.Plain keyword.End) → b.blocks.opened ≡ [] }
{}

/// The canonical text of a program with blocks is a text of this very program, unless it is too long to be one.
pub fn canonical_texts_are_read_back()
    ensures { (p : SyncText) → IsSyncText p → length (canonical_sync p) ≤ most_bytes
        → sync_program_of (canonical_sync p) ≡ Ok p }
{}
