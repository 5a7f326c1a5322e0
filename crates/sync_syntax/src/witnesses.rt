//! A program with blocks and its text, that the laws' premises are met. The functions do nothing.

ghost use Rattle.std.specs.Prelude.{◌≡◌, ◌≤◌, ℕ, List, length, slice_get, Some};
ghost use Rattle.program_syntax.specs.Refusal.{lines_of};
ghost use Rattle.program_syntax.specs.Text.{words_of, most_bytes};
ghost use Rattle.program_syntax.specs.declared.keyword.Keyword.TheVariants as keyword;
ghost use Rattle.sync_source.specs.Examples.{guarded};
ghost use Rattle.sync_source.specs.Valid.{IsSyncText};
ghost use Rattle.sync_syntax.specs.Canonical.{canonical_sync};
ghost use Rattle.sync_syntax.specs.Reading.{SyncBefore, nothing_read};
ghost use Rattle.sync_syntax.specs.Refusal.{read_first};
ghost use Rattle.sync_syntax.specs.Word.{first_word};
ghost use Rattle.sync_syntax.specs.declared.word.Word.TheVariants as word;

/// Two threads with a block each have a text (`text`), whose tenth line is the `end` of the first; the lines before it have no cause
/// (`end`). A witness for `canonical_texts_are_read_back` and `no_block_is_open_at_an_end`.
pub fn threads_with_blocks_have_a_text()
    ensures text { IsSyncText guarded × (length (canonical_sync guarded) ≤ most_bytes) }
    ensures end { (b : SyncBefore) × (line : List ℕ)
        × (read_first 9 nothing_read (lines_of (canonical_sync guarded)) ≡ Some b)
        × (slice_get (lines_of (canonical_sync guarded)) 9 ≡ Some line)
        × (first_word (words_of line) ≡ Some (word.Plain keyword.End)) }
{}
