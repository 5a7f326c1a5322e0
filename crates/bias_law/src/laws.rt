//! Laws of the parts of the law of biases, over the functions that it reads.

ghost use Rattle.std.specs.Prelude.{ℕ, Bool, List, Option};
ghost use Rattle.plain_monitor.specs.declared.entry.Entry.{Entry};
ghost use Rattle.plain_monitor.specs.declared.entry.Logged.{Logged};
ghost use Rattle.lock_policy.specs.Policy.{decided};
ghost use Rattle.core_world.specs.declared.word_id.WordId.{WordId};
ghost use Rattle.core_world.specs.declared.word_id.WordId.TheVariants.{Revocations, LastBulk};
ghost use Rattle.core_world.specs.declared.stage.Stage.{Stage};
ghost use Rattle.core_world.specs.declared.heap_call.Unfinished.{Unfinished};
ghost use Rattle.core_world.specs.Threads.Counts.{ClassCounts};
ghost use Rattle.core_world.specs.Locks.{Lock};
ghost use Rattle.core_world.specs.Words.Names.{with_word};
ghost use Rattle.core_world.specs.Opening.{opening};
ghost use Rattle.core_world.specs.RevocationRules.{revocation_writes, words_after};
ghost use Rattle.core_world.specs.Words.Shape.{Shape};
ghost use Rattle.core_world.specs.Words.Names.{class_by};
ghost use Rattle.core_world.specs.Threads.Stages.{Revocation};
ghost use Rattle.core_law.specs.BiasLaw.{BiasLawHolds};
ghost use Rattle.core_law.specs.CountsAndVerdicts.{ClassFits, incremented};
ghost use Rattle.core_law.specs.MarksAndLogs.{EntersFitMarks};
ghost use Rattle.bias_law.specs.Moves.{LockFitsMark, BiasesKept, OthersStay, LogsEntry, LogsNothing, AddsNoBias, MayLoseBias};

/// The arithmetic of counts and verdicts: every verdict of the policy, with the count's decay to 0 before it or without, keeps what the
/// count of a class and its verdicts say of one another.
pub fn a_counted_verdict_fits()
    ensures { (k : ClassCounts) (count last now : ℕ) → ClassFits count k
        → ClassFits (decided count last now).1 (incremented k count last now) }
{}

/// The opening world meets the law of biases, with biases and without.
pub fn the_opening_world_meets_the_law_of_biases()
    ensures { (s : Shape) (start : ℕ) (biasing : Bool) → BiasLawHolds (opening s start biasing) }
{}

/// A step that logs an entry, and leaves the biases, keeps what the law of biases says of enters and marks.
pub fn a_logged_entry_keeps_enters_and_marks()
    ensures { (biasing : Bool) (there : ℕ → Bool) (class mark : ℕ → ℕ) (lock : ℕ → Lock) (entries : ℕ → List Entry)
        (log : ℕ → List Logged) (stage : ℕ → Stage) (unfinished : ℕ → Option Unfinished)
        (revoked mark2 : ℕ → ℕ) (lock2 : ℕ → Lock) (entries2 : ℕ → List Entry) (log2 : ℕ → List Logged)
        (stage2 : ℕ → Stage) (unfinished2 : ℕ → Option Unfinished) (t : ℕ) (y : Logged)
        → EntersFitMarks biasing there class mark lock entries log stage unfinished revoked → LockFitsMark mark lock
        → BiasesKept mark lock mark2 lock2
        → OthersStay t log stage unfinished log2 stage2 unfinished2
        → LogsEntry t y mark entries log stage unfinished entries2 log2 stage2 unfinished2
        → EntersFitMarks biasing there class mark2 lock2 entries2 log2 stage2 unfinished2 revoked }
{}

/// A step that logs nothing, and a revocation as a whole, keep what the law of biases says of enters and marks.
pub fn a_quiet_step_keeps_enters_and_marks()
    ensures { (biasing : Bool) (there : ℕ → Bool) (class mark : ℕ → ℕ) (lock : ℕ → Lock) (entries : ℕ → List Entry)
        (log : ℕ → List Logged) (stage : ℕ → Stage) (unfinished : ℕ → Option Unfinished)
        (revoked mark2 : ℕ → ℕ) (lock2 : ℕ → Lock) (stage2 : ℕ → Stage) (unfinished2 : ℕ → Option Unfinished)
        (revoked2 : ℕ → ℕ) (t : ℕ)
        → EntersFitMarks biasing there class mark lock entries log stage unfinished revoked
        → OthersStay t log stage unfinished log stage2 unfinished2
        → LogsNothing biasing t class mark lock entries stage unfinished revoked mark2 lock2 stage2 unfinished2 revoked2
        → EntersFitMarks biasing there class mark2 lock2 entries log stage2 unfinished2 revoked2 }
{}

/// What the stores of a revocation as a whole do to marks: none gets the bias pattern, none but that of the revocation's own object gets
/// another bias owner, and an anonymous mark stays so, but for the own object's, and in a bulk revoke for those of its class. The class
/// words stay, and after its first store the counts of classes do.
pub fn a_revocation_is_gentle()
    ensures { (s : Shape) (t : ℕ) (b : Revocation) (f : WordId → ℕ)
        → AddsNoBias b.object (MayLoseBias (class_by s f) b.object
        (decided (f (Revocations (class_by s f b.object))) (f (LastBulk (class_by s f b.object))) b.now).0)
        (with_word (Revocations (class_by s f b.object))
        (decided (f (Revocations (class_by s f b.object))) (f (LastBulk (class_by s f b.object))) b.now).1 f)
        (words_after (revocation_writes s t b f) f) }
{}
