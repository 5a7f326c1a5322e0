//! Laws of the calls that tell of values, hashes, shots and ends.
ghost use Rattle.std.specs.Prelude.{◌≡◌, ℕ, [], ◌∷◌, ◌++◌, length, Result, Ok};
ghost use Rattle.plain_monitor.specs.declared.entry.Value.{Value};
ghost use Rattle.plain_monitor.specs.declared.entry.Ending.{Ending};
ghost use Rattle.core_world.specs.declared.answer.Progress.{Progress};
ghost use Rattle.core_world.specs.declared.answer.Progress.TheVariants.{Done, Pending};
ghost use Rattle.core_world.specs.declared.answer.PendingCause.{PendingCause};
ghost use Rattle.core_world.specs.declared.answer.Unguarded.{Unguarded};
ghost use Rattle.core_world.specs.declared.answer.TooManyDumps.{TooManyDumps};
ghost use Rattle.core_world.specs.Words.Shape.{Shape};
ghost use Rattle.core_world.specs.Threads.ThreadView.{ThreadView, Start, DumpShot};
ghost use Rattle.core_world.specs.Trees.Operations.{hash_steps, get_steps, put_steps, print_steps, finish_steps, dump_steps};
ghost use Rattle.core_world.specs.Due.{Ran};
ghost use Rattle.core_calls.specs.Paths.{Says, Tells};
ghost use Rattle.core_calls.specs.CallsSay.{HashSays, GetSays, PutSays, PrintSays, FinishSays, DumpSays};

/// A hash that is done logs its Hash with the value that it answers. It logs it as not drawn where a header that it
/// loaded has this hash. Else it logs it as drawn by this call, with the number of the thread's next draw, and its
/// exchange put this hash into a header. A pending one logs nothing and stays unfinished.
pub fn hash_logs_its_answer()
    ensures steps { (s : Shape) (k : Start) (o now : ℕ) → Says (hash_steps s k o now) (HashSays k o) }
    ensures run { (s : Shape) (k : Start) (o now : ℕ) (shape : Shape) (start : ℕ) (before after : ThreadView) (a : Progress ℕ)
        → Ran shape start (hash_steps s k o now) before after a
        → Tells before after (λ ms. HashSays k o ms a) }
{}

/// A get logs its Get with the value that it answers, which the word loaded from the slot spells. It is refused, without a step, exactly where the thread has no hold on the object.
pub fn get_logs_its_answer()
    ensures steps { (k : Start) (o slot : ℕ) → Says (get_steps k o slot) (GetSays k o slot) }
    ensures run { (k : Start) (o slot : ℕ) (shape : Shape) (start : ℕ) (before after : ThreadView)
        (a : Result Value Unguarded)
        → Ran shape start (get_steps k o slot) before after a
        → Tells before after (λ ms. GetSays k o slot ms a) }
{}

/// A put logs its Put with its value, whose word it stores in the slot. It is refused, without a step, exactly where the thread has no hold on the object.
pub fn put_logs_its_value()
    ensures steps { (k : Start) (o slot : ℕ) (value : Value)
        → Says (put_steps k o slot value) (PutSays k o slot value) }
    ensures run { (k : Start) (o slot : ℕ) (value : Value) (shape : Shape) (start : ℕ) (before after : ThreadView)
        (a : Result (Unit {0}) Unguarded)
        → Ran shape start (put_steps k o slot value) before after a
        → Tells before after (λ ms. PutSays k o slot value ms a) }
{}

/// A print logs its Print with its value.
pub fn print_logs_its_value()
    ensures steps { (k : Start) (value : Value) → Says (print_steps k value) (PrintSays value) }
    ensures run { (k : Start) (value : Value) (shape : Shape) (start : ℕ) (before after : ThreadView) (a : Unit {0})
        → Ran shape start (print_steps k value) before after a
        → Tells before after (λ ms. PrintSays value ms a) }
{}

/// A finish logs its ending entry.
pub fn finish_logs_its_ending()
    ensures steps { (k : Start) (ending : Ending) → Says (finish_steps k ending) (FinishSays ending) }
    ensures run { (k : Start) (ending : Ending) (shape : Shape) (start : ℕ) (before after : ThreadView) (a : Unit {0})
        → Ran shape start (finish_steps k ending) before after a
        → Tells before after (λ ms. FinishSays ending ms a) }
{}

/// A dump that is done logs its Dump with the number of the thread's next shot, and has released its safepoint; and
/// the thread has one more shot, which has that number. A pending one logs nothing, keeps no shot and stays unfinished. It is
/// refused, without a step, exactly where the thread has 4 shots.
pub fn dump_logs_its_answer()
    ensures steps { (s : Shape) (k : Start) → Says (dump_steps s k) (DumpSays k) }
    ensures run { (s : Shape) (k : Start) (shape : Shape) (start : ℕ) (before after : ThreadView)
        (a : Result (Progress ℕ) TooManyDumps)
        → Ran shape start (dump_steps s k) before after a
        → Tells before after (λ ms. DumpSays k ms a) }
    ensures keeps { (s : Shape) (k : Start) (shape : Shape) (start number : ℕ) (before after : ThreadView)
        → length before.shots ≡ k.shots
        → Ran shape start (dump_steps s k) before after (Ok (Done number))
        → (shot : DumpShot) × (after.shots ≡ before.shots ++ shot ∷ []) × (shot.number ≡ number) }
    ensures pends { (s : Shape) (k : Start) (shape : Shape) (start : ℕ) (before after : ThreadView) (why : PendingCause)
        → Ran shape start (dump_steps s k) before after (Ok (Pending why))
        → after.shots ≡ before.shots }
{}
