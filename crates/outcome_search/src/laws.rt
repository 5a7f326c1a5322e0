//! What a search over the words of a program's machines has found, where it went into all of its keys, and what the counts of its ends say.

ghost use Rattle.std.specs.Prelude.{◌≡◌, ◌≢◌, ◌⊎◌, ◌≤◌, ℕ, true, false, List, length, map, slice_get, Some, None};
ghost use Rattle.plain_monitor.specs.Limits.{most_fuel};
ghost use Rattle.plain_monitor.specs.declared.entry.Logged.{Logged};
ghost use Rattle.object_program.specs.Program.{ProgramText};
ghost use Rattle.object_program.specs.Valid.{IsProgram};
ghost use Rattle.plain_machine.specs.Machine.{PlainMachine, is_stuck};
ghost use Rattle.plain_machine.specs.Legal.{machine_after};
ghost use Rattle.every_outcome.specs.Fuel.{HasSpent, IsClosedFull};
ghost use Rattle.every_outcome.specs.Led.{IsOver};
ghost use Rattle.every_outcome.specs.NoHash.{HasNoHash};
ghost use Rattle.machine_words.specs.MachineWords.{words_of, machine_of};
ghost use Rattle.state_search.specs.Found.{Keys};
ghost use Rattle.state_search.specs.Search.{Has, IsSearch, LeadsBy};
ghost use Rattle.outcome_search.specs.declared.ends.End.{End};
ghost use Rattle.outcome_search.specs.declared.ends.End.TheVariants.{Spent, Stuck, Faulted};
ghost use Rattle.outcome_search.specs.declared.outcome.Outcomes.{Outcomes};
ghost use Rattle.outcome_search.specs.Ends.{have_ended, has_any_trapped, end_of};
ghost use Rattle.outcome_search.specs.EveryEnd.{IsEveryEnd};
ghost use Rattle.outcome_search.specs.NextWords.{first_key, next_key};
ghost use Rattle.outcome_search.specs.Outcomes.{top_fuel, top_steps, has_hash, IsCounted};
ghost use Rattle.outcome_search.specs.Real.{IsLed, IsReal};
ghost use Rattle.outcome_search.specs.Witness.{end_by, IsCutShort};

/// The machines of the keys are a list that is closed, where the search went into all keys and the program has no `hash`.
pub fn searches_are_closed()
    ensures { (p : ProgramText) (fuel steps most : ℕ) (f : Keys) → IsProgram p → HasNoHash p → 1 ≤ fuel
        → IsSearch (next_key p fuel steps) (length p.threads) (first_key p fuel steps) most f → f.gone ≡ length f.keys
        → IsClosedFull p fuel (map (machine_of p fuel) f.keys) }
{}

/// So its keys have the words of each machine under logs that is over, with at most the search's fuel, unless a thread of it is spent.
pub fn searches_have_every_end()
    ensures { (p : ProgramText) (fuel steps most less : ℕ) (f : Keys) (logs : List (List Logged)) (n : PlainMachine)
        → IsProgram p → HasNoHash p → 1 ≤ fuel
        → IsSearch (next_key p fuel steps) (length p.threads) (first_key p fuel steps) most f → f.gone ≡ length f.keys
        → less ≤ fuel → machine_after p less logs ≡ Some n → IsOver n → HasSpent n ⊎ Has f.keys (words_of n) }
{}

/// Each machine of a key is one that a run of the program comes to, up to the fuel that is left, unless a thread of it is spent; and no
/// machine stands twice. This holds wherever the search stopped.
pub fn searches_find_real_machines()
    ensures real { (p : ProgramText) (fuel steps most k : ℕ) (f : Keys) (key : List ℕ)
        → IsProgram p → HasNoHash p → 1 ≤ fuel
        → IsSearch (next_key p fuel steps) (length p.threads) (first_key p fuel steps) most f
        → slice_get f.keys k ≡ Some key → HasSpent (machine_of p fuel key) ⊎ IsReal p fuel (machine_of p fuel key) }
    ensures once { (p : ProgramText) (fuel steps most j k : ℕ) (f : Keys) (one two : List ℕ)
        → IsProgram p → HasNoHash p → 1 ≤ fuel
        → IsSearch (next_key p fuel steps) (length p.threads) (first_key p fuel steps) most f
        → slice_get f.keys j ≡ Some one → slice_get f.keys k ≡ Some two
        → machine_of p fuel one ≡ machine_of p fuel two → j ≡ k }
{}

/// A program none of whose threads has a `hash` instruction has none; and the most fuel of a run is that of a search.
pub fn counted_programs_have_no_hash()
    ensures none { (p : ProgramText) → has_hash p ≡ false → HasNoHash p }
    ensures fuel { top_fuel ≡ most_fuel }
{}

/// Where no machine is left open, and none is counted as stuck, no machine under logs is, unless a thread of it is spent.
pub fn counts_without_stuck_ends()
    ensures { (p : ProgramText) (most less : ℕ) (found : Keys) (o : Outcomes)
        (logs : List (List Logged)) (n : PlainMachine)
        → IsProgram p → IsCounted p most found o → o.«open» ≡ 0 → o.stuck ≡ 0 → has_hash p ≡ false
        → less ≤ top_fuel → machine_after p less logs ≡ Some n → HasSpent n ⊎ (is_stuck n ≡ false) }
{}

/// The same of faults, where all threads of the machine have ended.
pub fn counts_without_faulted_ends()
    ensures { (p : ProgramText) (most less : ℕ) (found : Keys) (o : Outcomes)
        (logs : List (List Logged)) (n : PlainMachine)
        → IsProgram p → IsCounted p most found o → o.«open» ≡ 0 → o.faulted ≡ 0 → has_hash p ≡ false
        → less ≤ top_fuel → machine_after p less logs ≡ Some n → have_ended n ≡ true
        → HasSpent n ⊎ (has_any_trapped n ≡ false) }
{}

/// Each machine that is counted as an end, but for those with a spent thread, is one that a run of the program comes to, up to the fuel that
/// is left, however many machines are left open.
pub fn counted_ends_are_real()
    ensures { (p : ProgramText) (most k : ℕ) (found : Keys) (o : Outcomes) (key : List ℕ) (end : End)
        → IsProgram p → IsCounted p most found o → has_hash p ≡ false → slice_get found.keys k ≡ Some key
        → end_of (machine_of p top_fuel key) ≡ Some end → end ≢ Spent → IsReal p top_fuel (machine_of p top_fuel key) }
{}

/// The first end of a kind is one of that kind, and where there is no first one, none is counted.
pub fn first_ends_are_such_ends()
    ensures stuck { (p : ProgramText) (most k : ℕ) (found : Keys) (o : Outcomes) → IsCounted p most found o
        → o.first_stuck ≡ Some k
        → (key : List ℕ) × (slice_get found.keys k ≡ Some key) × (end_of (machine_of p top_fuel key) ≡ Some Stuck) }
    ensures faulted { (p : ProgramText) (most k : ℕ) (found : Keys) (o : Outcomes) → IsCounted p most found o
        → o.first_faulted ≡ Some k
        → (key : List ℕ) × (slice_get found.keys k ≡ Some key) × (end_of (machine_of p top_fuel key) ≡ Some Faulted) }
    ensures no_stuck { (p : ProgramText) (most : ℕ) (found : Keys) (o : Outcomes) → IsCounted p most found o
        → o.first_stuck ≡ None → o.stuck ≡ 0 }
    ensures no_faulted { (p : ProgramText) (most : ℕ) (found : Keys) (o : Outcomes) → IsCounted p most found o
        → o.first_faulted ≡ None → o.faulted ≡ 0 }
{}

/// What is counted of a search says of every end of the program, in the words of the plain machine: the machines that were kept are different
/// and real, and where none is left open they have every end.
pub fn searches_find_every_end()
    ensures { (p : ProgramText) (most : ℕ) (found : Keys) (o : Outcomes)
        → IsProgram p → has_hash p ≡ false → IsCounted p most found o → IsEveryEnd p most o }
{}

/// So where none is left open, and none is counted as stuck, no machine under logs is stuck, unless a thread of it is spent; and the same of
/// faults, where all threads of the machine have ended.
pub fn every_end_says_how_runs_end()
    ensures stuck { (p : ProgramText) (most less : ℕ) (o : Outcomes) (logs : List (List Logged)) (n : PlainMachine)
        → IsEveryEnd p most o → o.«open» ≡ 0 → o.stuck ≡ 0 → less ≤ top_fuel → machine_after p less logs ≡ Some n
        → HasSpent n ⊎ (is_stuck n ≡ false) }
    ensures faulted { (p : ProgramText) (most less : ℕ) (o : Outcomes) (logs : List (List Logged)) (n : PlainMachine)
        → IsEveryEnd p most o → o.«open» ≡ 0 → o.faulted ≡ 0 → less ≤ top_fuel → machine_after p less logs ≡ Some n
        → have_ended n ≡ true → HasSpent n ⊎ (has_any_trapped n ≡ false) }
{}

/// Where none is left open some state is kept; and a spent thread is counted where entries of the program lead to one, with the fuel given back
/// after each entry, and only there. So the status of a search that leaves none open is 0 only where no entries do.
pub fn spent_threads_are_counted_where_entries_lead_to_one()
    ensures some { (p : ProgramText) (most : ℕ) (o : Outcomes) → IsEveryEnd p most o → o.«open» ≡ 0 → 1 ≤ o.states }
    ensures counted { (p : ProgramText) (most : ℕ) (o : Outcomes) (m : PlainMachine)
        → IsProgram p → IsEveryEnd p most o → o.«open» ≡ 0 → IsLed p top_fuel m → HasSpent m → 1 ≤ o.spent }
    ensures led { (p : ProgramText) (most : ℕ) (o : Outcomes) → IsEveryEnd p most o → 1 ≤ o.spent
        → (m : PlainMachine) × IsLed p top_fuel m × HasSpent m }
{}

/// By the way on which a search found an end, the walk of a witness comes to such an end, too, unless a way to such an end is cut short: with the most
/// fuel that a run may have, and none given back, a thread is spent on it.
pub fn ways_to_ends_are_walked_or_cut_short()
    ensures { (p : ProgramText) (choices key : List ℕ) (end : End) → IsProgram p → has_hash p ≡ false
        → LeadsBy (next_key p top_fuel top_steps) (length p.threads) (first_key p top_fuel top_steps) choices key
        → end_of (machine_of p top_fuel key) ≡ Some end → (end_by p choices ≡ Some end) ⊎ IsCutShort p end }
{}
