//! A program with a spent thread, and its counts, so that the laws of such threads speak of something. The functions do nothing.

ghost use Rattle.std.specs.Prelude.{◌≡◌, ◌≤◌, false, [], Some};
ghost use Rattle.object_program.specs.Valid.{IsProgram};
ghost use Rattle.plain_machine.specs.Machine.{PlainMachine};
ghost use Rattle.every_outcome.specs.Fuel.{HasSpent};
ghost use Rattle.machine_words.specs.MachineWords.{machine_of};
ghost use Rattle.state_search.specs.Search.{LeadsBy};
ghost use Rattle.outcome_search.specs.declared.ends.End.TheVariants.{Spent};
ghost use Rattle.outcome_search.specs.Ends.{end_of};
ghost use Rattle.outcome_search.specs.EveryEnd.{IsEveryEnd};
ghost use Rattle.outcome_search.specs.NextWords.{first_key, next_key};
ghost use Rattle.outcome_search.specs.Outcomes.{top_fuel, top_steps, has_hash};
ghost use Rattle.outcome_search.specs.Real.{IsLed};
ghost use Rattle.outcome_search.specs.SmallPrograms.{spinning, one_spent};

/// A thread that jumps to where it is: of its one state `spent 1` is counted, and no state is left open. So the
/// premises of `spent_threads_are_counted_where_entries_lead_to_one` are met.
pub fn a_thread_can_be_spent()
    ensures { (m : PlainMachine) × IsProgram spinning × IsEveryEnd spinning 1 one_spent × (1 ≤ one_spent.spent)
        × IsLed spinning top_fuel m × HasSpent m }
{}

/// No choice leads from the first key of that program, whose machine ends with a spent thread. So the premises of
/// `ways_to_ends_are_walked_or_cut_short` are met.
pub fn a_way_can_lead_to_an_end()
    ensures { IsProgram spinning × (has_hash spinning ≡ false)
        × LeadsBy (next_key spinning top_fuel top_steps) 1 (first_key spinning top_fuel top_steps) []
        (first_key spinning top_fuel top_steps)
        × (end_of (machine_of spinning top_fuel (first_key spinning top_fuel top_steps)) ≡ Some Spent) }
{}
