//! Progress of the turns of a program's thread: what its runner's contract says, with what is proved of worlds in which a thread is left
//! alone. The functions are laws, and do nothing.
#![tactic(auto)]

mod progress;
mod refused;
mod witnesses;

pub use progress::{
    a_heap_of_one_thread_has_no_others, a_thread_by_itself_is_blocked_by_its_wait_or_the_halt,
    a_thread_left_alone_ends_or_is_barred, a_turn_left_alone_is_blocked_by_monitors_or_the_halt,
    live_turns_do_their_instructions,
};
pub use refused::{
    a_call_that_can_go_on_is_not_barred, a_live_turn_has_neither_ended_nor_is_barred,
    a_turn_that_did_its_last_call_is_not_barred, bars_are_not_everywhere, no_bar_for_another_cause,
    no_owner_blocks_a_thread_by_itself, no_turns_beyond_their_fuel,
    others_that_run_or_ask_do_not_stand,
};
pub use witnesses::a_heap_of_one_thread_comes_to_a_world_in_which_it_runs;
