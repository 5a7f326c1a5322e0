//! Two ways to say what drawn hashes are, which are one: by each thread's own log, and by the order of all entries.
//!
//! A heap's law says that each thread's draws are those of its generator, one after the other. A run's contract and a check say of
//! each object that its hashes fit. No heap is spoken of. The functions do nothing.
#![tactic(auto)]

mod laws;
mod refused;
mod witnesses;

pub use laws::hashes_fit_just_where_they_are_draws;
pub use refused::{
    no_hash_beside_the_generator, no_hash_that_is_found_before_it_is_drawn,
    no_hash_that_two_threads_draw,
};
pub use witnesses::a_hash_is_drawn_once_and_found;
