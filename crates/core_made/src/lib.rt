//! The law of what is there (`core_law/specs/MadeLaw.antt`) holds of the opening world, and the steps keep it.
#![tactic(auto)]

mod laws;
mod making;
mod telling;

pub use laws::{
    a_quiet_step_keeps_what_is_there, a_revocation_keeps_what_is_there,
    class_words_tell_what_is_there, keeping_a_shot_keeps_what_is_there,
    the_opening_world_has_what_is_declared, what_is_not_there_is_free,
    what_is_there_is_declared_or_logged,
};
pub use making::{
    a_prototype_is_a_first_mark, no_biased_first_mark_before_the_class_word,
    no_class_word_out_of_turn, no_first_mark_out_of_turn, no_first_mark_that_a_thread_has_seen,
    no_wrong_class_word, storing_a_class_word_keeps_the_world_valid,
    storing_a_class_word_keeps_what_is_there, storing_a_first_mark_keeps_the_world_valid,
    storing_a_first_mark_keeps_what_is_there, two_stores_make_an_object,
};
pub use telling::telling_keeps_what_is_there;
