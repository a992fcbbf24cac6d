//! The law on what stays of a program where rows are appended to TARGET, from the rules on the set (ECMA-335, II.22).
#![tactic(auto)]

mod laws;

pub use laws::{
    checked_set_is_sound, index_leads, read_set_is_sound, sound_set_extends, sound_set_has_indexes,
    sound_set_has_method_indexes, sound_set_is_ranked, sound_set_keeps_program,
    sound_set_keeps_rules, sound_set_names_own, sound_set_nests_in_types,
    sound_target_has_attributes, sound_target_is_orderly,
};
