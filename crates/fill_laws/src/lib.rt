// Laws of the lone machine's fills, tries and steps, and how many fills there are.
#![tactic(auto)]

mod laws;

pub use laws::{
    fills_go_on, fills_suffice, folds_by_the_front_space, machines_stay_orderly,
    missing_entries_are_read, runs_compose, steps_end_by_the_walk, tries_are_few,
    tries_change_spaces,
};
