// Laws of what each run of the lone machine keeps.
#![tactic(auto)]

mod laws;

pub use laws::{
    first_stays_keyed, inputs_stay_in_order, machines_stay_in_ram, machines_stay_storable,
    spaces_stay_keyed,
};
