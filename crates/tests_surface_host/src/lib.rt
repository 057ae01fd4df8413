// Tests of the public surface from the hart up: each call by its name, its parameters and its answers, and
// each public type by its variants and fields.
#![tactic(auto)]

#[cfg(test)]
mod configurations;
#[cfg(test)]
mod exits;
#[cfg(test)]
mod hosts;
#[cfg(test)]
mod outputs;
#[cfg(test)]
mod programs;
#[cfg(test)]
mod states;
#[cfg(test)]
mod system;
