// Tests of the public surface: each call by its name, its parameters and its answers, and each public type by
// its variants and fields.
#![tactic(auto)]

#[cfg(test)]
mod arithmetic;
#[cfg(test)]
mod assembler;
#[cfg(test)]
mod devices;
#[cfg(test)]
mod frames;
#[cfg(test)]
mod machines;
#[cfg(test)]
mod memory;
#[cfg(test)]
mod pools;
#[cfg(test)]
mod registers;
#[cfg(test)]
mod spaces;
#[cfg(test)]
mod traps;
#[cfg(test)]
mod types;
#[cfg(test)]
mod walks;
#[cfg(test)]
mod words;
