// The text that scripts and listings are made of, on slices: what stands at a line's front. specs/Text.antt has the fixed byte strings,
// specs/Fronts.antt says what is read. Assumes nothing.
#![tactic(auto)]

pub mod bytes;
pub mod numbers;

// A number of the script: its value, and how many digits it has.
#[derive(Clone, Copy, Drop)]
pub struct Number {
    pub value: u16,
    pub len: usize,
}
