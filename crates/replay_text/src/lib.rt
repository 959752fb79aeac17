// What the lines of a replay are made of: numbers in decimal, and the names of members and states.
#![tactic(auto)]

pub mod names;
pub mod numbers;
