// The lines that a replay prints: of each frame, and the last one.
#![tactic(auto)]

pub mod end;
pub mod frame;
