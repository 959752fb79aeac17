// Every message is written here, from its form: the store of all of it, with the frame and the member around it. These functions are the
// writers' own. `write_message` and `write_plain` ask all that is required below them.
#![tactic(auto)]

pub mod fits;
pub mod form;
pub mod outcome;
pub mod write;
