// One walk that checks a message and collects its values at once: TimeSpec and IoBuffer, which every recorded line of a session brings.
#![tactic(auto)]

pub mod io;
pub mod time;
