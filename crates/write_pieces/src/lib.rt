// The pieces of a message: how long each one is, and how it is put into a buffer. These functions are inner: they are for the writers above,
// which show that there is room before they put anything: `put_..` requires it, and returns the place after what it put.
// A length that passes the limit of a message is returned as some number above it (`Like`).
#![tactic(auto)]

pub mod number;
pub mod part;
