// The states of a session, and whose turn it is. The types stand here; `rule` has the one function that decides a turn, `turn`.
#![tactic(auto)]

pub mod rule;

#[derive(Clone, Copy, Debug, PartialEq, Eq)]
pub enum State {
    New,
    Greeted,
    Logging,
    EventsOnly,
    Closed,
}

// A column of document 01's turns: a message by its member; an accept has two, by its expect_iobufs.
#[derive(Clone, Copy, Debug, PartialEq, Eq)]
pub enum Column {
    AcceptWithIo,
    AcceptAlone,
    Reject,
    Exit,
    Restart,
    Alert,
    Io,
    WindowSize,
    Suspend,
    Hello,
}
