// Whose turn it is: `turn`, which every handler of a message calls, and the five kinds of turn that it is made of. The column of a call is
// a constant, but for an accept's: `turn` matches on it first, so that the compiler keeps one kind of turn at each call.
ghost use Rattle.std.specs.Prelude.{◌≡◌};
ghost use Rattle.base_laws.specs.Base.{pick};
ghost use Rattle.wire_message.specs.Message as m;
ghost use Rattle.session_turn.specs.Turn as t;
ghost use Rattle.session_turn.specs.declared.Column.TheVariants as column;

use crate::{Column, State};

// In new or greeted: nothing opens a closed session again.
#[tactic(auto, unfolding(crate::specs::Turn::opening))]
fn opening(state: State, next: State) -> Option<State>
    ensures { result ≡ t.opening state next }
{
    match state {
        State::New | State::Greeted => Some(next),
        _ => None,
    }
}

// In logging: in greeted there is no accept yet.
#[tactic(auto, unfolding(crate::specs::Turn::recording))]
fn recording(state: State) -> Option<State>
    ensures { result ≡ t.recording state }
{
    matches!(state, State::Logging).then_some(State::Logging)
}

// A hello: a second one is not in its turn.
#[tactic(auto, unfolding(crate::specs::Turn::greeting))]
fn greeting(state: State) -> Option<State>
    ensures { result ≡ t.greeting state }
{
    matches!(state, State::New).then_some(State::Greeted)
}

// An exit: in new and greeted there is nothing to end.
#[tactic(auto, unfolding(crate::specs::Turn::ending))]
fn ending(state: State) -> Option<State>
    ensures { result ≡ t.ending state }
{
    matches!(state, State::Logging | State::EventsOnly).then_some(State::Closed)
}

// An alert: in any state but closed.
#[tactic(auto, unfolding(crate::specs::Turn::alerting))]
fn alerting(state: State) -> Option<State>
    ensures { result ≡ t.alerting state }
{
    match state {
        State::Closed => None, // over
        _ => Some(state),
    }
}

// The turn of every message of this column.
#[tactic(auto, using(crate::proofs::Turns::by_column), unfolding(crate::proofs::Turns::turn_at))]
pub fn turn(state: State, column: Column) -> Option<State>
    ensures { (c : m.Client) → t.column_of c ≡ column → result ≡ t.turn state c }
{
    match column {
        Column::AcceptWithIo => opening(state, State::Logging),
        Column::AcceptAlone => opening(state, State::EventsOnly),
        Column::Reject => opening(state, State::Closed),
        Column::Exit => ending(state),
        Column::Restart => opening(state, State::Logging),
        Column::Alert => alerting(state),
        Column::Io => recording(state),
        Column::WindowSize => recording(state),
        Column::Suspend => recording(state),
        Column::Hello => greeting(state),
    }
}

// The column of an accept, by its expect_iobufs.
pub fn accept_column(expect: bool) -> Column
    ensures { result ≡ pick expect column.AcceptWithIo column.AcceptAlone }
{
    if expect {
        Column::AcceptWithIo
    } else {
        Column::AcceptAlone
    }
}
