// A session kept as 40 bytes in a slice that the host lends, so that a host in C carries it from call to call.
#![tactic(auto)]

ghost use Rattle.std.specs.Prelude.{◌≡◌, ◌-◌, length, leb, eqb};
ghost use Rattle.base_laws.specs.Base.{pick, both};
ghost use Rattle.file_format.specs.File.{limit};
ghost use Rattle.session_bytes.specs.Saved as s;
ghost use Rattle.session_bytes.specs.Saved.{state_number, mark_number, mark_point, session_of, saved_state, saved_mark, are_session, from_numbers, kept};

use base_numbers::{lay, number_at};
use file_format::LIMIT;
use session::Session;
use session_turn::State;

// The length of the longest area.
const AREA_LIMIT: u64 = 1073741824;

// ---- from a session to its numbers

#[tactic(auto, unfolding(crate::specs::Saved::state_number))]
pub fn state_number(state: State) -> u64
    ensures { result ≡ state_number state }
{
    state as u64
}

// What a restart's point adds to the state's number.
#[tactic(auto, unfolding(crate::specs::Saved::mark_number))]
fn mark_number(mark: Option<u64>) -> u64
    ensures { result ≡ mark_number mark }
{
    mark.map_or(0, |_| 8)
}

#[tactic(auto, unfolding(crate::specs::Saved::mark_point))]
fn mark_point(mark: Option<u64>) -> u64
    ensures { result ≡ mark_point mark }
{
    mark.unwrap_or(0)
}

// ---- from numbers to the session

// What stands for bytes that are no session.
fn closed() -> Session
    ensures { result ≡ s.closed }
{
    Session {
        state: State::Closed,
        used: 0,
        total: 0,
        low: 0,
        mark: None,
    }
}

#[tactic(auto, unfolding(crate::specs::Saved::saved_state))]
fn state_of(n: u64) -> State
    ensures { result ≡ saved_state n }
{
    match n {
        0 => State::New,
        1 => State::Greeted,
        2 => State::Logging,
        3 => State::EventsOnly,
        _ => State::Closed,
    }
}

// The state's number without what a restart's point added.
fn without_mark(n: u64) -> u64
    ensures { result ≡ pick (leb 8 n) (n - 8) n }
{
    if 8 <= n { n - 8 } else { n }
}

#[tactic(auto, unfolding(crate::specs::Saved::saved_mark))]
fn mark_of(n: u64, t: u64) -> Option<u64>
    ensures { result ≡ saved_mark n t }
{
    (8 <= n).then_some(t)
}

// Is the first number a state's, and a point given only where it says that one stands.
fn is_state(n: u64, t: u64) -> bool
    ensures { result ≡ pick (leb 8 n) (leb n 12) (both (leb n 4) (eqb t 0)) }
{
    if 8 <= n { n <= 12 } else { n <= 4 && t == 0 }
}

// Are the other numbers within their limits.
fn are_within(used: u64, total: u64, low: u64, t: u64) -> bool
    ensures { result ≡ both (leb used 1073741824) (both (leb total limit) (both (leb low limit) (leb t limit))) }
{
    used <= AREA_LIMIT && total <= LIMIT && low <= LIMIT && t <= LIMIT
}

#[tactic(auto, unfolding(crate::specs::Saved::are_session))]
fn are_session(n: u64, used: u64, total: u64, low: u64, t: u64) -> bool
    ensures { result ≡ are_session n used total low t }
{
    is_state(n, t) && are_within(used, total, low, t)
}

#[tactic(auto, unfolding(crate::specs::Saved::from_numbers))]
fn from_numbers(n: u64, used: u64, total: u64, low: u64, t: u64) -> Session
    ensures { result ≡ from_numbers n used total low t }
{
    if are_session(n, used, total, low, t) {
        return Session {
            state: state_of(without_mark(n)),
            used: used as usize,
            total,
            low,
            mark: mark_of(n, t),
        };
    }
    closed()
}

// ---- a slice that keeps a session

// The session that a slice keeps; a closed one where its bytes are no session's.
pub fn load(slice: &[u8]) -> Session
    ensures { result ≡ session_of slice.now }
{
    if slice.len() == 40 {
        return from_numbers(
            number_at(slice, 0),
            number_at(slice, 8),
            number_at(slice, 16),
            number_at(slice, 24),
            number_at(slice, 32),
        );
    }
    closed()
}

// Keeps a session in a slice; one that is not of 40 bytes is left as it is.
pub fn save(slice: &mut [u8], se: Session) -> bool
    ensures answer { result ≡ eqb (length slice.old) 40 }
    ensures slice { slice.new ≡ kept se slice.old }
{
    if slice.len() == 40 {
        return lay(
            slice,
            &[
                state_number(se.state) + mark_number(se.mark),
                se.used as u64,
                se.total,
                se.low,
                mark_point(se.mark),
            ],
        );
    }
    false
}
