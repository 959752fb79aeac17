// The session and the file check for C, which gets them from `c_session_c`. A session is kept as 40 bytes in a slice that the caller
// lends.
#![tactic(auto)]

ghost use Rattle.std.specs.Prelude.{◌≡◌, length, eqb};
ghost use Rattle.base_laws.specs.Base.{pick};
ghost use Rattle.session.specs.Step as st;
ghost use Rattle.session_bytes.specs.Saved.{session_of, kept};
ghost use Rattle.c_session.specs.Session.{has_point, point_number, message_answer, message_slice, message_area, message_out, tick_number, file_number};

use base_numbers::lay;
use session::{FileCheck, Refusal, open, refuse, tick};
use session_bytes::{load, save, state_number};
use session_step::{check_file, message};

// Keeps a new session in the slice: 0, or 12 where it is not of 40 bytes.
pub fn sudolog_session_open(slice: &mut [u8]) -> u8
    ensures answer { result ≡ pick (eqb (length slice.old) 40) 0 12 }
    ensures slice { slice.new ≡ kept st.new_session slice.old }
{
    if save(slice, open()) {
        return 0;
    }
    12
}

#[tactic(auto, unfolding(crate::specs::Session::has_point))]
fn has_point(p: Option<u64>) -> u64
    ensures { result ≡ has_point p }
{
    u64::from(p.is_some())
}

#[tactic(auto, unfolding(crate::specs::Session::point_number))]
fn point_number(p: Option<u64>) -> u64
    ensures { result ≡ point_number p }
{
    p.unwrap_or(0)
}

// One message in the session that the slice keeps.
pub fn sudolog_session_message(
    slice: &mut [u8],
    s: &[u8],
    area: &mut [u8],
    used: usize,
    out: &mut [u8],
) -> u8
    ensures answer { result ≡ message_answer slice.old s.now area.old used out.old }
    ensures slice { slice.new ≡ message_slice slice.old s.now area.old used out.old }
    ensures area { area.new ≡ message_area slice.old s.now area.old used out.old }
    ensures out { out.new ≡ message_out slice.old s.now area.old used out.old }
{
    let se = load(slice);
    if out.len() < 40 {
        save(slice, refuse(se, used, Refusal::Room).session);
        return 12;
    }
    let a = message(se, s, area, used);
    let point = a.point();
    save(slice, a.session);
    lay(
        out,
        &[
            a.used as u64,
            u64::from(a.key()),
            has_point(point),
            point_number(point),
            state_number(a.session.state),
        ],
    );
    a.refusal()
}

// The commit point of a tick in nanoseconds.
#[tactic(auto, unfolding(crate::specs::Session::tick_number))]
pub fn sudolog_session_tick(slice: &[u8]) -> u64
    ensures { result ≡ tick_number (st.tick (session_of slice.now)) }
{
    tick(load(slice)).unwrap_or(u64::MAX)
}

// What the used bytes of an area are as a file.
#[tactic(auto, unfolding(crate::specs::Session::file_number))]
pub fn sudolog_check_file(area: &[u8], used: usize) -> u8
    ensures { result ≡ file_number (st.file_check area.now used) }
{
    match check_file(area, used) {
        Ok(FileCheck::Unfinished) => 0,
        Ok(FileCheck::Finished) => 1,
        Err(refusal) => u8::from(refusal),
    }
}
