// The line of a frame, written at the start of a lent buffer. A buffer of 256 bytes has room for it. Put piece by piece, and not by `write!`:
// replay_text's numbers say why.
ghost use Rattle.std.specs.Prelude.{◌≡◌, [], ◌+◌, ◌≤◌, length};
ghost use Rattle.base_copy.specs.Put.{Put};
ghost use Rattle.session.specs.Step.{outcome};
ghost use Rattle.replay_text.specs.Names.{shown_member};
ghost use Rattle.replay_lines.specs.Wording.{heading, verdict, standing, point_text, key_text, frame_line, written, line_length};

use base_copy::put_raw;
use replay_text::names::{member_of, put_member, put_state};
use replay_text::numbers::{put_decimal, put_nine};
use session::Answer;
use session_turn::State;

fn put_heading(out: &mut [u8], n: u64) -> usize
    requires { 28 ≤ length out.old }
    ensures { (Put out.old 0 (heading n) out.new result) × (result ≤ 28) }
{
    let a = put_raw(out, 0, b"frame ");
    let b = put_decimal(out, a, n);
    put_raw(out, b, b": ")
}

fn put_verdict(out: &mut [u8], at: usize, member: u64, refusal: u8) -> usize
    requires { at + 28 ≤ length out.old }
    ensures { (Put out.old at (verdict member refusal) out.new result) × (result ≤ at + 28) }
{
    if refusal == 0 {
        let a = put_member(out, at, member);
        return put_raw(out, a, b" taken");
    }
    let a = put_raw(out, at, b"refused ");
    put_decimal(out, a, u64::from(refusal))
}

fn put_standing(out: &mut [u8], at: usize, state: State, used: usize) -> usize
    requires { at + 40 ≤ length out.old }
    ensures { (Put out.old at (standing state used) out.new result) × (result ≤ at + 40) }
{
    let a = put_raw(out, at, b", ");
    let b = put_state(out, a, state);
    let c = put_raw(out, b, b", used ");
    put_decimal(out, c, used as u64)
}

fn put_point(out: &mut [u8], at: usize, point: Option<u64>) -> usize
    requires { at + 45 ≤ length out.old }
    ensures { (Put out.old at (point_text point) out.new result) × (result ≤ at + 45) }
{
    let Some(t) = point else {
        return at;
    };
    let a = put_raw(out, at, b", commit point ");
    let b = put_decimal(out, a, t / 1000000000);
    let c = put_raw(out, b, b".");
    put_nine(out, c, t % 1000000000)
}

fn put_key(out: &mut [u8], at: usize, refusal: u8, key: u8) -> usize
    requires { at + 26 ≤ length out.old }
    ensures { (Put out.old at (key_text refusal key) out.new result) × (result ≤ at + 26) }
{
    if refusal == 8 {
        let a = put_raw(out, at, b", key ");
        return put_decimal(out, a, u64::from(key));
    }
    at
}

fn put_frame(out: &mut [u8], n: u64, member: u64, answer: Answer) -> usize
    requires { 256 ≤ length out.old }
    ensures { Put out.old 0 (frame_line n member (outcome answer [])) out.new result }
{
    let a = put_heading(out, n);
    let b = put_verdict(out, a, member, answer.refusal());
    let c = put_standing(out, b, answer.session.state, answer.used);
    let d = put_point(out, c, answer.point);
    let e = put_key(out, d, answer.refusal(), answer.key());
    put_raw(out, e, b"\n")
}

// The line of the n-th frame, with the message s, and its length.
#[tactic(auto, using(base_laws::proofs::Tests::tests), unfolding(crate::specs::Wording::written, crate::specs::Wording::line_length))]
pub fn frame_line(out: &mut [u8], n: u64, s: &[u8], answer: Answer) -> usize
    ensures line { out.new ≡ written (frame_line n (shown_member s.now) (outcome answer [])) out.old }
    ensures size { result ≡ line_length (frame_line n (shown_member s.now) (outcome answer [])) out.old }
    ensures within { result ≤ length out.old }
{
    if 256 <= out.len() {
        put_frame(out, n, member_of(s), answer)
    } else {
        0
    }
}
