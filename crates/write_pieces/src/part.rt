// Fields that hold bytes, TimeSpecs, and the front of a frame.
ghost use Rattle.std.specs.Prelude.{◌≡◌, ℕ, ◌+◌, ◌≤◌, length};
ghost use Rattle.write_forms.specs.Pieces.{head, text, encode, front};
ghost use Rattle.write_forms.specs.Draft.{time};
ghost use Rattle.base_copy.specs.Put.{Put};
ghost use Rattle.write_pieces.specs.Parts.{Like, time_piece, cover, stamp};

use crate::number::{len_number, len_varint, put_number, put_varint};
use base_copy::put_raw;
use wire_types::Time;

// The length of the longest message, and the length that stands for every greater one: a number and no None, so that lengths are added
// up without a test at each sum, and tested once for all.
pub const MESSAGE_LIMIT: usize = 2_097_152;

pub const TOO_LONG: usize = 2_097_153;

// The tag and the length before n bytes of a field.
#[tactic(auto, using(crate::proofs::Fields::length_head))]
pub fn len_head(f: u8, n: usize) -> usize
    ensures { (result ≡ length (head f n)) × (result ≤ 20) }
{
    len_varint(f as u64 * 8 + 2) + len_varint(n as u64)
}

#[tactic(auto, using(crate::proofs::Fields::length_head))]
pub fn put_head(out: &mut [u8], at: usize, f: u8, n: usize) -> usize
    requires { at + length (head f n) ≤ length out.old }
    ensures { Put out.old at (head f n) out.new result }
{
    let a = put_varint(out, at, f as u64 * 8 + 2);
    put_varint(out, a, n as u64)
}

// The same, or nothing where f is 0.
#[tactic(auto, using(crate::proofs::Fields::cover_none, crate::proofs::Fields::cover_some))]
pub fn len_cover(f: u8, n: usize) -> usize
    ensures { (result ≡ length (cover f n)) × (result ≤ 20) }
{
    if f == 0 {
        return 0;
    }
    len_head(f, n)
}

pub fn put_cover(out: &mut [u8], at: usize, f: u8, n: usize) -> usize
    requires { at + length (cover f n) ≤ length out.old }
    ensures { Put out.old at (cover f n) out.new result }
{
    if f == 0 {
        return at;
    }
    put_head(out, at, f, n)
}

pub fn len_raw(d: &[u8]) -> usize
    ensures { (Like result d.now) × (result ≤ 2097153) }
{
    d.len().min(TOO_LONG)
}

pub fn len_text(f: u8, d: &[u8]) -> usize
    ensures { (Like result (encode (text f d.now))) × (result ≤ 2097173) }
{
    if MESSAGE_LIMIT < d.len() {
        return TOO_LONG;
    }
    if d.len() == 0 {
        return 0;
    }
    len_head(f, d.len()) + d.len()
}

pub fn put_text(out: &mut [u8], at: usize, f: u8, d: &[u8]) -> usize
    requires { at + length (encode (text f d.now)) ≤ length out.old }
    ensures { Put out.old at (encode (text f d.now)) out.new result }
{
    if d.len() == 0 {
        return at;
    }
    let a = put_head(out, at, f, d.len());
    put_raw(out, a, d)
}

// ---- TimeSpecs

#[tactic(auto, using(crate::proofs::Fields::length_stamp))]
fn len_stamp(t: Time) -> usize
    ensures { (result ≡ length (time (stamp t.seconds t.nanos))) × (result ≤ 40) }
{
    len_number(1, t.seconds, false) + len_number(2, t.nanos, false)
}

pub fn len_time(f: u8, t: Time) -> usize
    ensures { (result ≡ length (encode (time_piece f (stamp t.seconds t.nanos)))) × (result ≤ 60) }
{
    if f == 0 {
        return 0;
    }
    let n = len_stamp(t);
    len_head(f, n) + n
}

pub fn put_time(out: &mut [u8], at: usize, f: u8, t: Time) -> usize
    requires { at + length (encode (time_piece f (stamp t.seconds t.nanos))) ≤ length out.old }
    ensures { Put out.old at (encode (time_piece f (stamp t.seconds t.nanos))) out.new result }
{
    if f == 0 {
        return at;
    }
    let a = put_head(out, at, f, len_stamp(t));
    let b = put_number(out, a, 1, t.seconds, false);
    put_number(out, b, 2, t.nanos, false)
}

// ---- frames

// How many bytes stand before a frame's message.
#[tactic(auto, unfolding(write_forms::specs::Pieces::front))]
pub fn len_front(framed: bool) -> usize
    ensures { ((n : ℕ) → result ≡ length (front framed n)) × (result ≤ 4) }
{
    if framed { 4 } else { 0 }
}

// The four bytes before a frame's message of n bytes, most significant first.
#[tactic(auto, unfolding(write_forms::specs::Pieces::front))]
pub fn put_front(out: &mut [u8], framed: bool, n: usize) -> usize
    requires { length (front framed n) ≤ length out.old }
    ensures { Put out.old 0 (front framed n) out.new result }
{
    if framed {
        // The low four bytes: that a message is shorter than 4 GiB is not asked here.
        let four = ((n % 4_294_967_296) as u32).to_be_bytes();
        return put_raw(out, 0, &four);
    }
    0
}
