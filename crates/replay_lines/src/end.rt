// The last line of a replay, written at the start of a lent buffer. A buffer of 256 bytes has room for it.
ghost use Rattle.std.specs.Prelude.{◌≡◌, ◌+◌, ◌≤◌, length};
ghost use Rattle.base_copy.specs.Put.{Put};
ghost use Rattle.replay_lines.specs.Wording.{written, line_length};
ghost use Rattle.replay_lines.specs.Ending.{end_text, end_line};

use base_copy::put_raw;
use replay_text::numbers::put_decimal;

// What a replay ends with.
#[derive(Clone, Copy)]
pub enum End {
    // the input's end, with bytes that are no whole frame
    Input { left: usize },
    // a frame that the window can't hold, both with their sizes
    Beyond { size: usize, window: usize },
    // refusal 1
    Refused,
    // a read that failed
    Unread,
}

fn put_ending(out: &mut [u8], at: usize, end: End) -> usize
    requires { at + 87 ≤ length out.old }
    ensures { (Put out.old at (end_text end) out.new result) × (result ≤ at + 87) }
{
    match end {
        End::Input { left } => {
            if left == 0 {
                return at;
            }
            let a = put_raw(out, at, b", ");
            let b = put_decimal(out, a, left as u64);
            put_raw(out, b, b" bytes left over")
        }
        End::Beyond { size, window } => {
            let a = put_raw(out, at, b", then a frame of ");
            let b = put_decimal(out, a, size as u64);
            let c = put_raw(out, b, b" bytes, beyond the window of ");
            put_decimal(out, c, window as u64)
        }
        End::Refused => put_raw(out, at, b", then refused 1"),
        End::Unread => put_raw(out, at, b", then the input could not be read"),
    }
}

fn put_end(out: &mut [u8], n: u64, end: End) -> usize
    requires { 256 ≤ length out.old }
    ensures { Put out.old 0 (end_line n end) out.new result }
{
    let a = put_raw(out, 0, b"end: ");
    let b = put_decimal(out, a, n);
    let c = put_raw(out, b, b" frames");
    let d = put_ending(out, c, end);
    put_raw(out, d, b"\n")
}

// The last line, after n frames, and its length.
#[tactic(auto, using(base_laws::proofs::Tests::tests), unfolding(crate::specs::Wording::written, crate::specs::Wording::line_length))]
pub fn end_line(out: &mut [u8], n: u64, end: End) -> usize
    ensures line { out.new ≡ written (end_line n end) out.old }
    ensures size { result ≡ line_length (end_line n end) out.old }
    ensures within { result ≤ length out.old }
{
    if 256 <= out.len() {
        put_end(out, n, end)
    } else {
        0
    }
}
