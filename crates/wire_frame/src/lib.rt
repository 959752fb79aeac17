// Frames: the cut of a stream of bytes into messages. Each answer is what specs/Frame says of the bytes at hand.
#![tactic(auto)]

ghost use Rattle.std.specs.Prelude.{◌≡◌};
ghost use Rattle.wire_frame.specs.Frame.{cut_of, frame_state, count_of};

// The length of the longest message in a frame.
const FRAME_LIMIT: usize = 2097152;

// What stands at the start of a stream. Three outcomes, and no Option or Result: each caller acts on all three and hands none on, and the
// theorems of delivery (claim_delivery) speak of them by these names.
#[derive(Clone, Copy)]
pub enum Cut {
    // too few bytes yet: how many are missing to the next decision
    Wait { missing: usize },
    // a whole frame: the length of its message, which follows the four bytes
    Frame { length: usize },
    // a length above 2,097,152
    Refused,
}

// The cut at the start of a stream.
#[tactic(auto, using(crate::proofs::Head::head_number, base_laws::proofs::Tests::tests), unfolding(crate::specs::Frame::cut_of))]
pub fn cut_frame(s: &[u8]) -> Cut
    ensures { result ≡ cut_of s.now }
{
    let held = s.len();
    let Some(head) = s.first_chunk::<4>() else {
        return Cut::Wait { missing: 4 - held };
    };
    let length = u32::from_be_bytes(*head) as usize;
    if FRAME_LIMIT < length {
        return Cut::Refused;
    }
    if held < 4 + length {
        return Cut::Wait {
            missing: 4 + length - held,
        };
    }
    Cut::Frame { length }
}

// 0 for a whole frame, 1 for a refused one, 2 for one to wait for.
#[tactic(auto, unfolding(crate::specs::Frame::refusal_of, crate::specs::Frame::frame_state))]
pub fn state_of(c: Cut) -> u8
    ensures { result ≡ frame_state c }
{
    match c {
        Cut::Wait { missing: _ } => 2,
        Cut::Frame { length: _ } => 0,
        Cut::Refused => 1,
    }
}

// The message length of a whole frame; how many bytes are missing to one to wait for; 0 for a refused one.
#[tactic(auto, unfolding(crate::specs::Frame::count_of))]
pub fn count_of(c: Cut) -> usize
    ensures { result ≡ count_of c }
{
    match c {
        Cut::Wait { missing } => missing,
        Cut::Frame { length } => length,
        Cut::Refused => 0,
    }
}
