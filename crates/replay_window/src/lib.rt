// The window that a stream is read through.
#![tactic(auto)]

ghost use Rattle.std.specs.Prelude.{◌≡◌, length};
ghost use Rattle.replay_window.specs.Window.{FrameWithin, next_of, slid};

use wire_frame::{Cut, cut_frame};

// What the bytes at hand call for. Four outcomes, and no Result of an Option: `run` acts on each in its own way, and hands none on as an error.
#[derive(Clone, Copy)]
pub enum Next {
    // more bytes
    Wait,
    // a whole frame of this size, its four bytes included, is the session's
    Frame { size: usize },
    // the end: the window can't hold a frame of this size
    Beyond { size: usize },
    // the end: refusal 1
    Refused,
}

#[tactic(auto, using(crate::proofs::Cuts::sized, base_laws::proofs::Tests::tests), unfolding(crate::specs::Window::next_of, crate::specs::Window::by_cut, crate::specs::Window::FrameWithin))]
pub fn decide(s: &[u8], window: usize) -> Next
    ensures next { result ≡ next_of s.now window }
    ensures within { FrameWithin (length s.now) result }
{
    match cut_frame(s) {
        Cut::Wait { missing } => {
            let size = s.len() + missing;
            if window < size {
                Next::Beyond { size }
            } else {
                Next::Wait
            }
        }
        Cut::Frame { length } => Next::Frame { size: 4 + length },
        Cut::Refused => Next::Refused,
    }
}

// Moves the bytes from one place up to another to the start. Places that the window does not have leave it as it was.
#[tactic(auto, using(crate::proofs::Slides::not_held, crate::proofs::Slides::turned_round, crate::proofs::Slides::all_moved))]
pub fn slide(window: &mut [u8], from: usize, held: usize)
    ensures { window.new ≡ slid window.old from held }
{
    if window.len() < held || held < from {
        return;
    }
    window.copy_within(from..held, 0);
}
