// What the replay program does with the bytes at hand, and the lines that it prints. The program itself only reads, writes and
// moves its window on.
#![tactic(auto)]

ghost use Rattle.std.specs.Prelude.{◌≡◌, ◌≤◌, length};
ghost use Rattle.replay_lines.specs.Wording.{written, line_length};
ghost use Rattle.replay_window.specs.Window.{FrameWithin};
ghost use Rattle.replay_turn.specs.Turn as t;
ghost use Rattle.replay_turn.specs.Turn.{turned};

use replay_lines::end::{End, end_line};
use replay_lines::frame::frame_line;
use replay_window::{Next, decide};
use session::{Session, open};
use session_step::message;

// What a replay carries from frame to frame: the session, the used length that it last answered, how many frames it was handed.
#[derive(Clone, Copy)]
pub struct Replay {
    pub session: Session,
    pub used: usize,
    pub frames: u64,
}

// What a turn gives: the replay afterwards, the decision, and the length of the line in the lent buffer.
#[derive(Clone, Copy)]
pub struct Shown {
    pub replay: Replay,
    pub next: Next,
    pub line: usize,
}

pub fn start() -> Replay
    ensures { result ≡ t.started }
{
    Replay {
        session: open(),
        used: 0,
        frames: 0,
    }
}

// One decision on the bytes at hand, s, which a window of this size holds: a whole frame is handed to the session, and its line,
// or the last one, is written to `out`.
#[tactic(auto, using(replay_lines::proofs::Lines::silent), unfolding(replay_window::specs::Window::FrameWithin, crate::specs::Turn::turned, crate::specs::Turn::by_next))]
pub fn turn(re: Replay, s: &[u8], window: usize, area: &mut [u8], out: &mut [u8]) -> Shown
    ensures replay { result.replay ≡ (turned re s.now window area.old).replay }
    ensures next { result.next ≡ (turned re s.now window area.old).next }
    ensures area { area.new ≡ (turned re s.now window area.old).area }
    ensures line { out.new ≡ written (turned re s.now window area.old).line out.old }
    ensures size { result.line ≡ line_length (turned re s.now window area.old).line out.old }
    ensures within { (result.line ≤ length out.old) × FrameWithin (length s.now) result.next }
{
    match decide(s, window) {
        Next::Wait => Shown {
            replay: re,
            next: Next::Wait,
            line: 0,
        },
        Next::Frame { size } => {
            let answer = message(re.session, &s[4..size], area, re.used);
            let frames = re.frames.saturating_add(1);
            let line = frame_line(out, frames, &s[4..size], answer);
            Shown {
                replay: Replay {
                    session: answer.session,
                    used: answer.used,
                    frames,
                },
                next: Next::Frame { size },
                line,
            }
        }
        Next::Beyond { size } => {
            let line = end_line(out, re.frames, End::Beyond { size, window });
            Shown {
                replay: re,
                next: Next::Beyond { size },
                line,
            }
        }
        Next::Refused => {
            let line = end_line(out, re.frames, End::Refused);
            Shown {
                replay: re,
                next: Next::Refused,
                line,
            }
        }
    }
}
