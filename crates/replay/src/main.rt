// Replays a recorded client stream: reads it from standard input and prints, for each frame, what a session over one area
// answers. What is decided and what is printed stands in `replay_turn` and `replay_lines`, proved; here bytes come in and lines go out.
#![tactic(auto)]

ghost use Rattle.std.specs.Prelude.{IfOk, ◌+◌, ◌≡◌, ◌≤◌, length};

use replay_lines::end::{End, end_line};
use replay_turn::{Replay, start, turn};
use replay_window::{Next, slide};
use std::io;
use std::io::{Read, Stdin, Stdout, Write};

// The last line of a replay.
fn finish(output: &mut Stdout, out: &mut [u8], frames: u64, end: End) {
    let n = end_line(out, frames, end);
    let _ = output.write_all(&out[..n]);
}

// The window that the stream is read through. The bytes at hand stand in it from one place up to another.
// It has 64 KiB, so it is lent and no `Copy`.
#[derive(Drop)]
struct Window {
    bytes: [u8; 65536],
    from: usize,
    held: usize,
    ghost held_within: { (from ≤ held) × (held ≤ 65536) },
}

impl Window {
    fn at_hand(&self) -> &[u8]
        ensures { self.now.from + length result.now ≡ self.now.held }
    {
        &self.bytes[self.from..self.held]
    }

    // Moves the bytes at hand to the start and reads more behind them: how many came.
    fn refill(&mut self, input: &mut Stdin) -> io::Result<usize>
        ensures { IfOk result (λ n. self.new.from + self.old.held + n ≡ self.old.from + self.new.held) }
    {
        slide(&mut self.bytes, self.from, self.held);
        self.held -= self.from;
        self.from = 0;
        let more = input.read(&mut self.bytes[self.held..])?;
        self.held += more;
        Ok(more)
    }
}

// Takes the frames that stand in the window, and reads on where more bytes are needed. Nothing says that an input ends, so the
// loop counts its turns, up to a number that no run reaches.
#[tactic(auto, unfolding(replay_window::specs::Window::FrameWithin))]
fn run(
    input: &mut Stdin,
    output: &mut Stdout,
    window: &mut Window,
    area: &mut [u8],
    out: &mut [u8],
) {
    let mut re = start();
    for _ in 0..u64::MAX {
        let t = turn(re, window.at_hand(), window.bytes.len(), area, out);
        if output.write_all(&out[..t.line]).is_err() {
            return;
        }
        re = t.replay;
        match t.next {
            Next::Frame { size } => window.from += size,
            Next::Wait => match window.refill(input) {
                Err(_) => return finish(output, out, re.frames, End::Unread),
                Ok(0) => return finish(output, out, re.frames, End::Input { left: window.held }),
                Ok(_) => {}
            },
            Next::Beyond { .. } | Next::Refused => return,
        }
    }
}

fn main(rt: HostRuntime) {
    let mut window = Window {
        bytes: [0u8; 65536],
        from: 0,
        held: 0,
    };
    let mut area = [0u8; 65536];
    let mut out = [0u8; 256];
    run(
        &mut rt.stdin(),
        &mut rt.stdout(),
        &mut window,
        &mut area,
        &mut out,
    );
}
