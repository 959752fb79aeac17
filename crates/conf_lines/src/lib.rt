// The lines of a configuration text, byte by byte: `;` lines, comments and joins are passed over here, so that callers see the bytes that count.
// The text and the cursor are two parameters and no struct: callers keep the one, and step copies of the other.
#![tactic(auto)]

pub mod cursor;
pub mod span;

ghost use Rattle.std.specs.Prelude.{◌≡◌, Bool, true, false, ◌+◌, ◌≤◌, ◌<◌, length, drop};
ghost use Rattle.conf_lines.specs.Lines.{is_blank, lead, is_remark};
ghost use Rattle.conf_lines.specs.Scan.{piece_ends, scanned, passing, comment, Ended, Same, Stepped, Passed, Started};

use crate::cursor::Cursor;

// The next byte of a line with the cursor behind it, or the line's end with the cursor at the next line. An enum of its own, as the two below:
// no outcome is an error or nothing, each has its cursor, and its name says of what.
#[derive(Clone, Copy)]
pub enum Step {
    Byte(u8, Cursor),
    End(Cursor),
}

// A step, or a join that is passed, with the cursor at the next piece.
#[derive(Clone, Copy)]
pub enum Pass {
    Stepped(Step),
    Join(Cursor),
}

// What starts at the start of a line of the text: a line, with the cursor at its first byte, or a remark, with the cursor at the next line.
#[derive(Clone, Copy)]
pub enum Start {
    Line(Cursor),
    Remark(Cursor),
}

#[tactic(auto, unfolding(crate::specs::Lines::is_blank))]
pub fn is_blank(b: u8) -> bool
    ensures { result ≡ is_blank b }
{
    matches!(b, b' ' | b'\t')
}

// The first place from here on that has no blank.
fn past_blanks(text: &[u8], from: usize) -> usize
    ensures rest { drop result text.now ≡ lead (drop from text.now) }
    ensures ahead { from ≤ result }
{
    let mut at = from;
    while at < text.len() && is_blank(text[at]) {
        at += 1;
    }
    at
}

// The cursor behind the next line feed, or at the end of the text.
fn past_line(text: &[u8], c: Cursor) -> Cursor
    ensures { Ended text.now c (scanned comment (drop c.at text.now)) result }
{
    for at in c.at..text.len() {
        if text[at] == b'\n' {
            return Cursor {
                at: at + 1,
                feeds: c.feeds + 1,
            };
        }
    }
    Cursor {
        at: c.at.max(text.len()),
        feeds: c.feeds,
    }
}

// Does a piece end at a place: the text, the line, or a comment begins.
fn piece_ends(text: &[u8], at: usize) -> bool
    ensures { result ≡ piece_ends (drop at text.now) }
{
    text.len() <= at || matches!(text[at], b'\n' | b'#')
}

// From behind a joining `\` on to the next piece.
fn past_join(text: &[u8], c: Cursor) -> Cursor
    ensures { Same text.now c (scanned passing (drop c.at text.now)) result }
{
    let next = past_line(text, c);
    let at = past_blanks(text, next.at);
    Cursor {
        at,
        feeds: next.feeds,
    }
}

// The byte at a cursor: of the line, its end, or a join.
fn pass_byte(text: &[u8], c: Cursor) -> Pass
    ensures { Passed text.now c result }
{
    if text.len() <= c.at {
        return Pass::Stepped(Step::End(c));
    }
    let b = text[c.at];
    if b == b'\n' {
        return Pass::Stepped(Step::End(Cursor {
            at: c.at + 1,
            feeds: c.feeds + 1,
        }));
    }
    if b == b'#' {
        return Pass::Stepped(Step::End(past_line(text, c)));
    }
    let next = Cursor {
        at: c.at + 1,
        feeds: c.feeds,
    };
    if b == b'\\' && piece_ends(text, c.at + 1) {
        return Pass::Join(past_join(text, next));
    }
    Pass::Stepped(Step::Byte(b, next))
}

// A step past any joins.
fn step_past_joins(text: &[u8], c: Cursor) -> Step
    ensures { Stepped text.now c result }
{
    let mut w = c;
    loop {
        match pass_byte(text, w) {
            Pass::Stepped(step) => {
                return step;
            }
            Pass::Join(next) => {
                w = next;
            }
        }
    }
}

// The next byte of a line, or its end. Most bytes go by the fast path. The three calls keep `step_past_joins` out of line: called at one place it
// would be inlined here, and this function would be too large to be inlined into its callers' loops.
pub fn next_byte(text: &[u8], c: Cursor) -> Step
    ensures { Stepped text.now c result }
{
    if text.len() <= c.at {
        return Step::End(c);
    }
    let b = text[c.at];
    if b == b'\n' {
        return step_past_joins(text, c);
    }
    if b == b'#' {
        return step_past_joins(text, c);
    }
    if b == b'\\' {
        return step_past_joins(text, c);
    }
    Step::Byte(
        b,
        Cursor {
            at: c.at + 1,
            feeds: c.feeds,
        },
    )
}

// At the start of a line of the text: blanks go, and a `;` then makes it a remark.
pub fn line_start(text: &[u8], c: Cursor) -> Start
    ensures { Started text.now c result }
{
    let at = past_blanks(text, c.at);
    if at < text.len() && text[at] == b';' {
        return Start::Remark(past_line(text, c));
    }
    Start::Line(Cursor { at, feeds: c.feeds })
}
