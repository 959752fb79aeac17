// What a line of a configuration is: nothing, a section's header, a setting, or bad.
#![tactic(auto)]

ghost use Rattle.std.specs.Prelude.{◌≡◌, false, ◌<◌, drop, eqb};
ghost use Rattle.conf_lines.specs.Span.{joined_from};
ghost use Rattle.conf_content.specs.Shape.{measure_of, see, Measured, Shaped, Read};

use conf_lines::cursor::Cursor;
use conf_lines::span::Span;
use conf_lines::{Step, is_blank, next_byte};

// The first `=` of a line: how long the key before it is, and where the value behind it begins.
#[derive(Clone, Copy)]
pub struct Equals {
    pub key: usize,
    pub value: usize,
}

// What one pass over a line's bytes notes: how many there are, and how many up to the last that is no blank; the first, and the last that
// is no blank; the first `=`.
#[derive(Clone, Copy)]
pub struct Measure {
    pub count: usize,
    pub length: usize,
    pub first: u8,
    pub last: u8,
    pub equals: Option<Equals>,
}

// A line's measure, and where the next line begins.
#[derive(Clone, Copy)]
pub struct MeasuredLine {
    pub measure: Measure,
    pub next: Cursor,
}

// The refusal of a line that is neither a section's header nor a setting.
#[derive(Clone, Copy, Debug, PartialEq, Eq)]
pub struct Malformed;

// A section's header by the section's name, or a setting by its key and value.
#[derive(Clone, Copy)]
pub enum Shape {
    Header(Span),
    Setting(Span, Span),
}

// What a line is, `None` for an empty one, and where the next one begins.
#[derive(Clone, Copy)]
pub struct LineRead {
    pub shape: Result<Option<Shape>, Malformed>,
    pub next: Cursor,
}

// ---- one pass over the bytes

#[tactic(auto, using(base_laws::proofs::Tests::tests), unfolding(crate::specs::Shape::see))]
fn first_with(m: Measure, b: u8) -> u8
    ensures { result ≡ (see m b).first }
{
    if m.count == 0 { b } else { m.first }
}

// The first `=` with a byte more. Blanks at the start of the value go.
fn equals_with(m: Measure, b: u8) -> Option<Equals>
    requires { m.count < 18446744073709551615 }
    ensures { result ≡ (see m b).equals }
{
    let Some(e) = m.equals else {
        if b == b'=' {
            return Some(Equals {
                key: m.length,
                value: m.count + 1,
            });
        }
        return None;
    };
    if is_blank(b) && e.value == m.count {
        return Some(Equals {
            key: e.key,
            value: m.count + 1,
        });
    }
    Some(e)
}

fn see_byte(m: Measure, b: u8) -> Measure
    requires { m.count < 18446744073709551615 }
    ensures { result ≡ see m b }
{
    let count = m.count + 1;
    let first = first_with(m, b);
    let equals = equals_with(m, b);
    if is_blank(b) {
        return Measure {
            count,
            first,
            equals,
            ..m
        };
    }
    Measure {
        count,
        length: count,
        first,
        last: b,
        equals,
    }
}

fn measure_line(text: &[u8], c: Cursor) -> MeasuredLine
    ensures { Measured text.now c result }
{
    let mut m = Measure {
        count: 0,
        length: 0,
        first: 0,
        last: 0,
        equals: None,
    };
    let mut w = c;
    loop {
        match next_byte(text, w) {
            Step::Byte(b, next) => {
                m = see_byte(m, b);
                w = next;
            }
            Step::End(next) => {
                return MeasuredLine { measure: m, next };
            }
        }
    }
}

// ---- its parts

// The place behind so many bytes of a line; the line's end where it has fewer.
fn advance(text: &[u8], from: Cursor, n: usize) -> Cursor
    ensures { joined_from text.now result.at ≡ drop n (joined_from text.now from.at) }
{
    let mut w = from;
    for _i in 0..n {
        match next_byte(text, w) {
            Step::Byte(_, next) => {
                w = next;
            }
            Step::End(_) => {
                return w;
            }
        }
    }
    w
}

fn header_of(text: &[u8], at: usize, m: Measure) -> Result<Option<Shape>, Malformed>
    requires measured { m ≡ measure_of (joined_from text.now at) }
    requires first { (m.first ≡ 91) × (0 < m.length) }
    ensures { Shaped text.now at result }
{
    if m.last == b']' && 2 <= m.length {
        let name = Span {
            at: advance(text, Cursor::at(at), 1).at,
            length: m.length - 2,
        };
        return Ok(Some(Shape::Header(name)));
    }
    Err(Malformed)
}

fn setting_of(text: &[u8], at: usize, m: Measure) -> Result<Option<Shape>, Malformed>
    requires measured { m ≡ measure_of (joined_from text.now at) }
    requires first { (eqb m.first 91 ≡ false) × (0 < m.length) }
    ensures { Shaped text.now at result }
{
    let Some(e) = m.equals else {
        return Err(Malformed);
    };
    if e.key == 0 {
        return Err(Malformed);
    }
    let key = Span { at, length: e.key };
    let value = Span {
        at: advance(text, Cursor::at(at), e.value).at,
        length: m.length.saturating_sub(e.value),
    };
    Ok(Some(Shape::Setting(key, value)))
}

fn shape_of(text: &[u8], at: usize, m: Measure) -> Result<Option<Shape>, Malformed>
    requires { m ≡ measure_of (joined_from text.now at) }
    ensures { Shaped text.now at result }
{
    if m.length == 0 {
        return Ok(None);
    }
    if m.first == b'[' {
        return header_of(text, at, m);
    }
    setting_of(text, at, m)
}

// A line from the cursor at its first byte on.
pub fn read_line(text: &[u8], c: Cursor) -> LineRead
    ensures { Read text.now c result }
{
    let p = measure_line(text, c);
    LineRead {
        shape: shape_of(text, c.at, p.measure),
        next: p.next,
    }
}
