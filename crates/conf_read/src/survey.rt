// The first pass: the refusal, the typed values, the room. Inner.
ghost use Rattle.std.specs.Prelude.{◌≡◌, ◌+◌, ◌≤◌, ◌<◌, length};
ghost use Rattle.conf_lines.specs.Span.{spanned, Within};
ghost use Rattle.conf_content.specs.Shape.{meant, Parts};
ghost use Rattle.conf_content.specs.Content.{setting};
ghost use Rattle.conf_read.specs.Config.{is_unknown, statements_of};
ghost use Rattle.conf_read.specs.Passes.{start_tally, setting_turn, turn_of, LineAt, surveyed_of, Surveys, survey_of};

use crate::refusal::{BadLine, ConfRefusal};
use crate::values::{Values, default_values, values_with};
use conf_content::{LineRead, Malformed, Shape, read_line};
use conf_lines::cursor::Cursor;
use conf_lines::span::Span;
use conf_lines::{Start, line_start};
use conf_list::room_after;
use conf_typed::{Section, section_of, typed_of};

// What is added up of the settings so far, with the room that is left: `Ok` where all of them fit, `Err` where one did not.
#[derive(Clone, Copy)]
pub struct Tally {
    pub values: Values,
    pub room: Result<usize, usize>,
}

// What a good line does: nothing, it opens a section, or it adds a setting.
#[derive(Clone, Copy)]
pub enum Turn {
    Nothing,
    Opens(Section),
    Sets(Tally),
}

// Where the pass stands: at a line, in a section, with what was added up.
#[derive(Clone, Copy)]
pub struct Place {
    pub cursor: Cursor,
    pub section: Section,
    pub tally: Tally,
}

// The line at a cursor, and the cursor of the next one. A remark is a line with nothing on it.
pub fn line_at(text: &[u8], c: Cursor) -> LineRead
    requires { c.at < length text.now }
    ensures { LineAt text.now c result }
{
    match line_start(text, c) {
        Start::Line(first) => read_line(text, first),
        Start::Remark(next) => LineRead {
            shape: Ok(None),
            next,
        },
    }
}

fn is_unknown(section: Section) -> bool
    ensures { result ≡ is_unknown section }
{
    matches!(section, Section::Unknown)
}

// A setting in a section.
fn take_setting(
    text: &[u8],
    section: Section,
    k: Span,
    v: Span,
    t: Tally,
) -> Result<Tally, ConfRefusal>
    requires { Within text.now k × Within text.now v }
    ensures { result ≡ setting_turn t section (spanned text.now k) (spanned text.now v) }
{
    if is_unknown(section) {
        return Err(ConfRefusal::NoSection);
    }
    let typed = typed_of(text, section, k, v)?;
    let values = values_with(t.values, section, Ok(typed));
    let room = room_after(t.room, section, k.length, v.length);
    Ok(Tally { values, room })
}

fn take_line(
    text: &[u8],
    section: Section,
    shape: Result<Option<Shape>, Malformed>,
    t: Tally,
) -> Result<Turn, ConfRefusal>
    requires { Parts text.now shape }
    ensures { result ≡ turn_of t section (meant text.now shape) }
{
    match shape? {
        None => Ok(Turn::Nothing),
        Some(Shape::Header(name)) => Ok(Turn::Opens(section_of(text, name))),
        Some(Shape::Setting(k, v)) => Ok(Turn::Sets(take_setting(text, section, k, v, t)?)),
    }
}

// Where the pass stands behind a line that did this.
#[tactic(auto, unfolding(crate::specs::Passes::surveyed_of))]
fn place_after(p: Place, next: Cursor, turn: Result<Turn, ConfRefusal>) -> Result<Place, BadLine>
    requires { p.cursor.feeds < 18446744073709551615 }
    ensures { result ≡ surveyed_of p next turn }
{
    match turn {
        Ok(Turn::Nothing) => Ok(Place { cursor: next, ..p }),
        Ok(Turn::Opens(section)) => Ok(Place {
            cursor: next,
            section,
            ..p
        }),
        Ok(Turn::Sets(tally)) => Ok(Place {
            cursor: next,
            tally,
            ..p
        }),
        Err(refusal) => Err(BadLine {
            refusal,
            line: p.cursor.feeds + 1,
        }),
    }
}

fn survey_line(text: &[u8], p: Place) -> Result<Place, BadLine>
    requires { p.cursor.at < length text.now }
    ensures { Surveys text.now p result }
{
    let l = line_at(text, p.cursor);
    let turn = take_line(text, p.section, l.shape, p.tally);
    place_after(p, l.next, turn)
}

fn start_tally(room: usize) -> Tally
    ensures { result ≡ start_tally room }
{
    Tally {
        values: default_values(),
        room: Ok(room),
    }
}

pub fn survey_text(text: &[u8], room: usize) -> Result<Tally, BadLine>
    ensures { result ≡ survey_of (start_tally room) (statements_of text.now) }
{
    let mut p = Place {
        cursor: Cursor::at(0),
        section: Section::Unknown,
        tally: start_tally(room),
    };
    while p.cursor.at < text.len() {
        p = survey_line(text, p)?;
    }
    Ok(p.tally)
}
