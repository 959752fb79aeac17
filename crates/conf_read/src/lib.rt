// A configuration read in two passes over its text: the first finds the refusal, the typed values and whether the list has room, the second
// writes the list, where the first refuses nothing. `read_config` is for hosts and requires nothing; the others are inner.
#![tactic(auto)]

pub mod refusal;
pub mod survey;
pub mod values;

ghost use Rattle.std.specs.Prelude.{◌≡◌, ◌+◌, ◌≤◌, ◌<◌, length};
ghost use Rattle.base_copy.specs.Put.{Put};
ghost use Rattle.conf_list.specs.Listing.{listing};
ghost use Rattle.conf_read.specs.Config.{statements_of, config_answer, config_out};
ghost use Rattle.conf_read.specs.Passes.{ahead, Good, listed, Wrote};

use crate::refusal::ConfigError;
use crate::survey::{line_at, survey_text};
use crate::values::Values;
use conf_content::Shape;
use conf_lines::cursor::Cursor;
use conf_list::put_setting;
use conf_typed::{Section, section_of};

// A configuration read: how many bytes its list is, and the typed values.
#[derive(Clone, Copy)]
pub struct Config {
    pub size: usize,
    pub values: Values,
}

// Where the second pass stands: in the buffer, at a line, in a section.
#[derive(Clone, Copy)]
pub struct Written {
    pub at: usize,
    pub cursor: Cursor,
    pub section: Section,
}

fn write_line(out: &mut [u8], text: &[u8], w: Written) -> Written
    requires cursor { w.cursor.at < length text.now }
    requires good { Good (ahead text.now w.cursor w.section) }
    requires room { w.at + length (listing (listed (ahead text.now w.cursor w.section))) ≤ length out.old }
    ensures { Wrote out.old text.now w out.new result }
{
    let l = line_at(text, w.cursor);
    let cursor = l.next;
    // the first pass refuses a text that has a malformed line
    let Ok(found) = l.shape else {
        return Written { cursor, ..w };
    };
    let Some(shape) = found else {
        return Written { cursor, ..w };
    };
    match shape {
        Shape::Header(name) => Written {
            cursor,
            section: section_of(text, name),
            ..w
        },
        Shape::Setting(k, v) => Written {
            at: put_setting(out, w.at, text, w.section, k, v),
            cursor,
            ..w
        },
    }
}

fn write_list(out: &mut [u8], text: &[u8]) -> usize
    requires good { Good (statements_of text.now) }
    requires room { length (listing (listed (statements_of text.now))) ≤ length out.old }
    ensures { Put out.old 0 (listing (listed (statements_of text.now))) out.new result }
{
    let mut w = Written {
        at: 0,
        cursor: Cursor::at(0),
        section: Section::Unknown,
    };
    while w.cursor.at < text.len() {
        w = write_line(out, text, w);
    }
    w.at
}

// Reads a configuration: stores the list of its settings at the start of the buffer, and returns its size with the typed values. A
// refusal, or a list that has no room, leaves the buffer as it is.
pub fn read_config(text: &[u8], out: &mut [u8]) -> Result<Config, ConfigError>
    ensures answer { result ≡ config_answer text.now out.old }
    ensures out { out.new ≡ config_out text.now out.old }
{
    let tally = survey_text(text, out.len())?;
    if tally.room.is_err() {
        return Err(ConfigError::NoRoom);
    }
    let size = write_list(out, text);
    Ok(Config {
        size,
        values: tally.values,
    })
}
