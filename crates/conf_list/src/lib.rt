// One setting of the list, into a lent buffer. Inner: `put_..` requires the room, and returns the place after what it put.
#![tactic(auto)]

ghost use Rattle.std.specs.Prelude.{◌≡◌, Bool, ◌+◌, ◌≤◌, [], ◌∷◌, length};
ghost use Rattle.base_copy.specs.Put.{Put};
ghost use Rattle.conf_lines.specs.Span.{spanned, Within};
ghost use Rattle.conf_typed.specs.Typed.{section_name, lower};
ghost use Rattle.conf_typed.specs.Read.{cased};
ghost use Rattle.conf_list.specs.Listing.{four, counted, entry};
ghost use Rattle.conf_list.specs.Entry.{setting_of, room_in, room_for};

use base_copy::put_raw;
use conf_lines::cursor::Cursor;
use conf_lines::span::Span;
use conf_lines::{Step, next_byte};
use conf_typed::{Section, cased_byte};

// ---- how long it is

// What is left of a number of bytes behind a setting whose key and value are so long: none where it does not fit.
fn room_behind(left: usize, section: Section, key: usize, value: usize) -> Option<usize>
    ensures { result ≡ room_in left section key value }
{
    if 4294967295 < key {
        return None;
    }
    if 4294967295 < value {
        return None;
    }
    let size = 12 + section.name().len() + key + value;
    if left < size {
        return None;
    }
    Some(left - size)
}

// The room that is left after a setting whose key and value are so long: `Ok` where all so far fits, `Err` where something did not. What does
// not fit takes nothing.
#[tactic(auto, unfolding(crate::specs::Entry::room_for))]
pub fn room_after(
    room: Result<usize, usize>,
    section: Section,
    key: usize,
    value: usize,
) -> Result<usize, usize>
    ensures { result ≡ room_for room section key value }
{
    match room {
        Ok(left) => room_behind(left, section, key, value).ok_or(left),
        Err(left) => Err(room_behind(left, section, key, value).unwrap_or(left)),
    }
}

// ---- its bytes

fn put_four(out: &mut [u8], at: usize, n: usize) -> usize
    requires { at + 4 ≤ length out.old }
    ensures { Put out.old at (four n) out.new result }
{
    let low = (n % 4294967296) as u32;
    out[at..at + 4].copy_from_slice(&low.to_be_bytes());
    at + 4
}

// The bytes of a span, in lower case or as they are.
fn put_span(out: &mut [u8], at: usize, text: &[u8], p: Span, in_lower: bool) -> usize
    requires { Within text.now p × (at + length (cased in_lower (spanned text.now p)) ≤ length out.old) }
    ensures { Put out.old at (cased in_lower (spanned text.now p)) out.new result }
{
    let mut w = Cursor::at(p.at);
    for i in 0..p.length {
        match next_byte(text, w) {
            Step::Byte(b, next) => {
                out[at + i] = cased_byte(in_lower, b);
                w = next;
            }
            Step::End(_) => {
                return at + i;
            }
        }
    }
    at + p.length
}

// The same behind its length.
fn put_counted(out: &mut [u8], at: usize, text: &[u8], p: Span, in_lower: bool) -> usize
    requires { Within text.now p × (at + length (counted (cased in_lower (spanned text.now p))) ≤ length out.old) }
    ensures { Put out.old at (counted (cased in_lower (spanned text.now p))) out.new result }
{
    let start = put_four(out, at, p.length);
    put_span(out, start, text, p, in_lower)
}

fn put_section(out: &mut [u8], at: usize, section: Section) -> usize
    requires { at + length (counted (section_name section)) ≤ length out.old }
    ensures { Put out.old at (counted (section_name section)) out.new result }
{
    let name = section.name();
    let start = put_four(out, at, name.len());
    put_raw(out, start, name)
}

// A setting: its section, its key in lower case, its value.
pub fn put_setting(
    out: &mut [u8],
    at: usize,
    text: &[u8],
    section: Section,
    key: Span,
    value: Span,
) -> usize
    requires { Within text.now key × Within text.now value × (at + length (entry (setting_of text.now section key value)) ≤ length out.old) }
    ensures { Put out.old at (entry (setting_of text.now section key value)) out.new result }
{
    let first = put_section(out, at, section);
    let second = put_counted(out, first, text, key, true);
    put_counted(out, second, text, value, false)
}
