// What C calls to get at values: the fields of a message and the elements of a list, one by one. include/sudolog.h declares these functions and
// says what each one returns. They take numbers and byte slices alone, as those of `c_read` do.
#![tactic(auto)]

ghost use Rattle.std.specs.Prelude.{◌≡◌, ◌-◌, length};
ghost use Rattle.wire_fields.specs.Fields.{fields_at, number_in, span_in, first_of};
ghost use Rattle.wire_elements.specs.Elements.{next_number};
ghost use Rattle.c_values.specs.Answers.{version, offset_of, found_length, next_answer, next_buffer};

use base_numbers::lay;
use wire_elements::next_number;
use wire_fields::{between, next_part, number_in, part_in};

// The interface's number: it changes whenever a call does. `SUDOLOG_VERSION` of include/sudolog.h is the same.
const VERSION: u64 = 1;

#[unsafe(no_mangle)]
pub extern "C" fn sudolog_version() -> u64
    ensures { result ≡ version }
{
    VERSION
}

#[unsafe(no_mangle)]
pub extern "C" fn sudolog_number(field: u64, s: &[u8]) -> u64
    ensures { result ≡ number_in field s.now }
{
    number_in(s, field)
}

#[unsafe(no_mangle)]
pub extern "C" fn sudolog_offset(field: u64, s: &[u8]) -> u64
    ensures { result ≡ (span_in field s.now).start }
{
    part_in(s, field).start as u64
}

#[unsafe(no_mangle)]
pub extern "C" fn sudolog_length(field: u64, s: &[u8]) -> u64
    ensures { result ≡ (span_in field s.now).end - (span_in field s.now).start }
{
    let p = part_in(s, field);
    between(p.start, p.end)
}

#[tactic(auto, unfolding(crate::specs::Answers::offset_of))]
#[unsafe(no_mangle)]
pub extern "C" fn sudolog_next_offset(field: u64, s: &[u8], at: usize) -> u64
    ensures { result ≡ offset_of (first_of field (fields_at s.now at)) }
{
    next_part(s, at, field).map_or(u64::MAX, |p| p.start as u64)
}

#[tactic(auto, unfolding(crate::specs::Answers::found_length))]
#[unsafe(no_mangle)]
pub extern "C" fn sudolog_next_length(field: u64, s: &[u8], at: usize) -> u64
    ensures { result ≡ found_length (first_of field (fields_at s.now at)) }
{
    next_part(s, at, field).map_or(0, |p| between(p.start, p.end))
}

#[tactic(auto, unfolding(crate::specs::Answers::next_answer, crate::specs::Answers::next_buffer))]
#[unsafe(no_mangle)]
pub extern "C" fn sudolog_next_number(s: &[u8], at: usize, end: usize, out: &mut [u8]) -> u8
    ensures answer { result ≡ next_answer (next_number s.now at end) (length out.old) }
    ensures buffer { out.new ≡ next_buffer (next_number s.now at end) out.old }
{
    let Some(next) = next_number(s, at, end) else {
        return 0;
    };
    // the numbers of include/sudolog.h: C gets no Option and no Result
    if lay(out, &[next.value, next.at as u64, next.end as u64]) {
        1
    } else {
        12
    }
}
