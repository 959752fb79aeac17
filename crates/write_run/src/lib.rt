// A run of entries, read before it is written: tagged `info_msgs` fields of the message and nothing else.
#![tactic(auto)]

ghost use Rattle.std.specs.Prelude.{◌≡◌};
ghost use Rattle.write_forms.specs.Run.{entry_at, run_at, run_refusal};

use wire_check::check;
use wire_range::limits::entries_fit;
use wire_schema::INFO_MESSAGE;
use wire_types::{Refusal, Refused, Span};
use wire_value::part_at;
use wire_varint::tag::{Tag, tag_at};

// Where the bytes of the entry at a place are: another field is refused with 4, another wire type with 5.
#[tactic(auto, using(base_laws::proofs::Tests::tests), unfolding(write_forms::specs::Run::entry_at, write_forms::specs::Run::entry_of))]
fn entry_at(field: u64, s: &[u8], at: usize) -> Result<Span, Refused>
    ensures { result ≡ entry_at field s.now at }
{
    match tag_at(s, at) {
        Err(refusal) => Err(Refused { refusal, place: at }),
        Ok(Tag { number, wire, next }) => {
            if number == field {
                if wire == 2 {
                    return part_at(s, next);
                }
                return Err(Refused {
                    refusal: Refusal::WireType,
                    place: at,
                });
            }
            Err(Refused {
                refusal: Refusal::Tag,
                place: at,
            })
        }
    }
}

// The leftmost refusal of 2 to 5 in a run. The loop goes from entry to entry, and counts no index.
fn run_check(field: u64, s: &[u8]) -> Result<(), Refused>
    ensures { result ≡ run_at field s.now 0 }
{
    let mut at: usize = 0;
    while at < s.len() {
        let Span { start, end } = entry_at(field, s, at)?;
        match check(INFO_MESSAGE, &s[start..end]) {
            Ok(()) => {
                at = end;
            }
            Err(refused) => {
                return Err(refused.within(start));
            }
        }
    }
    Ok(())
}

// The refusal of a run, 0 for none: 2 to 5, then 7 where an entry is out of range. It is a number, as the writers pass it on.
pub fn run_refusal(field: u64, s: &[u8]) -> u8
    ensures { result ≡ run_refusal field s.now }
{
    match run_check(field, s) {
        Err(refused) => u8::from(refused.refusal),
        Ok(()) => {
            if entries_fit(s, field) {
                return 0;
            }
            7
        }
    }
}
