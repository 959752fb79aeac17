// The check of any message, by the one schema.
#![tactic(auto)]

pub mod entry;

ghost use Rattle.std.specs.Prelude.{◌≡◌};
ghost use Rattle.wire_check_field.specs.Check.{check_of};

use crate::entry::sound_entry;
use wire_check_field::{Step, step_at};
use wire_schema::INFO_MESSAGE;
use wire_types::Refused;

// The check of a message: the leftmost refusal of 2 to 5, depth first. Most bytes of an accept are in its entries, which have a fast path.
// The message is a number and no enum, as in `step_at`. The loop goes from field to field, and counts no index.
pub fn check(message: u8, s: &[u8]) -> Result<(), Refused>
    ensures { result ≡ check_of message s.now }
{
    if message == INFO_MESSAGE && sound_entry(s) {
        return Ok(());
    }
    let mut at: usize = 0;
    while at < s.len() {
        match step_at(message, s, at)? {
            Step::Next { next } => {
                at = next;
            }
            Step::Inside {
                message: inner,
                start,
                end,
            } => match check(inner, &s[start..end]) {
                Ok(()) => {
                    at = end;
                }
                Err(refused) => {
                    return Err(refused.within(start));
                }
            },
        }
    }
    Ok(())
}
