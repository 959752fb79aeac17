// The sections' names and the typed settings. Inner: spans are those of a line (conf_lines). Each function requires it, and no type says it: a
// span has no text of its own, and of what lies within a text no struct is plainer than the two.
#![tactic(auto)]

ghost use Rattle.std.specs.Prelude.{◌≡◌, true, [], ◌∷◌, ◌+◌, ◌*◌, ◌-◌, ◌≤◌, map};
ghost use Rattle.conf_lines.specs.Span.{spanned, Within};
ghost use Rattle.conf_typed.specs.Typed.{is_digit, same, lower, section_name, section_of, timeout_of, maxseq_of, one_of, keepalive_of, link_typed, typed_of};
ghost use Rattle.conf_typed.specs.Read.{cased, capped, decimal_of};

use conf_lines::cursor::Cursor;
use conf_lines::span::Span;
use conf_lines::{Step, next_byte};

// The six sections of the paper; `Unknown` for any other, and before the first header. No `Option<Section>`: `Unknown` is a section that a text
// can be in, and the theorems of claim_config start in it (`InOrder`).
#[derive(Clone, Copy, Debug, PartialEq, Eq)]
pub enum Section {
    Server,
    Relay,
    Iolog,
    Eventlog,
    Syslog,
    Logfile,
    Unknown,
}

impl Section {
    // Those that a header can name.
    pub const NAMED: [Section; 6] = [
        Section::Server,
        Section::Relay,
        Section::Iolog,
        Section::Eventlog,
        Section::Syslog,
        Section::Logfile,
    ];

    #[tactic(auto, unfolding(crate::specs::Typed::section_name))]
    pub fn name(self) -> &'static [u8]
        ensures { result.now ≡ section_name self }
    {
        match self {
            Section::Server => b"server",
            Section::Relay => b"relay",
            Section::Iolog => b"iolog",
            Section::Eventlog => b"eventlog",
            Section::Syslog => b"syslog",
            Section::Logfile => b"logfile",
            Section::Unknown => b"",
        }
    }
}

// A typed setting's value.
#[derive(Clone, Copy)]
pub enum Typed {
    Timeout(u64),
    Keepalive(bool),
    Maxseq(u64),
}

// The refusal of a typed setting's value.
#[derive(Clone, Copy, Debug, PartialEq, Eq)]
pub struct BadValue;

// ---- words

// Are the bytes of a span a word's: in any case, or as they are.
fn is_word(text: &[u8], p: Span, any_case: bool, word: &[u8]) -> bool
    requires { Within text.now p }
    ensures { result ≡ same (cased any_case (spanned text.now p)) word.now }
{
    if p.length != word.len() {
        return false;
    }
    let mut w = Cursor::at(p.at);
    for expected in word {
        match next_byte(text, w) {
            Step::Byte(b, next) => {
                if cased_byte(any_case, b) != *expected {
                    return false;
                }
                w = next;
            }
            Step::End(_) => {
                return false;
            }
        }
    }
    true
}

pub fn cased_byte(any_case: bool, b: u8) -> u8
    ensures { cased any_case (b ∷ []) ≡ result ∷ [] }
{
    if any_case { b.to_ascii_lowercase() } else { b }
}

// The section that a header names.
pub fn section_of(text: &[u8], name: Span) -> Section
    requires { Within text.now name }
    ensures { result ≡ section_of (lower (spanned text.now name)) }
{
    for section in Section::NAMED {
        if is_word(text, name, true, section.name()) {
            return section;
        }
    }
    Section::Unknown
}

// ---- values

// A number with a digit more, up to 2^32.
fn with_digit(v: u64, b: u8) -> u64
    requires { (v ≤ 4294967296) × (is_digit b ≡ true) }
    ensures { result ≡ capped (v * 10 + (b - 48)) }
{
    let n = v * 10 + u64::from(b - b'0');
    n.min(4294967296)
}

// The number that a span's digits are, 2^32 for any above; none where it is no decimal.
fn decimal_of(text: &[u8], p: Span) -> Option<u64>
    requires { Within text.now p }
    ensures { result ≡ decimal_of (spanned text.now p) }
{
    if p.length == 0 {
        return None;
    }
    let mut w = Cursor::at(p.at);
    let mut v: u64 = 0;
    for _i in 0..p.length {
        match next_byte(text, w) {
            Step::Byte(b, next) => {
                if !b.is_ascii_digit() {
                    return None;
                }
                v = with_digit(v, b);
                w = next;
            }
            Step::End(_) => {
                return None;
            }
        }
    }
    Some(v)
}

fn timeout_of(text: &[u8], v: Span) -> Result<u64, BadValue>
    requires { Within text.now v }
    ensures { result ≡ timeout_of (spanned text.now v) }
{
    let Some(n) = decimal_of(text, v) else {
        return Err(BadValue);
    };
    if n <= 4294967295 {
        Ok(n)
    } else {
        Err(BadValue)
    }
}

fn maxseq_of(text: &[u8], v: Span) -> Result<u64, BadValue>
    requires { Within text.now v }
    ensures { result ≡ maxseq_of (spanned text.now v) }
{
    let Some(n) = decimal_of(text, v) else {
        return Err(BadValue);
    };
    if n == 0 {
        return Err(BadValue);
    }
    Ok(n.min(2176782336))
}

// Is a value one of these words, as they are.
fn is_one_of(text: &[u8], v: Span, words: &[&[u8]]) -> bool
    requires { Within text.now v }
    ensures { result ≡ one_of (spanned text.now v) (map (λ w. w.now) words.now) }
{
    for word in words {
        if is_word(text, v, false, word) {
            return true;
        }
    }
    false
}

fn keepalive_of(text: &[u8], v: Span) -> Result<bool, BadValue>
    requires { Within text.now v }
    ensures { result ≡ keepalive_of (spanned text.now v) }
{
    if is_one_of(text, v, &[b"true", b"yes", b"on", b"1"]) {
        return Ok(true);
    }
    if is_one_of(text, v, &[b"false", b"no", b"off", b"0"]) {
        return Ok(false);
    }
    Err(BadValue)
}

// A setting of `server` or `relay`; none where it is not typed.
fn link_typed(text: &[u8], k: Span, v: Span) -> Result<Option<Typed>, BadValue>
    requires { Within text.now k × Within text.now v }
    ensures { result ≡ link_typed (lower (spanned text.now k)) (spanned text.now v) }
{
    if is_word(text, k, true, b"timeout") {
        return Ok(Some(Typed::Timeout(timeout_of(text, v)?)));
    }
    if is_word(text, k, true, b"tcp_keepalive") {
        return Ok(Some(Typed::Keepalive(keepalive_of(text, v)?)));
    }
    Ok(None)
}

// What the setting of a key is in a section; none where it is not typed.
#[tactic(auto, unfolding(crate::specs::Typed::typed_of))]
pub fn typed_of(text: &[u8], section: Section, k: Span, v: Span) -> Result<Option<Typed>, BadValue>
    requires { Within text.now k × Within text.now v }
    ensures { result ≡ typed_of section (lower (spanned text.now k)) (spanned text.now v) }
{
    match section {
        Section::Server | Section::Relay => link_typed(text, k, v),
        Section::Iolog => {
            if is_word(text, k, true, b"maxseq") {
                return Ok(Some(Typed::Maxseq(maxseq_of(text, v)?)));
            }
            Ok(None)
        }
        Section::Eventlog | Section::Syslog | Section::Logfile | Section::Unknown => Ok(None),
    }
}
