// The types in which the wire part answers: what a caller needs to name without resting on the walk that found it.
#![tactic(auto)]

ghost use Rattle.std.specs.Prelude.{◌≡◌, ◌+◌, ◌<◌, ◌^◌};
ghost use Rattle.wire_types.specs.Refusals.{number_of};

// Where a field's bytes are in a message.
#[derive(Clone, Copy)]
pub struct Span {
    pub start: usize,
    pub end: usize,
}

// A TimeSpec's two numbers as they were read, 64 bits each: the seconds are an int64, the nanoseconds the low 32 bits.
#[derive(Clone, Copy)]
pub struct Time {
    pub seconds: u64,
    pub nanos: u64,
}

// An IoBuffer with its data, or a CommandSuspend with its signal's name.
#[derive(Clone, Copy)]
pub struct Timed {
    pub delay: Time,
    pub contents: Span,
}

// The last member of a client message: an I/O buffer by its values, its data at the message's places; any other by its bytes.
#[derive(Clone, Copy)]
pub enum ClientMember {
    Io { member: u64, io: Timed },
    Other { member: u64, bytes: Span },
}

// Why a message is refused.
#[derive(Clone, Copy, Debug, PartialEq, Eq)]
pub enum Refusal {
    // 2: a varint longer than allowed, or past the end of its part
    Varint,
    // 3: a length or a fixed field past the end of its part
    Length,
    // 4: a bad tag or wire type
    Tag,
    // 5: a known field with another wire type than its own
    WireType,
    // 6: a ClientMessage or a ServerMessage with no member
    NoMember,
    // 7: a value out of its range
    Range,
}

// The refusal's number in document 01.
impl From<Refusal> for u8 {
    ghost from_gives = { λ refusal n. n ≡ number_of refusal };

    fn from(refusal: Refusal) -> u8 {
        match refusal {
            Refusal::Varint => 2,
            Refusal::Length => 3,
            Refusal::Tag => 4,
            Refusal::WireType => 5,
            Refusal::NoMember => 6,
            Refusal::Range => 7,
        }
    }
}

// A refusal, and the place in the message that it is of.
#[derive(Clone, Copy, Debug, PartialEq, Eq)]
pub struct Refused {
    pub refusal: Refusal,
    pub place: usize,
}

impl Refused {
    // The refusal of a part, by its place in the whole that it begins `start` bytes into.
    pub fn within(self, start: usize) -> Refused
        requires { start + self.place < 2 ^ 64 }
        ensures { result ≡ Rattle.wire_types.specs.Refusals.within start self }
    {
        Refused {
            refusal: self.refusal,
            place: start + self.place,
        }
    }
}
