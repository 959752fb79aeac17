// Places of a text.
ghost use Rattle.std.specs.Prelude.{◌≤◌, ◌≡◌};

// A place in the text, and how many line feeds stand before it.
#[derive(Clone, Copy)]
pub struct Cursor {
    pub at: usize,
    pub feeds: usize,
    // each of them is a byte before it. Literals name both fields: `..c` is not supported where a struct has a ghost field
    ghost sound: { feeds ≤ at },
}

impl Cursor {
    // A place by itself, from which line feeds are counted.
    pub fn at(at: usize) -> Self
        ensures place { result.at ≡ at }
        ensures feeds { result.feeds ≡ 0 }
    {
        Cursor { at, feeds: 0 }
    }
}
