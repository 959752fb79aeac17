// Bytes of a line.

// So many bytes of a line from a place on. They need not stand side by side in the text: joins are passed over.
#[derive(Clone, Copy)]
pub struct Span {
    pub at: usize,
    pub length: usize,
}
