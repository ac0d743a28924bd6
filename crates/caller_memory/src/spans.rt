//! Words and inputs of a caller that passes them as spans of one run of bytes.
ghost use Rattle.std.specs.Prelude.{◌≡◌, List, ℕ};
ghost use Rattle.caller_memory.specs.Parts.{part};

mod fronts;
mod shelf;
mod words;

pub use fronts::copy_front;
pub use shelf::{SpanShelf, content_named};
pub use words::{WordsFault, words_in};

/// A part of some bytes: from `start` up to `end`. It is empty where `end` isn't behind `start`.
#[repr(C)]
#[derive(Clone, Copy, Debug)]
pub struct Span {
    pub start: usize,
    pub end: usize,
}

/// An input: where its name and its content stand.
#[repr(C)]
#[derive(Clone, Copy, Debug)]
pub struct Input {
    pub name: Span,
    pub content: Span,
}

/// The bytes of a span; of one that goes past the end, those that are there.
pub fn part_of(bytes: &[u8], span: Span) -> &[u8]
    ensures { result.now ≡ part bytes.now span }
{
    let start = span.start.min(bytes.len());
    let end = span.end.min(bytes.len()).max(start);
    &bytes[start..end]
}
