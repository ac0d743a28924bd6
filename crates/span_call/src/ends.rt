// What a call over spans is given, and how it ends.

ghost use Rattle.std.specs.Prelude.{◌≡◌, ◌≤◌, List, ℕ, length, take, drop, min, map, string_bytes, IfOk, IfErr, OnOk};
ghost use Rattle.caller_memory.specs.Vocabulary.{texts, AreTexts};
ghost use Rattle.span_call.specs.Ends.{IsEnd};
ghost use Rattle.span_call.specs.Rooms.{ShowsText};

use crate::Sizes;
use caller_memory::spans::{Input, Span, WordsFault, copy_front, words_in};
use std::alloc::Global;

/// The status where a word isn't UTF-8.
const NOT_TEXT: u8 = 9;

/// The status where there is no memory for the words.
const NO_WORDS: u8 = 10;

/// What a call is given: its words and its inputs, which are parts of some bytes.
#[derive(Clone, Copy)]
pub struct Arguments<'a> {
    pub bytes: &'a [u8],
    pub words: &'a [Span],
    pub inputs: &'a [Input],
}

/// How a call ends: its status, and how much it wrote.
#[derive(Clone, Copy)]
pub struct CallEnd {
    pub status: u8,
    pub sizes: Sizes,
}

impl CallEnd {
    /// The end of a call that wrote nothing.
    pub fn silent(status: u8) -> CallEnd
        ensures status { result.status ≡ status }
        ensures sizes { result.sizes ≡ record { out = 0; err = 0 } }
    {
        CallEnd {
            status,
            sizes: Sizes { out: 0, err: 0 },
        }
    }
}

/// The words of a call; or its end, where one is no text or memory is refused for them.
pub fn call_words(alloc: Global, arguments: &Arguments<'_>) -> Result<Vec<String>, CallEnd>
    ensures words { IfOk result (λ v. map string_bytes v.items ≡ texts arguments.now.bytes.now arguments.now.words.now) }
    ensures are_texts { OnOk result (AreTexts arguments.now.bytes.now arguments.now.words.now) }
    ensures end { IfErr result (λ e. (out err : List ℕ) → IsEnd arguments.now.bytes.now arguments.now.words.now out out err err e.sizes e.status) }
    ensures least { IfErr result (λ e. 9 ≤ e.status) }
    ensures most { IfErr result (λ e. e.status ≤ 10) }
{
    match words_in(alloc, arguments.bytes, arguments.words) {
        Ok(words) => Ok(words),
        Err(WordsFault::NotText) => Err(CallEnd::silent(NOT_TEXT)),
        Err(WordsFault::NoMemory) => Err(CallEnd::silent(NO_WORDS)),
    }
}

/// Shows a text in some room, and gives its size. What stands behind it stays.
pub fn show(text: &[u8], room: &mut [u8]) -> usize
    ensures whole { result ≡ length text.now }
    ensures front { take (min result (length room.new)) room.new ≡ take (min result (length room.new)) text.now }
    ensures rest { drop (min result (length room.new)) room.new ≡ drop (min result (length room.new)) room.old }
{
    copy_front(text, room);
    text.len()
}

/// Shows an answer and a line in two rooms, and gives their sizes.
pub fn show_both(answer: &[u8], line: &[u8], out: &mut [u8], err: &mut [u8]) -> Sizes
    ensures out { ShowsText answer.now out.old out.new result.out }
    ensures err { ShowsText line.now err.old err.new result.err }
{
    Sizes {
        out: show(answer, out),
        err: show(line, err),
    }
}
