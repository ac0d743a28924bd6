//! The top call over spans of bytes, for callers that are no Rattle code.
#![tactic(auto)]

ghost use Rattle.std.specs.Prelude.{◌≡◌, ◌≤◌, None};
ghost use Rattle.span_call.specs.Called.{Called, LacksInput};
ghost use Rattle.span_call.specs.Ends.{IsEnd};

mod answering;
mod ends;
pub mod kept;
mod wanted;

use answering::answer_words;
use ends::call_words;
pub use ends::{Arguments, CallEnd, show};
use std::alloc::Global;
pub use wanted::{Wanted, WantedEnd, wanted_spans};

/// How many bytes a run wrote. Where they are more than the caller's room, the room has the first of them.
#[repr(C)]
#[derive(Clone, Copy, Debug)]
pub struct Sizes {
    pub out: usize,
    pub err: usize,
}

/// Runs the words over the inputs, shows what was written, and gives the end.
pub fn run_spans(
    alloc: Global,
    arguments: &Arguments<'_>,
    out: &mut [u8],
    err: &mut [u8],
) -> CallEnd
    ensures end { IsEnd arguments.now.bytes.now arguments.now.words.now out.old out.new err.old err.new result.sizes result.status }
    ensures called { result.status ≤ 8 → Called None arguments.now.bytes.now arguments.now.words.now arguments.now.inputs.now out.old out.new err.old err.new result.sizes result.status }

    // 6: an input that the words name isn't there. 7 doesn't come.
    ensures lacked { result.status ≡ 6 → LacksInput None arguments.now.bytes.now arguments.now.words.now arguments.now.inputs.now }
    ensures never_cut_short { result.status ≡ 7 → ⊥ }
    ensures known { result.status ≤ 10 }
{
    match call_words(alloc, arguments) {
        Ok(words) => answer_words(alloc, &words, None, arguments, out, err),
        Err(end) => end,
    }
}
