//! Questions about a diagram that a caller keeps, over spans of bytes: the commands, answered as on the text that was read.
ghost use Rattle.std.specs.Prelude.{◌≡◌, ◌≤◌, List, ℕ, Some};
ghost use Rattle.dag_reader.specs.declared.graph.ReadGraph.{ReadGraph};
ghost use Rattle.caller_memory.specs.Vocabulary.{KeepsText, Keeps};
ghost use Rattle.span_call.specs.Ends.{IsEnd};
ghost use Rattle.span_call.specs.Called.{Called, LacksInput};

use crate::answering::{answer_words, show_reply};
use crate::ends::call_words;
use crate::{Arguments, CallEnd};
use caller_memory::kept::{KeptDiagram, NamesFault};
use command_run::Ready;
use replies::Outcome;
use std::alloc::Global;

/// The status where no diagram with names on these lines is kept.
pub const NOT_KEPT: u8 = 11;

/// Answers the words on the diagram that is kept, which stands for their file, shows what was written, and gives the end.
///
/// The names of the diagram stand on `lines`. A second input that the words name is the first of that name.
pub fn ask_kept(
    alloc: Global,
    kept: &KeptDiagram,
    lines: &[u8],
    arguments: &Arguments<'_>,
    out: &mut [u8],
    err: &mut [u8],
) -> CallEnd
    ensures end { IsEnd arguments.now.bytes.now arguments.now.words.now out.old out.new err.old err.new result.sizes result.status }
    ensures called { result.status ≤ 8 → (text : List ℕ) → KeepsText text kept.now lines.now
        → Called (Some text) arguments.now.bytes.now arguments.now.words.now arguments.now.inputs.now out.old out.new err.old err.new result.sizes result.status }

    // 6: the second input that the words name isn't there. 7 doesn't come.
    ensures lacked { result.status ≡ 6 → (text : List ℕ) → KeepsText text kept.now lines.now
        → LacksInput (Some text) arguments.now.bytes.now arguments.now.words.now arguments.now.inputs.now }
    ensures never_cut_short { result.status ≡ 7 → (text : List ℕ) → KeepsText text kept.now lines.now → ⊥ }

    // 11: no graph with names on these lines is kept.
    ensures kept { result.status ≤ 7 → (g : ReadGraph) × Keeps kept.now lines.now g }
    ensures not_kept { result.status ≡ 11 → (g : ReadGraph) → Keeps kept.now lines.now g → ⊥ }
    ensures known { result.status ≤ 11 }
{
    let words = match call_words(alloc, arguments) {
        Ok(words) => words,
        Err(end) => return end,
    };
    match kept.diagram(alloc, lines) {
        Ok(diagram) => answer_words(alloc, &words, Some(&diagram), arguments, out, err),
        Err(NamesFault::NotNames) => CallEnd::silent(NOT_KEPT),
        Err(NamesFault::NoMemory) => show_reply(&Ready::bare(alloc, Outcome::Memory), out, err),
    }
}
