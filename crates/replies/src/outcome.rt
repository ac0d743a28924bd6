//! How a run may end, and the reply of a command.

ghost use Rattle.std.specs.Prelude.{◌≡◌};

use std::alloc::Global;

/// How a run ends. A command answers one of five: yes or no, or that the graph, the second input or the evaluation is refused.
#[derive(Clone, Copy, Debug, PartialEq, Eq)]
pub enum Outcome {
    /// The answer is given and isn't no.
    Yes,
    /// The answer is no.
    No,
    /// The words aren't understood.
    Words,
    /// The graph or the target is refused.
    Graph,
    /// The second input is refused.
    Second,
    /// The formula has no value at some cell.
    Evaluation,
    /// A read failed.
    Read,
    /// A write failed.
    Write,
    /// Memory was refused.
    Memory,
}

impl Outcome {
    ghost use Rattle.replies.specs.Outcomes.{code_of};

    /// The exit status.
    pub fn code(self) -> u8
        ensures { result ≡ code_of self }
    {
        match self {
            Outcome::Yes => 0,
            Outcome::No => 1,
            Outcome::Words => 2,
            Outcome::Graph => 3,
            Outcome::Second => 4,
            Outcome::Evaluation => 5,
            Outcome::Read => 6,
            Outcome::Write => 7,
            Outcome::Memory => 8,
        }
    }
}

/// An outcome with what is told of it: an answer's text, which may be a line of JSON, or the line of a refusal with its object as a line of JSON.
/// The outcomes that no command answers have a fixed line, and no text here.
#[derive(Drop)]
pub struct Reply {
    pub outcome: Outcome,
    pub text: Vec<u8>,
    /// The object of a refusal; an answer has none.
    pub object: Vec<u8>,
}

impl Reply {
    ghost use Rattle.replies.specs.Told.{told_of, answer_of};

    /// A reply without a text.
    pub fn bare(alloc: Global, outcome: Outcome) -> Self
        ensures { result.outcome ≡ outcome }
    {
        Reply::answer(alloc, outcome, Vec::new(alloc))
    }

    /// An answer.
    pub fn answer(alloc: Global, outcome: Outcome, text: Vec<u8>) -> Self
        ensures outcome { result.outcome ≡ outcome }
        ensures told { told_of result ≡ answer_of text.items }
    {
        Reply {
            outcome,
            text,
            object: Vec::new(alloc),
        }
    }
}
