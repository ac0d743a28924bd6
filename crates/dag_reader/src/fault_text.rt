//! The lines that say why a text is no graph.

ghost use Rattle.std.specs.Prelude.{◌≡◌, ◌++◌, codes, IfOk, OnOk};
ghost use Rattle.answer_text.specs.Vocabulary.{line_of, second};
ghost use Rattle.dag_reader.specs.FaultTexts.{graph_fault_text, size_text, spaced};

use crate::faults::GraphFault;
use answer_text::names::{push_name, refusal_line, second_line, with_name, with_number};
use mixed_graph::Text;
use std::alloc::{AllocError, Global};

impl GraphFault {
    /// The line that says what is wrong, as `causal: graph fault 2: byte 17` with a line feed. The error is want of memory, which has no line.
    pub fn line(&self, alloc: Global) -> Result<Vec<u8>, AllocError>
        ensures line { IfOk result (λ v. v.items ≡ line_of (graph_fault_text self.now)) }
        ensures memory { OnOk result (self.now ≡ GraphFault.NoMemory → ⊥) }
    {
        refusal_line(alloc, &self.text(alloc)?)
    }

    /// The same of the second of two graphs, as `causal: second graph fault 2: byte 17`.
    pub fn second_line(&self, alloc: Global) -> Result<Vec<u8>, AllocError>
        ensures line { IfOk result (λ v. v.items ≡ line_of (second (graph_fault_text self.now))) }
        ensures memory { OnOk result (self.now ≡ GraphFault.NoMemory → ⊥) }
    {
        second_line(alloc, &self.text(alloc)?)
    }

    /// The line of a text of more than 1,048,576 bytes.
    pub fn size_line(alloc: Global) -> Result<Vec<u8>, AllocError>
        ensures { IfOk result (λ v. v.items ≡ line_of size_text) }
    {
        refusal_line(alloc, b"graph fault 12: over 1048576 bytes")
    }

    /// The same of the second of two graphs.
    pub fn second_size_line(alloc: Global) -> Result<Vec<u8>, AllocError>
        ensures { IfOk result (λ v. v.items ≡ line_of (second size_text)) }
    {
        second_line(alloc, b"graph fault 12: over 1048576 bytes")
    }

    /// What is wrong.
    fn text(&self, alloc: Global) -> Result<Vec<u8>, AllocError>
        ensures text { IfOk result (λ v. v.items ≡ graph_fault_text self.now) }
        ensures memory { OnOk result (self.now ≡ GraphFault.NoMemory → ⊥) }
    {
        match self {
            GraphFault::NotUtf8(at) => with_number(alloc, "graph fault 1: byte ", *at as u64),
            GraphFault::Token(at) => with_number(alloc, "graph fault 2: byte ", *at as u64),
            GraphFault::Expected(at) => with_number(alloc, "graph fault 3: byte ", *at as u64),
            GraphFault::NotADag => Vec::from_slice(alloc, b"graph fault 4"),
            GraphFault::EdgeKind(at) => with_number(alloc, "graph fault 5: byte ", *at as u64),
            GraphFault::Flag(at) => with_number(alloc, "graph fault 6: byte ", *at as u64),
            GraphFault::Selected(name) => with_name(alloc, "graph fault 7: ", name.bytes()),
            GraphFault::SelfLoop(name) => with_name(alloc, "graph fault 8: ", name.bytes()),
            GraphFault::TooMany => Vec::from_slice(alloc, b"graph fault 9"),
            GraphFault::RoleClash(name) => with_name(alloc, "graph fault 10: ", name.bytes()),
            GraphFault::Cycle(names) => cycle_text(alloc, names),
            GraphFault::NoMemory => Err(AllocError),
        }
    }
}

/// The text of a cycle through vertices of these names.
fn cycle_text(alloc: Global, names: &[Text]) -> Result<Vec<u8>, AllocError>
    ensures { IfOk result (λ v. v.items ≡ codes "graph fault 11: cycle" ++ spaced names.now) }
{
    let mut text = Vec::from_slice(alloc, b"graph fault 11: cycle")?;
    for name in names {
        text.push(b' ')?;
        push_name(&mut text, name.bytes())?;
    }
    Ok(text)
}
