//! What keeps listed names from being sets.

ghost use Rattle.std.specs.Prelude.{◌≡◌, ◌∷◌, ◌++◌, codes, Some, IfOk, OnOk};
ghost use Rattle.answer_text.specs.Vocabulary.{printed, line_of, second};
ghost use Rattle.targets.specs.Targets.{IsNameFault, unknown, latent, twice};
ghost use Rattle.targets.specs.FaultTexts.{target_fault_text};

use answer_text::names::{push_name, refusal_line, second_line, with_name};
use mixed_graph::Text;
use std::alloc::{AllocError, Global};

/// What keeps listed names from being sets that a command works on.
#[derive(Drop)]
pub enum TargetFault {
    /// A listed name isn't in the graph.
    Unknown(Text),
    /// A listed name is latent.
    Latent(Text),
    /// A name stands twice in the lists.
    Twice(Text),
    /// The outcomes are empty.
    EmptyY,
    /// The exposures are empty, for a command that needs some.
    EmptyX,
    /// The exposures are another number than one, for the back-door criterion.
    NotOneX,
    /// A graph that has to be without hidden common causes has this bidirected edge between observed vertices.
    Bidirected(Text, Text),
    /// A name is in one of two graphs alone.
    OtherNames(Text),
    /// Memory was refused.
    NoMemory,
}

impl TargetFault {
    /// The line that says what is wrong, as `causal: target fault 1: Z` with a line feed. The error is want of memory, which has no line.
    pub fn line(&self, alloc: Global) -> Result<Vec<u8>, AllocError>
        ensures line { IfOk result (λ v. v.items ≡ line_of (target_fault_text self.now)) }
        ensures memory { OnOk result (self.now ≡ TargetFault.NoMemory → ⊥) }
    {
        refusal_line(alloc, &self.text(alloc)?)
    }

    /// The same of the names of the second of two graphs, as `causal: second target fault 8: Z`.
    pub fn second_line(&self, alloc: Global) -> Result<Vec<u8>, AllocError>
        ensures line { IfOk result (λ v. v.items ≡ line_of (second (target_fault_text self.now))) }
        ensures memory { OnOk result (self.now ≡ TargetFault.NoMemory → ⊥) }
    {
        second_line(alloc, &self.text(alloc)?)
    }

    /// What is wrong.
    fn text(&self, alloc: Global) -> Result<Vec<u8>, AllocError>
        ensures text { IfOk result (λ v. v.items ≡ target_fault_text self.now) }
        ensures memory { OnOk result (self.now ≡ TargetFault.NoMemory → ⊥) }
    {
        match self {
            TargetFault::Unknown(name) => with_name(alloc, "target fault 1: ", name.bytes()),
            TargetFault::Latent(name) => with_name(alloc, "target fault 2: ", name.bytes()),
            TargetFault::Twice(name) => with_name(alloc, "target fault 3: ", name.bytes()),
            TargetFault::EmptyY => Vec::from_slice(alloc, b"target fault 4"),
            TargetFault::EmptyX => Vec::from_slice(alloc, b"target fault 5"),
            TargetFault::NotOneX => Vec::from_slice(alloc, b"target fault 6"),
            TargetFault::Bidirected(a, b) => edge_text(alloc, a, b),
            TargetFault::OtherNames(name) => with_name(alloc, "target fault 8: ", name.bytes()),
            TargetFault::NoMemory => Err(AllocError),
        }
    }
}

/// The text of the fault of a bidirected edge.
fn edge_text(alloc: Global, a: &Text, b: &Text) -> Result<Vec<u8>, AllocError>
    ensures { IfOk result (λ v. v.items ≡ codes "target fault 7: " ++ (printed a.now ++ 32 ∷ printed b.now)) }
{
    let mut text = with_name(alloc, "target fault 7: ", a.bytes())?;
    text.push(b' ')?;
    push_name(&mut text, b.bytes())?;
    Ok(text)
}

/// A name isn't in the graph.
pub fn unknown(alloc: Global, name: &[u8]) -> TargetFault
    ensures { IsNameFault (Some (unknown name.now)) result }
{
    match Text::of(alloc, name) {
        Ok(text) => TargetFault::Unknown(text),
        Err(_) => TargetFault::NoMemory,
    }
}

/// A name is latent.
pub fn latent(alloc: Global, name: &[u8]) -> TargetFault
    ensures { IsNameFault (Some (latent name.now)) result }
{
    match Text::of(alloc, name) {
        Ok(text) => TargetFault::Latent(text),
        Err(_) => TargetFault::NoMemory,
    }
}

/// A name stands twice.
pub fn twice(alloc: Global, name: &[u8]) -> TargetFault
    ensures { IsNameFault (Some (twice name.now)) result }
{
    match Text::of(alloc, name) {
        Ok(text) => TargetFault::Twice(text),
        Err(_) => TargetFault::NoMemory,
    }
}
