//! What is answered of a separation.

ghost use Rattle.std.specs.Prelude.{◌≡◌, IfOk, OnOk, length};
ghost use Rattle.answer_json.specs.Vocabulary.{with_members};
ghost use Rattle.separation_commands.specs.SeparateSentences.{sentence_text, sets_members};

use answer_json::Object;
use m_separation::OpenPath;
use mixed_graph::Names;
use replies::{Outcome, push_open, push_query};
use std::alloc::{AllocError, Global};
use targets::Sets;
use told::{Told, Writing};

/// What is answered of a separation.
#[derive(Drop)]
pub enum Answer {
    /// The sets are separated.
    Separated(Sets),
    /// A path is open.
    Connected(Sets, OpenPath),
}

impl Told for Answer {
    ghost use Rattle.separation_commands.specs.SeparateTelling.{separate_telling};

    ghost telling = { separate_telling };

    fn outcome(&self) -> Outcome {
        match self {
            Answer::Separated(_) => Outcome::Yes,
            Answer::Connected(_, _) => Outcome::No,
        }
    }

    fn text(&self, alloc: Global, names: &Names, _: Writing) -> Result<Vec<u8>, AllocError> {
        match self {
            Answer::Separated(sets) => sentence(alloc, b"separated: ", names, *sets),
            Answer::Connected(sets, path) => {
                let mut text = sentence(alloc, b"not separated: ", names, *sets)?;
                push_open(&mut text, names, path)?;
                Ok(text)
            }
        }
    }

    fn push_members(
        &self,
        object: &mut Object,
        names: &Names,
        _: Writing,
    ) -> Result<(), AllocError> {
        match self {
            Answer::Separated(sets) => push_sets(object, "separated", names, *sets),
            Answer::Connected(sets, path) => {
                push_sets(object, "not separated", names, *sets)?;
                object.path_at("open", names, path)
            }
        }
    }
}

/// A line that begins so.
fn sentence(alloc: Global, start: &[u8], names: &Names, sets: Sets) -> Result<Vec<u8>, AllocError>
    ensures { IfOk result (λ v. v.items ≡ sentence_text start.now names.now sets) }
{
    let mut text = Vec::from_slice(alloc, start)?;
    push_query(&mut text, names, sets)?;
    text.push(b'\n')?;
    Ok(text)
}

/// Adds the answer's word and the sets.
fn push_sets(object: &mut Object, word: &str, names: &Names, sets: Sets) -> Result<(), AllocError>
    ensures { OnOk result (object.new ≡ with_members (sets_members word.now names.now sets) object.old) }
{
    object.word_at("answer", word)?;
    object.query(names, sets.x, sets.y, sets.given)?;
    Ok(())
}
