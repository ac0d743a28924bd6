//! The line of a fault.

ghost use Rattle.std.specs.Prelude.{◌≡◌, ◌∷◌, [], ◌≤◌, IfOk, OnOk, take};
ghost use Rattle.std.specs.Str.{IsUtf8};
ghost use Rattle.answer_json.specs.Progress.{with_members, json_line};
ghost use Rattle.answer_json.specs.Faults.{bare_fault_json, text_fault_json, names_fault_json, number_fault_json, placed_fault_json, place_members, fault_begun};

use crate::object::Object;
use crate::places::{column_behind, front, line_behind};
use mixed_graph::Text;
use std::alloc::{AllocError, Global};

/// The object of a fault up to its sentence.
pub fn begin_fault(alloc: Global, stage: &str, n: u64, sentence: &str) -> Result<Object, AllocError>
    ensures { IfOk result (λ o. o ≡ fault_begun stage.now n sentence.now) }
{
    let mut object = Object::new(alloc)?;
    object.key("fault")?;
    object.begin_object()?;
    object.word_at("stage", stage)?;
    object.number_at("number", n)?;
    object.word_at("message", sentence)?;
    Ok(object)
}

/// The line of a fault without a place.
#[tactic(auto, unfolding(crate::specs::Faults::bare_fault_json))]
pub fn bare_fault(alloc: Global, stage: &str, n: u64, sentence: &str) -> Result<Vec<u8>, AllocError>
    ensures text { IfOk result (λ v. v.items ≡ json_line (bare_fault_json stage.now n sentence.now)) }
    ensures utf8 { IfOk result (λ v. IsUtf8 v.items) }
{
    let mut object = begin_fault(alloc, stage, n, sentence)?;
    object.end_object()?;
    object.line()
}

/// The line of a fault of a name, or of another text, under that key.
#[tactic(auto, unfolding(crate::specs::Faults::text_fault_json))]
pub fn text_fault(
    alloc: Global,
    stage: &str,
    n: u64,
    sentence: &str,
    key: &str,
    text: &[u8],
) -> Result<Vec<u8>, AllocError>
    ensures text { IfOk result (λ v. v.items ≡ json_line (text_fault_json stage.now n sentence.now key.now text.now)) }
    ensures utf8 { IfOk result (λ v. IsUtf8 v.items) }
{
    let mut object = begin_fault(alloc, stage, n, sentence)?;
    object.text_at(key, text)?;
    object.end_object()?;
    object.line()
}

/// The line of a fault of names.
#[tactic(auto, unfolding(crate::specs::Faults::names_fault_json))]
pub fn names_fault(
    alloc: Global,
    stage: &str,
    n: u64,
    sentence: &str,
    names: &Vec<Text>,
) -> Result<Vec<u8>, AllocError>
    ensures text { IfOk result (λ v. v.items ≡ json_line (names_fault_json stage.now n sentence.now names.now.items)) }
    ensures utf8 { IfOk result (λ v. IsUtf8 v.items) }
{
    let mut object = begin_fault(alloc, stage, n, sentence)?;
    object.texts_at("names", names)?;
    object.end_object()?;
    object.line()
}

/// The line of a fault of two names.
#[tactic(auto, unfolding(crate::specs::Faults::names_fault_json))]
pub fn pair_fault(
    alloc: Global,
    stage: &str,
    n: u64,
    sentence: &str,
    a: &[u8],
    b: &[u8],
) -> Result<Vec<u8>, AllocError>
    ensures text { IfOk result (λ v. v.items ≡ json_line (names_fault_json stage.now n sentence.now (a.now ∷ b.now ∷ []))) }
    ensures utf8 { IfOk result (λ v. IsUtf8 v.items) }
{
    let mut object = begin_fault(alloc, stage, n, sentence)?;
    object.key("names")?;
    object.two_texts(a, b)?;
    object.end_object()?;
    object.line()
}

/// The line of a fault with a number under that key.
#[tactic(auto, unfolding(crate::specs::Faults::number_fault_json))]
pub fn number_fault(
    alloc: Global,
    stage: &str,
    n: u64,
    sentence: &str,
    key: &str,
    value: u64,
) -> Result<Vec<u8>, AllocError>
    ensures text { IfOk result (λ v. v.items ≡ json_line (number_fault_json stage.now n sentence.now key.now value)) }
    ensures utf8 { IfOk result (λ v. IsUtf8 v.items) }
{
    let mut object = begin_fault(alloc, stage, n, sentence)?;
    object.number_at(key, value)?;
    object.end_object()?;
    object.line()
}

/// The line of a fault at a byte of a text, with its line and its column.
#[tactic(auto, unfolding(crate::specs::Faults::placed_fault_json))]
pub fn placed_fault(
    alloc: Global,
    stage: &str,
    n: u64,
    sentence: &str,
    bytes: &[u8],
    at: usize,
) -> Result<Vec<u8>, AllocError>
    ensures text { IfOk result (λ v. v.items ≡ json_line (placed_fault_json stage.now n sentence.now bytes.now at)) }
    ensures utf8 { IfOk result (λ v. IsUtf8 v.items) }
{
    let before = front(bytes, at);
    let line = line_behind(before);
    let column = column_behind(before);
    let mut object = begin_fault(alloc, stage, n, sentence)?;
    push_place(&mut object, at as u64, line, column)?;
    object.end_object()?;
    object.line()
}

/// The members of a place.
fn push_place(object: &mut Object, byte: u64, line: u64, column: u64) -> Result<(), AllocError>
    ensures { OnOk result (object.new ≡ with_members (place_members byte line column) object.old) }
{
    object.number_at("byte", byte)?;
    object.number_at("line", line)?;
    object.number_at("column", column)?;
    Ok(())
}
