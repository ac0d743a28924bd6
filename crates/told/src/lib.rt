//! Answers as values: what is told of an answer, as text or as JSON, is a function of it.
//!
//! A command decides its answer, which knows neither formats nor names; `reply(alloc, form, &names, &answer)` tells it.
#![tactic(auto)]

ghost use Rattle.std.specs.Prelude.{◌≡◌, false, IfOk, OnOk};
ghost use Rattle.answer_json.specs.Vocabulary.{with_members, object_of, json_line};
ghost use Rattle.replies.specs.Vocabulary.{told_of, answer_of, text_in};
ghost use Rattle.told.specs.Telling.{Telling, Refusal, outcome_in, told_in, is_wanting};

mod form;
mod refusals;

use answer_json::Object;
pub use form::{Form, Writing};
use mixed_graph::Names;
pub use refusals::Refuses;
use replies::{Format, Outcome, Reply};
use std::alloc::{AllocError, Global};

/// An answer: how it ends, and what is told of it, by the names of the vertices.
pub trait Told {
    /// What is told.
    ghost telling: { Telling Self };

    /// How the run ends.
    fn outcome(&self) -> Outcome
        ensures { result ≡ telling.outcome self.now };

    /// The text.
    fn text(&self, alloc: Global, names: &Names, writing: Writing) -> Result<Vec<u8>, AllocError>
        ensures { IfOk result (λ v. v.items ≡ telling.text writing names.now self.now) };

    /// Adds the members of the object.
    fn push_members(
        &self,
        object: &mut Object,
        names: &Names,
        writing: Writing,
    ) -> Result<(), AllocError>
        ensures { OnOk result (object.new ≡ with_members (telling.members writing names.now self.now) object.old) };
}

/// The reply that tells an answer, or that refuses what was asked for. Want of memory has none.
pub fn reply<A: Told, F: Refuses>(
    alloc: Global,
    form: Form,
    names: &Names,
    answer: &Result<A, F>,
) -> Result<Reply, AllocError>
    ensures outcome { IfOk result (λ r. r.outcome ≡ outcome_in A.telling F.refusal answer.now) }
    ensures told { IfOk result (λ r. told_of r ≡ told_in A.telling F.refusal form names.now answer.now) }
    ensures memory { OnOk result (is_wanting F.refusal answer.now ≡ false) }
{
    match answer {
        Ok(answer) => tell(alloc, form, names, answer),
        Err(fault) => fault.refuse(alloc),
    }
}

/// The reply that tells an answer.
pub fn tell<A: Told>(
    alloc: Global,
    form: Form,
    names: &Names,
    answer: &A,
) -> Result<Reply, AllocError>
    ensures outcome { IfOk result (λ r. r.outcome ≡ A.telling.outcome answer.now) }
    ensures told { IfOk result (λ r. told_of r ≡ answer_of (text_in form.format (A.telling.text form.writing names.now answer.now)
        (json_line (object_of (A.telling.members form.writing names.now answer.now))))) }
{
    let text = written(alloc, form, names, answer)?;
    Ok(Reply::answer(alloc, answer.outcome(), text))
}

/// An answer in its form.
fn written<A: Told>(
    alloc: Global,
    form: Form,
    names: &Names,
    answer: &A,
) -> Result<Vec<u8>, AllocError>
    ensures { IfOk result (λ v. v.items ≡ text_in form.format (A.telling.text form.writing names.now answer.now)
        (json_line (object_of (A.telling.members form.writing names.now answer.now)))) }
{
    match form.format {
        Format::Text => answer.text(alloc, names, form.writing),
        Format::Json => object(alloc, form.writing, names, answer),
    }
}

/// The object of an answer, as a line.
fn object<A: Told>(
    alloc: Global,
    writing: Writing,
    names: &Names,
    answer: &A,
) -> Result<Vec<u8>, AllocError>
    ensures { IfOk result (λ v. v.items ≡ json_line (object_of (A.telling.members writing names.now answer.now))) }
{
    let mut object = Object::new(alloc)?;
    answer.push_members(&mut object, names, writing)?;
    object.line()
}
