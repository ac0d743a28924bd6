//! Steps read from JSON.

ghost use Rattle.std.specs.Prelude.{◌≡◌, [], map, option_and_then};
ghost use Rattle.serde_json.specs.View.{view, items_view};
ghost use Rattle.serde_json.specs.Find.{as_str};
ghost use Rattle.do_derivation.specs.Plans.{Move as PlainMove, Plan};
ghost use Rattle.do_derivation.specs.Vocabulary.{plans_of, step_view};
ghost use Rattle.step_json.specs.Words.{word_of};
ghost use Rattle.step_json.specs.Reading.{Gives, set_in, vertices_in, groups_in, number_in, is_end, last, argument, list_by, each, arguments, word_and_arguments, step_within, step_in};

use crate::fault::ValueFault;
use crate::lists::{groups_in, number_in, read_set, vertices_in};
use crate::words::{Word, word_of};
use do_derivation::{BareMove, Move, SetMove, Step};
use mixed_graph::{Names, VSet};
use serde_json::Value;
use std::alloc::Global;

// No argument more.
#[tactic(auto, using(crate::proofs::Ends::end_is))]
fn is_end(ds: &[Value]) -> bool
    ensures { result ≡ is_end (items_view ds.now) }
{
    ds.len() == 0
}

fn with_set(alloc: Global, names: &Names, kind: SetMove, ds: &[Value]) -> Result<Step, ValueFault>
    ensures { Gives step_view result (argument (set_in names.now 0) (λ z. last (Plan.Make (PlainMove.WithSet kind z))) (items_view ds.now)) }
{
    let [d, ds @ ..] = ds else {
        return Err(ValueFault::Form);
    };
    let set = read_set(alloc, names, VSet::EMPTY, d)?;
    if !is_end(ds) {
        return Err(ValueFault::Form);
    }
    Ok(Step::Make(Move::WithSet(kind, set)))
}

fn bare(kind: BareMove, ds: &[Value]) -> Result<Step, ValueFault>
    ensures { Gives step_view result (last (Plan.Make (PlainMove.Bare kind)) (items_view ds.now)) }
{
    if !is_end(ds) {
        return Err(ValueFault::Form);
    }
    Ok(Step::Make(Move::Bare(kind)))
}

fn chain(alloc: Global, names: &Names, ds: &[Value]) -> Result<Step, ValueFault>
    ensures { Gives step_view result (argument (vertices_in names.now) (λ o. last (Plan.Make (PlainMove.Chain o))) (items_view ds.now)) }
{
    let [d, ds @ ..] = ds else {
        return Err(ValueFault::Form);
    };
    let order = vertices_in(alloc, names, d)?;
    if !is_end(ds) {
        return Err(ValueFault::Form);
    }
    Ok(Step::Make(Move::Chain(order)))
}

fn group(alloc: Global, ds: &[Value]) -> Result<Step, ValueFault>
    ensures { Gives step_view result (argument groups_in (λ l. last (Plan.Make (PlainMove.Group l))) (items_view ds.now)) }
{
    let [d, ds @ ..] = ds else {
        return Err(ValueFault::Form);
    };
    let groups = groups_in(alloc, d)?;
    if !is_end(ds) {
        return Err(ValueFault::Form);
    }
    Ok(Step::Make(Move::Group(groups)))
}

fn cite(ds: &[Value]) -> Result<Step, ValueFault>
    ensures { Gives step_view result (argument number_in (λ k. last (Plan.Make (PlainMove.Cite k))) (items_view ds.now)) }
{
    let [d, ds @ ..] = ds else {
        return Err(ValueFault::Form);
    };
    let k = number_in(d)?;
    if !is_end(ds) {
        return Err(ValueFault::Form);
    }
    Ok(Step::Make(Move::Cite(k)))
}

#[cycle(step)]
fn at_child(alloc: Global, names: &Names, more: u32, ds: &[Value]) -> Result<Step, ValueFault>
    ensures { Gives step_view result (argument number_in (λ i. argument (step_within names.now more) (λ p. last (Plan.At i p))) (items_view ds.now)) }
{
    let [d, ds @ ..] = ds else {
        return Err(ValueFault::Form);
    };
    let child = number_in(d)?;
    on_child(alloc, names, more, child, ds)
}

#[cycle(step)]
fn on_child(
    alloc: Global,
    names: &Names,
    more: u32,
    child: u32,
    ds: &[Value],
) -> Result<Step, ValueFault>
    ensures { Gives step_view result (argument (step_within names.now more) (λ p. last (Plan.At child p)) (items_view ds.now)) }
{
    let [d, ds @ ..] = ds else {
        return Err(ValueFault::Form);
    };
    let step = step_within(alloc, names, more, d)?;
    if !is_end(ds) {
        return Err(ValueFault::Form);
    }
    let step = Box::new(alloc, step)?;
    Ok(Step::At(child, step))
}

#[cycle(step)]
fn each_step(alloc: Global, names: &Names, more: u32, ds: &[Value]) -> Result<Vec<Step>, ValueFault>
    ensures { Gives (λ v. map step_view v.items) result (each (step_within names.now more) [] (items_view ds.now)) }
{
    let mut all = Vec::new(alloc);
    for d in ds {
        let step = step_within(alloc, names, more, d)?;
        all.push(step)?;
    }
    Ok(all)
}

#[cycle(step)]
fn steps_in(alloc: Global, names: &Names, more: u32, d: &Value) -> Result<Vec<Step>, ValueFault>
    ensures { Gives (λ v. map step_view v.items) result (list_by (each (step_within names.now more) []) (view d.now)) }
{
    match d.as_array() {
        Some(ds) => each_step(alloc, names, more, ds.as_slice()),
        None => Err(ValueFault::Form),
    }
}

#[cycle(step)]
fn then_each(alloc: Global, names: &Names, more: u32, ds: &[Value]) -> Result<Step, ValueFault>
    ensures { Gives step_view result (argument (list_by (each (step_within names.now more) [])) (λ ps. last (Plan.Then (plans_of ps))) (items_view ds.now)) }
{
    let [d, ds @ ..] = ds else {
        return Err(ValueFault::Form);
    };
    let steps = steps_in(alloc, names, more, d)?;
    if !is_end(ds) {
        return Err(ValueFault::Form);
    }
    Ok(Step::Then(steps))
}

#[cycle(step)]
fn arguments(
    alloc: Global,
    names: &Names,
    more: u32,
    word: Word,
    ds: &[Value],
) -> Result<Step, ValueFault>
    ensures { Gives step_view result (arguments names.now (step_within names.now more) word (items_view ds.now)) }
{
    match word {
        Word::WithSet(kind) => with_set(alloc, names, kind, ds),
        Word::Bare(kind) => bare(kind, ds),
        Word::Chain => chain(alloc, names, ds),
        Word::Group => group(alloc, ds),
        Word::Cite => cite(ds),
        Word::At => at_child(alloc, names, more, ds),
        Word::Then => then_each(alloc, names, more, ds),
    }
}

fn word_in(d: &Value) -> Option<Word>
    ensures { result ≡ option_and_then word_of (as_str (view d.now)) }
{
    match d.as_str() {
        Some(text) => word_of(text.as_bytes()),
        None => None,
    }
}

#[cycle(step)]
fn word_and_arguments(
    alloc: Global,
    names: &Names,
    more: u32,
    ds: &[Value],
) -> Result<Step, ValueFault>
    ensures { Gives step_view result (word_and_arguments names.now (step_within names.now more) (items_view ds.now)) }
{
    let [d, ds @ ..] = ds else {
        return Err(ValueFault::Form);
    };
    match word_in(d) {
        Some(word) => arguments(alloc, names, more, word, ds),
        None => Err(ValueFault::Form),
    }
}

// A step in which so many may nest, itself among them.
#[tactic(auto, using(crate::proofs::Depths::step_none, crate::proofs::Depths::step_some))]
#[cycle(step)]
fn step_within(alloc: Global, names: &Names, more: u32, d: &Value) -> Result<Step, ValueFault>
    ensures { Gives step_view result (step_within names.now more (view d.now)) }
{
    if more == 0 {
        return Err(ValueFault::TooDeep);
    }
    match d.as_array() {
        Some(ds) => word_and_arguments(alloc, names, more - 1, ds.as_slice()),
        None => Err(ValueFault::Form),
    }
}

/// The step that a value is.
///
/// `TooDeep` where a 61st step nests, asked before that step is looked at; `Name` where a text stands in place of a name and isn't one;
/// `Form` where anything else has another form: an unknown word, an argument too few or too many, a number of more than 32 bits,
/// a name twice in a set, a 65th name in a list. The first place at fault decides.
pub fn read_step(alloc: Global, names: &Names, value: &Value) -> Result<Step, ValueFault>
    ensures { Gives step_view result (step_in names.now (view value.now)) }
{
    step_within(alloc, names, 60, value)
}
