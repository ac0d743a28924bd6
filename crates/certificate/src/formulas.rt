//! The formula of a certificate, with its definitions and lemmas.

ghost use Rattle.std.specs.Prelude.{◌≡◌, ◌≤◌, ◌^◌, [], map, length, is_ok, Option, None, Some};
ghost use Rattle.serde_json.specs.View.{view as data_view, items_view};
ghost use Rattle.prob_expr.specs.Vocabulary.{check_tree, cap};
ghost use Rattle.prob_expr.specs.View.{view};
ghost use Rattle.do_derivation.specs.Vocabulary.{lemma_view};
ghost use Rattle.step_json.specs.Vocabulary.{Gives, each};
ghost use Rattle.certificate.specs.Reading.{expr_in, sound, main_in, def_in, more_defs, defs_in, lemma_of, lemma_items, lemma_in, lemmas_in};

use crate::sizes::is_end;
use do_derivation::Lemma;
use expr_text::{TextFault, read_expr};
use mixed_graph::{Names, VSet};
use prob_expr::{Expr, cap, check_expr};
use serde_json::Value;
use std::alloc::Global;
use step_json::{ValueFault, read_filled_set, read_step};

// The expression that a text is.
#[tactic(auto, unfolding(crate::specs::Reading::expr_in), using(crate::proofs::Texts::refused))]
fn expr_in(alloc: Global, names: &Names, d: &Value) -> Result<Expr, ValueFault>
    ensures { Gives (λ e. view e) result (expr_in names.now (data_view d.now)) }
{
    let Some(text) = d.as_str() else {
        return Err(ValueFault::Form);
    };
    match read_expr(alloc, text.as_bytes(), names) {
        Ok(e) => Ok(e),
        Err(TextFault::Bad(_)) => Err(ValueFault::Form),
        Err(TextFault::NoMemory) => Err(ValueFault::NoMemory),
    }
}

// The expression, where its sets are as they have to be and it names definitions below the limit.
fn sound(names: &Names, def: Option<u32>, limit: usize, e: Expr) -> Result<Expr, ValueFault>
    ensures { Gives (λ e. view e) result (sound names.now def limit (view e)) }
{
    if check_expr(&e, names.count(), def, limit, 0).is_err() {
        return Err(ValueFault::Form);
    }
    Ok(e)
}

/// The main expression, whatever it names.
pub fn main_in(alloc: Global, names: &Names, d: &Value) -> Result<Expr, ValueFault>
    ensures { Gives (λ e. view e) result (main_in names.now (data_view d.now)) }
{
    let e = expr_in(alloc, names, d)?;
    sound(names, None, 1 << 32, e)
}

// Definition k, which names those before it alone.
fn def_in(alloc: Global, names: &Names, k: usize, d: &Value) -> Result<Expr, ValueFault>
    ensures { Gives (λ e. view e) result (def_in names.now k (data_view d.now)) }
{
    let e = expr_in(alloc, names, d)?;
    sound(names, Some(cap(k)), k, e)
}

fn more_defs(alloc: Global, names: &Names, ds: &[Value]) -> Result<Vec<Expr>, ValueFault>
    ensures { Gives (λ v. map view v.items) result (more_defs names.now [] (items_view ds.now)) }
{
    let mut all = Vec::new(alloc);
    for d in ds {
        let def = def_in(alloc, names, all.len(), d)?;
        all.push(def)?;
    }
    Ok(all)
}

/// The definitions that a list is.
#[tactic(auto, unfolding(crate::specs::Reading::defs_in))]
pub fn defs_in(alloc: Global, names: &Names, d: &Value) -> Result<Vec<Expr>, ValueFault>
    ensures { Gives (λ v. map view v.items) result (defs_in names.now (data_view d.now)) }
{
    match d.as_array() {
        Some(ds) => more_defs(alloc, names, ds.as_slice()),
        None => Err(ValueFault::Form),
    }
}

// The step of a lemma, and nothing else.
fn lemma_of(alloc: Global, names: &Names, set: VSet, ds: &[Value]) -> Result<Lemma, ValueFault>
    ensures { Gives (λ l. lemma_view l) result (lemma_of names.now set.bits (items_view ds.now)) }
{
    let [d, ds @ ..] = ds else {
        return Err(ValueFault::Form);
    };
    let step = read_step(alloc, names, d)?;
    if !is_end(ds) {
        return Err(ValueFault::Form);
    }
    Ok(Lemma { set, step })
}

fn lemma_items(alloc: Global, names: &Names, ds: &[Value]) -> Result<Lemma, ValueFault>
    ensures { Gives (λ l. lemma_view l) result (lemma_items names.now (items_view ds.now)) }
{
    let [d, ds @ ..] = ds else {
        return Err(ValueFault::Form);
    };
    let set = read_filled_set(alloc, names, VSet::EMPTY, d)?;
    lemma_of(alloc, names, set, ds)
}

#[tactic(auto, unfolding(crate::specs::Reading::lemma_in))]
fn lemma_in(alloc: Global, names: &Names, d: &Value) -> Result<Lemma, ValueFault>
    ensures { Gives (λ l. lemma_view l) result (lemma_in names.now (data_view d.now)) }
{
    match d.as_array() {
        Some(ds) => lemma_items(alloc, names, ds.as_slice()),
        None => Err(ValueFault::Form),
    }
}

fn each_lemma(alloc: Global, names: &Names, ds: &[Value]) -> Result<Vec<Lemma>, ValueFault>
    ensures { Gives (λ v. map lemma_view v.items) result (each (lemma_in names.now) [] (items_view ds.now)) }
{
    let mut all = Vec::new(alloc);
    for d in ds {
        let lemma = lemma_in(alloc, names, d)?;
        all.push(lemma)?;
    }
    Ok(all)
}

/// The lemmas that a list is.
#[tactic(auto, unfolding(crate::specs::Reading::lemmas_in))]
pub fn lemmas_in(alloc: Global, names: &Names, d: &Value) -> Result<Vec<Lemma>, ValueFault>
    ensures { Gives (λ v. map lemma_view v.items) result (lemmas_in names.now (data_view d.now)) }
{
    match d.as_array() {
        Some(ds) => each_lemma(alloc, names, ds.as_slice()),
        None => Err(ValueFault::Form),
    }
}
