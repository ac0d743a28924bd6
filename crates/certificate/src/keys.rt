//! The members of a certificate, by key.

ghost use Rattle.std.specs.Prelude.{◌≡◌, ◌==◌, codes, map, option_and_then};
ghost use Rattle.serde_json.specs.View.{view as data_view};
ghost use Rattle.serde_json.specs.Find.{get};
ghost use Rattle.prob_expr.specs.View.{view};
ghost use Rattle.prob_expr.specs.Vocabulary.{formula_view, target_view};
ghost use Rattle.do_derivation.specs.Vocabulary.{derivation_view, step_view, lemma_view};
ghost use Rattle.step_json.specs.Vocabulary.{set_in, filled_set_in, step_in};
ghost use Rattle.certificate.specs.Faults.{Gives, at_key};
ghost use Rattle.certificate.specs.declared.fault.Key.TheVariants as keys;
ghost use Rattle.certificate.specs.Plain.{hedge_view, links_view};
ghost use Rattle.certificate.specs.HedgeReading.{choice_in, links_in};
ghost use Rattle.certificate.specs.Reading.{member_by, main_in, defs_in, lemmas_in, version_in, given_in, target_in, whole, formula_in, derivation_in, hedge_in, is_answer};

use crate::fault::{CertFault, Key, fault_at};
use crate::formulas::{defs_in, lemmas_in, main_in};
use crate::hedges::{choice_in, links_in};
use do_derivation::{Derivation, Lemma, Step};
use hedge::{Choice, Hedge, Links};
use mixed_graph::{Names, VSet};
use prob_expr::{Expr, Formula, Target, check_expr};
use serde_json::Value;
use std::alloc::Global;
use step_json::{ValueFault, read_filled_set, read_set, read_step};

// What was read of the member of a key.
pub(crate) fn at_key<T>(key: Key, read: Result<T, ValueFault>) -> Result<T, CertFault>
    ensures { result ≡ at_key key read }
{
    match read {
        Ok(value) => Ok(value),
        Err(fault) => Err(fault_at(key, fault)),
    }
}

fn x_in(alloc: Global, names: &Names, d: &Value) -> Result<VSet, CertFault>
    ensures { Gives (λ s. s.bits) result (member_by keys.X (codes "x") (set_in names.now 0) (data_view d.now)) }
{
    match d.get("x") {
        Some(value) => at_key(Key::X, read_set(alloc, names, VSet::EMPTY, value)),
        None => Err(CertFault::Member(Key::X)),
    }
}

/// The set y, which isn't empty and doesn't meet x.
pub fn y_in(alloc: Global, names: &Names, x: VSet, d: &Value) -> Result<VSet, CertFault>
    ensures { Gives (λ s. s.bits) result (member_by keys.Y (codes "y") (filled_set_in names.now x.bits) (data_view d.now)) }
{
    match d.get("y") {
        Some(value) => at_key(Key::Y, read_filled_set(alloc, names, x, value)),
        None => Err(CertFault::Member(Key::Y)),
    }
}

fn formula_text_in(alloc: Global, names: &Names, d: &Value) -> Result<Expr, CertFault>
    ensures { Gives (λ e. view e) result (member_by keys.Formula (codes "formula") (main_in names.now) (data_view d.now)) }
{
    match d.get("formula") {
        Some(value) => at_key(Key::Formula, main_in(alloc, names, value)),
        None => Err(CertFault::Member(Key::Formula)),
    }
}

fn defs_texts_in(alloc: Global, names: &Names, d: &Value) -> Result<Vec<Expr>, CertFault>
    ensures { Gives (λ v. map view v.items) result (member_by keys.Defs (codes "defs") (defs_in names.now) (data_view d.now)) }
{
    match d.get("defs") {
        Some(value) => at_key(Key::Defs, defs_in(alloc, names, value)),
        None => Err(CertFault::Member(Key::Defs)),
    }
}

fn lemma_list_in(alloc: Global, names: &Names, d: &Value) -> Result<Vec<Lemma>, CertFault>
    ensures { Gives (λ v. map lemma_view v.items) result (member_by keys.Lemmas (codes "lemmas") (lemmas_in names.now) (data_view d.now)) }
{
    match d.get("lemmas") {
        Some(value) => at_key(Key::Lemmas, lemmas_in(alloc, names, value)),
        None => Err(CertFault::Member(Key::Lemmas)),
    }
}

fn main_step_in(alloc: Global, names: &Names, d: &Value) -> Result<Step, CertFault>
    ensures { Gives step_view result (member_by keys.Main (codes "main") (step_in names.now) (data_view d.now)) }
{
    match d.get("main") {
        Some(value) => at_key(Key::Main, read_step(alloc, names, value)),
        None => Err(CertFault::Member(Key::Main)),
    }
}

/// The version: a whole number.
#[tactic(auto, unfolding(crate::specs::Reading::version_in))]
pub fn version_in(d: &Value) -> Result<u64, CertFault>
    ensures { Gives (λ k. k) result (version_in (data_view d.now)) }
{
    let Some(value) = d.get("version") else {
        return Err(CertFault::Member(Key::Version));
    };
    match value.as_u64() {
        Some(version) => Ok(version),
        None => Err(CertFault::Member(Key::Version)),
    }
}

// What is given: in version 2 alone.
#[tactic(auto, unfolding(crate::specs::Reading::given_in))]
fn given_in(
    alloc: Global,
    names: &Names,
    version: u64,
    barred: VSet,
    d: &Value,
) -> Result<VSet, CertFault>
    ensures { Gives (λ s. s.bits) result (given_in names.now version barred.bits (data_view d.now)) }
{
    if version != 2 {
        return Ok(VSet::EMPTY);
    }
    match d.get("given") {
        Some(value) => at_key(Key::Given, read_filled_set(alloc, names, barred, value)),
        None => Err(CertFault::Member(Key::Given)),
    }
}

/// The sets of a target, no two of which meet; y isn't empty.
#[tactic(auto, unfolding(crate::specs::Reading::target_in))]
pub fn target_in(alloc: Global, names: &Names, version: u64, d: &Value) -> Result<Target, CertFault>
    ensures { Gives (λ t. target_view t) result (target_in names.now version (data_view d.now)) }
{
    let x = x_in(alloc, names, d)?;
    let y = y_in(alloc, names, x, d)?;
    let given = given_in(alloc, names, version, x.union(y), d)?;
    Ok(Target { x, y, given })
}

// The formula, where main names no definition that isn't there.
fn whole(names: &Names, formula: Formula) -> Result<Formula, CertFault>
    ensures { Gives (λ f. formula_view f) result (whole names.now (formula_view formula)) }
{
    let count = formula.defs.len();
    if check_expr(&formula.main, names.count(), None, count, 0).is_err() {
        return Err(CertFault::Member(Key::Formula));
    }
    Ok(formula)
}

/// A formula: main by itself, then the definitions, and then what main names.
#[tactic(auto, unfolding(crate::specs::Reading::formula_in))]
pub fn formula_in(alloc: Global, names: &Names, d: &Value) -> Result<Formula, CertFault>
    ensures { Gives (λ f. formula_view f) result (formula_in names.now (data_view d.now)) }
{
    let main = formula_text_in(alloc, names, d)?;
    let defs = defs_texts_in(alloc, names, d)?;
    whole(names, Formula { defs, main })
}

/// A derivation: its lemmas, then main.
#[tactic(auto, unfolding(crate::specs::Reading::derivation_in))]
pub fn derivation_in(alloc: Global, names: &Names, d: &Value) -> Result<Derivation, CertFault>
    ensures { Gives (λ p. derivation_view p) result (derivation_in names.now (data_view d.now)) }
{
    let lemmas = lemma_list_in(alloc, names, d)?;
    let main = main_step_in(alloc, names, d)?;
    Ok(Derivation { lemmas, main })
}

fn big_in(alloc: Global, names: &Names, d: &Value) -> Result<VSet, CertFault>
    ensures { Gives (λ s. s.bits) result (member_by keys.Big (codes "big") (set_in names.now 0) (data_view d.now)) }
{
    match d.get("big") {
        Some(value) => at_key(Key::Big, read_set(alloc, names, VSet::EMPTY, value)),
        None => Err(CertFault::Member(Key::Big)),
    }
}

fn small_in(alloc: Global, names: &Names, d: &Value) -> Result<VSet, CertFault>
    ensures { Gives (λ s. s.bits) result (member_by keys.Small (codes "small") (set_in names.now 0) (data_view d.now)) }
{
    match d.get("small") {
        Some(value) => at_key(Key::Small, read_set(alloc, names, VSet::EMPTY, value)),
        None => Err(CertFault::Member(Key::Small)),
    }
}

fn roots_in(alloc: Global, names: &Names, d: &Value) -> Result<VSet, CertFault>
    ensures { Gives (λ s. s.bits) result (member_by keys.Roots (codes "roots") (set_in names.now 0) (data_view d.now)) }
{
    match d.get("roots") {
        Some(value) => at_key(Key::Roots, read_set(alloc, names, VSet::EMPTY, value)),
        None => Err(CertFault::Member(Key::Roots)),
    }
}

fn choices_in(alloc: Global, names: &Names, d: &Value) -> Result<Choice, CertFault>
    ensures { Gives (λ c. c.next) result (member_by keys.Choice (codes "choice") (choice_in names.now) (data_view d.now)) }
{
    match d.get("choice") {
        Some(value) => at_key(Key::Choice, choice_in(alloc, names, value)),
        None => Err(CertFault::Member(Key::Choice)),
    }
}

fn link_list_in(alloc: Global, names: &Names, d: &Value) -> Result<Links, CertFault>
    ensures { Gives links_view result (member_by keys.Links (codes "links") (links_in names.now) (data_view d.now)) }
{
    match d.get("links") {
        Some(value) => at_key(Key::Links, links_in(alloc, names, value)),
        None => Err(CertFault::Member(Key::Links)),
    }
}

/// A hedge: its sets, then its choice and its links.
#[tactic(auto, unfolding(crate::specs::Reading::hedge_in))]
pub fn hedge_in(alloc: Global, names: &Names, d: &Value) -> Result<Hedge, CertFault>
    ensures { Gives hedge_view result (hedge_in names.now (data_view d.now)) }
{
    let big = big_in(alloc, names, d)?;
    let small = small_in(alloc, names, d)?;
    let roots = roots_in(alloc, names, d)?;
    let choice = choices_in(alloc, names, d)?;
    let links = link_list_in(alloc, names, d)?;
    Ok(Hedge {
        big,
        small,
        roots,
        choice,
        links,
    })
}

/// Whether the answer is the word.
pub fn is_answer(d: &Value, word: &[u8]) -> bool
    ensures { result ≡ is_answer word.now (data_view d.now) }
{
    let Some(value) = d.get("answer") else {
        return false;
    };
    match value.as_str() {
        Some(text) => text.as_bytes() == word,
        None => false,
    }
}
