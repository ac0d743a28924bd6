//! Rows on the factors of districts.

ghost use Rattle.std.specs.Prelude.{◌<◌};

use crate::formulas::shown;
use case_rows::{Members, graph, names, vertex};
use do_derivation::{Lemma, Step, apply};
use hedge::joined_sets::district_of;
use identify::Wanted;
use identify::factors::{Factor, FactorFault, factor};
use mixed_graph::{Graph, Names, VSet};
use prob_expr::{Expr, Formula, are_term_sets, is_same};
use serde_json::Value;
use std::alloc::Global;

/// Whether the step makes the expression of P(of | do(all others)).
fn derives(
    alloc: Global,
    graph: &Graph,
    lemmas: &[VSet],
    of: VSet,
    step: &Step,
    end: &Expr,
) -> bool {
    let doing = VSet::below(graph.n).difference(of);
    let given = VSet::empty();
    if !are_term_sets(graph.n, of, doing, given) || of.is_empty() {
        return false;
    }
    match apply(alloc, graph, lemmas, step, Expr::Prob { of, doing, given }) {
        Ok(made) => is_same(&made, end),
        Err(_) => false,
    }
}

/// A lemma's set, and whether its step makes its definition.
fn lemma_text(
    alloc: Global,
    graph: &Graph,
    cited: &[VSet],
    lemma: &Lemma,
    def: &Expr,
) -> Option<String> {
    let derived = derives(alloc, graph, cited, lemma.set, &lemma.step, def);
    let set = Members(lemma.set);
    format!(in alloc; "lemma {set}, derived {derived}\n").ok()
}

/// The lemmas, each of which may cite the earlier ones.
fn lemmas_text(
    alloc: Global,
    graph: &Graph,
    lemmas: &[Lemma],
    defs: &[Expr],
    cited: &mut Vec<VSet>,
) -> Option<String> {
    let mut text = String::new(alloc);
    for (lemma, def) in lemmas.iter().zip(defs) {
        let line = lemma_text(alloc, graph, cited, lemma, def)?;
        text.push_str(line.as_str()).ok()?;
        cited.push(lemma.set).ok()?;
    }
    Some(text)
}

/// The factor of a vertex's district alone.
fn factor_of(alloc: Global, graph: &Graph, v: u8) -> Option<Result<Factor, FactorFault>>
    requires { v < 64 }
{
    let alone = VSet::one(v);
    if !graph.covers(alone) {
        return None;
    }
    let district = district_of(graph, alone, v);
    let order = graph.order();
    Some(factor(alloc, Wanted::Derivation, graph, &order, district, 0))
}

/// Whether a factor's steps make its value, and this with its definitions.
fn value_text(alloc: Global, derived: bool, formula: &Formula, names: &Names) -> Option<String> {
    let formula = shown(alloc, formula, names)?;
    format!(in alloc; "factor, derived {derived}\n{formula}").ok()
}

/// A factor: its lemmas and its value.
fn factor_text(
    alloc: Global,
    graph: &Graph,
    of: VSet,
    found: Factor,
    names: &Names,
) -> Option<String> {
    if found.lemmas.len() != found.defs.len() {
        return None;
    }
    let mut cited = Vec::new(alloc);
    let lemmas = lemmas_text(alloc, graph, &found.lemmas, &found.defs, &mut cited)?;
    let step = Step::Then(found.steps);
    let derived = derives(alloc, graph, &cited, of, &step, &found.value);
    let formula = Formula {
        defs: found.defs,
        main: found.value,
    };
    let value = value_text(alloc, derived, &formula, names)?;
    format!(in alloc; "{lemmas}{value}").ok()
}

/// The factor of the district of a vertex alone, or where the procedure stops.
pub(crate) fn factor_row(alloc: Global, row: &Value) -> Option<String> {
    let graph = graph(alloc, row)?;
    let v = vertex(row, "of");
    match factor_of(alloc, &graph, v)? {
        Ok(found) => {
            let names = names(alloc, row, "names")?;
            factor_text(alloc, &graph, VSet::one(v), found, &names)
        }
        Err(FactorFault::Stopped(whole)) => {
            let whole = Members(whole);
            format!(in alloc; "stopped at {whole}\n").ok()
        }
        Err(FactorFault::NoMemory) => None,
    }
}
