//! Rows on formulas.

ghost use Rattle.std.specs.Prelude.{◌≡◌, ◌≤◌, true, ⊤, IsTrue};
ghost use Rattle.std.specs.Bool.{OnTrue};
ghost use Rattle.prob_expr.specs.View.{view};
ghost use Rattle.prob_expr.specs.Vocabulary.{are_terms, has_factors};

use case_rows::{Members, names, number, set, text};
use expr_text::{formula_text, read_formula};
use mixed_graph::{Names, VSet};
use prob_expr::folding::fold;
use prob_expr::{
    Expr, Fold, Formula, check, copy_expr, free, is_allowed, is_do_free, is_same, laws,
};
use serde_json::Value;
use std::alloc::{AllocError, Global};

/// The formula of this name.
pub(crate) fn formula(alloc: Global, row: &Value, name: &str, names: &Names) -> Option<Formula> {
    read_formula(alloc, text(row, name).as_bytes(), names).ok()
}

/// Bytes as a line.
fn line(alloc: Global, bytes: &[u8]) -> Option<String> {
    let text = str::from_utf8(bytes).ok()?;
    format!(in alloc; "{text}\n").ok()
}

/// The text of a formula.
pub(crate) fn shown(alloc: Global, formula: &Formula, names: &Names) -> Option<String> {
    let n = names.count();
    if n > 64 {
        return None;
    }
    match check(formula, n) {
        Ok(()) => line(alloc, &formula_text(alloc, formula, names).ok()?),
        Err(_) => None,
    }
}

/// Whether a formula is one on n vertices. Then it can be walked, and its terms are terms of these.
pub(crate) fn is_formula(f: &Formula, n: u32) -> bool
    requires { n ≤ 64 }
    ensures factors { OnTrue result (has_factors (view f.now.main) ≡ true) }
    ensures terms { OnTrue result (are_terms n (view f.now.main) ≡ true) }
{
    laws();
    match check(f, n) {
        Ok(()) => true,
        Err(_) => false,
    }
}

/// Writes down the nodes in the order of the calls.
#[derive(Drop)]
struct Trace {
    seen: String,
}

impl Fold for Trace {
    type Out = ();

    type Fault = AllocError;

    ghost prob_does = { λ old a b c r new. ⊤ };

    ghost sum_does = { λ old u body r new. ⊤ };

    ghost start_does = { λ old first r new. ⊤ };

    ghost factor_does = { λ old so_far next r new. ⊤ };

    ghost quotient_does = { λ old top bottom r new. ⊤ };

    ghost named_does = { λ old k r new. ⊤ };

    fn prob(&mut self, of: VSet, _doing: VSet, _given: VSet) -> Result<(), AllocError> {
        self.seen.push_str(match of.bits {
            1 => "X",
            2 => "M",
            _ => "Y",
        })
    }

    fn sum(&mut self, _over: VSet, _body: ()) -> Result<(), AllocError> {
        self.seen.push_str("+")
    }

    fn start(&mut self, _first: ()) -> Result<(), AllocError> {
        self.seen.push_str("(")
    }

    fn factor(&mut self, _so_far: (), _next: ()) -> Result<(), AllocError> {
        self.seen.push_str("*")
    }

    fn quotient(&mut self, _top: (), _bottom: ()) -> Result<(), AllocError> {
        self.seen.push_str("/")
    }

    fn named(&mut self, _k: u32) -> Result<(), AllocError> {
        self.seen.push_str("q")
    }
}

/// The nodes of an expression in the order of a walk.
fn walked(alloc: Global, e: &Expr) -> Option<String>
    requires { IsTrue (has_factors (view e.now)) }
{
    let mut trace = Trace {
        seen: String::new(alloc),
    };
    fold(e, &mut trace).ok()?;
    Some(trace.seen)
}

/// What is asked of a formula on n vertices, or what keeps it from being one.
fn asked(alloc: Global, f: &Formula, n: u32, allowed: VSet) -> Option<String>
    requires { n ≤ 64 }
{
    if !is_formula(f, n) {
        let answer = check(f, n);
        return format!(in alloc; "{answer:?}\n").ok();
    }
    let walk = walked(alloc, &f.main)?;
    let read = Members(free(alloc, f).ok()?);
    let plain = is_do_free(f);
    let allowed = is_allowed(f, &[allowed]);
    format!(in alloc;
        "walked {walk}, free {read}, without interventions {plain}, allowed {allowed}\n"
    ).ok()
}

/// What is asked of the row's formula.
pub(crate) fn formula_row(alloc: Global, row: &Value) -> Option<String> {
    let names = names(alloc, row, "names")?;
    let formula = formula(alloc, row, "formula", &names)?;
    let n = number(row, "n");
    if n > 64 {
        return None;
    }
    asked(alloc, &formula, n as u32, set(row, "allowed"))
}

/// Whether two expressions are the same, and whether the first is its copy's.
fn compared(alloc: Global, first: &Expr, second: &Expr) -> Option<String> {
    let copy = copy_expr(alloc, first).ok()?;
    let (same, copied) = (is_same(first, second), is_same(first, &copy));
    format!(in alloc; "same {same}, copied {copied}\n").ok()
}

/// The comparison of two formulas' main expressions.
pub(crate) fn same_row(alloc: Global, row: &Value) -> Option<String> {
    let names = names(alloc, row, "names")?;
    let first = formula(alloc, row, "first", &names)?;
    let second = formula(alloc, row, "second", &names)?;
    compared(alloc, &first.main, &second.main)
}
