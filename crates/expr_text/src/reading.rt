//! Expressions and formulas read from a text.

ghost use Rattle.std.specs.Prelude.{◌≡◌, ◌<◌, ◌≤◌, ◌+◌, ◌-◌, ℕ, length, IfSome, IfOk, map, codes, []};
ghost use Rattle.prob_expr.specs.View.{view};
ghost use Rattle.prob_expr.specs.Vocabulary.{formula_view};
ghost use Rattle.expr_text.specs.Read.{Gives, next_is, expect, names_at, given_at, doing_at, conds_at, term_at, named_at, in_parentheses, operand_at, sum_at, factor_at, factor_step, repeat, factors_at, bottom_at, operands_at, expr_with, inner_of, expr_of, def_body, def_at, def_step, checked, formula_of};
ghost use Rattle.expr_text.specs.Text.{Faults, Reads};

use crate::stop::{Parsed, ReadStop};
use crate::tokens::{expect, names_at, next_is, number_at, trim};
use mixed_graph::{Names, VSet};
use prob_expr::{Expr, Formula, check};
use std::alloc::Global;

/// The names that are given, behind what is done.
#[tactic(auto, unfolding(crate::specs::Read::given_at))]
fn given_at<'a>(names: &Names, doing: VSet, bytes: &'a [u8]) -> Parsed<'a, (VSet, VSet)>
    ensures given { Gives (λ p. ((p.0.0.bits, p.0.1.bits), p.1.now)) result (given_at names.now doing.bits bytes.now) }
    ensures shorter { IfOk result (λ p. length p.1.now ≤ length bytes.now) }
{
    let (given, rest) = names_at(names, bytes)?;
    Ok(((doing, given), rest))
}

/// The names that are done, behind `do(`, and those that are given.
#[tactic(auto, unfolding(crate::specs::Read::doing_at))]
fn doing_at<'a>(names: &Names, bytes: &'a [u8]) -> Parsed<'a, (VSet, VSet)>
    ensures doing { Gives (λ p. ((p.0.0.bits, p.0.1.bits), p.1.now)) result (doing_at names.now bytes.now) }
    ensures shorter { IfOk result (λ p. length p.1.now ≤ length bytes.now) }
{
    let (doing, rest) = names_at(names, bytes)?;
    let rest = expect(b")", rest)?;
    match next_is(b",", rest) {
        Some(rest) => given_at(names, doing, rest),
        None => Ok(((doing, VSet::EMPTY), rest)),
    }
}

/// What stands behind the bar of a term, where there is one.
#[tactic(auto, unfolding(crate::specs::Read::conds_at))]
fn conds_at<'a>(names: &Names, bytes: &'a [u8]) -> Parsed<'a, (VSet, VSet)>
    ensures conds { Gives (λ p. ((p.0.0.bits, p.0.1.bits), p.1.now)) result (conds_at names.now bytes.now) }
    ensures shorter { IfOk result (λ p. length p.1.now ≤ length bytes.now) }
{
    let Some(rest) = next_is(b"|", bytes) else {
        return Ok(((VSet::EMPTY, VSet::EMPTY), bytes));
    };
    match next_is(b"do(", rest) {
        Some(rest) => doing_at(names, rest),
        None => given_at(names, VSet::EMPTY, rest),
    }
}

/// A term, behind `P(`.
#[tactic(auto, unfolding(crate::specs::Read::term_at))]
fn term_at<'a>(names: &Names, bytes: &'a [u8]) -> Parsed<'a, Expr>
    ensures term { Gives (λ p. (view p.0, p.1.now)) result (term_at names.now bytes.now) }
    ensures shorter { IfOk result (λ p. length p.1.now ≤ length bytes.now) }
{
    let (of, rest) = names_at(names, bytes)?;
    let ((doing, given), rest) = conds_at(names, rest)?;
    let rest = expect(b")", rest)?;
    Ok((Expr::Prob { of, doing, given }, rest))
}

/// A definition's number, behind `q`.
#[tactic(auto, unfolding(crate::specs::Read::named_at))]
fn named_at(bytes: &[u8]) -> Parsed<'_, Expr>
    ensures named { Gives (λ p. (view p.0, p.1.now)) result (named_at bytes.now) }
    ensures shorter { IfOk result (λ p. length p.1.now ≤ length bytes.now) }
{
    let (k, rest) = number_at(bytes)?;
    Ok((Expr::Named(k), rest))
}

/// An expression in parentheses, behind the first.
#[tactic(auto, unfolding(crate::specs::Read::in_parentheses))]
#[cycle(expr)]
fn in_parentheses<'a>(alloc: Global, names: &Names, more: u32, bytes: &'a [u8]) -> Parsed<'a, Expr>
    ensures parentheses { Gives (λ p. (view p.0, p.1.now)) result (in_parentheses (expr_with names.now (inner_of names.now more)) bytes.now) }
    ensures shorter { IfOk result (λ p. length p.1.now ≤ length bytes.now) }
{
    let (e, rest) = expr_at(alloc, names, more, bytes)?;
    let rest = expect(b")", rest)?;
    Ok((e, rest))
}

/// A term, a definition or an expression in parentheses.
#[tactic(auto, unfolding(crate::specs::Read::operand_at), using(crate::proofs::Inner::inner_none, crate::proofs::Inner::inner_some))]
#[cycle(expr)]
fn operand_at<'a>(alloc: Global, names: &Names, more: u32, bytes: &'a [u8]) -> Parsed<'a, Expr>
    ensures operand { Gives (λ p. (view p.0, p.1.now)) result (operand_at names.now (inner_of names.now more) bytes.now) }
    ensures shorter { IfOk result (λ p. length p.1.now ≤ length bytes.now) }
{
    if let Some(rest) = next_is(b"P(", bytes) {
        return term_at(names, rest);
    }
    if let Some(rest) = next_is(b"q", bytes) {
        return named_at(rest);
    }
    let Some(rest) = next_is(b"(", bytes) else {
        return Err(ReadStop::Left(trim(bytes).len()));
    };
    if more == 0 {
        return Err(ReadStop::Left(trim(bytes).len()));
    }
    in_parentheses(alloc, names, more - 1, rest)
}

/// A sum, behind its word.
#[tactic(auto, unfolding(crate::specs::Read::sum_at))]
#[cycle(expr)]
fn sum_at<'a>(alloc: Global, names: &Names, more: u32, bytes: &'a [u8]) -> Parsed<'a, Expr>
    ensures sum { Gives (λ p. (view p.0, p.1.now)) result (sum_at names.now (expr_with names.now (inner_of names.now more)) bytes.now) }
    ensures shorter { IfOk result (λ p. length p.1.now ≤ length bytes.now) }
{
    let start = expect(b"{", bytes)?;
    let (over, rest) = names_at(names, start)?;
    let rest = expect(b"}", rest)?;
    let (body, rest) = expr_at(alloc, names, more, rest)?;
    let body = Box::new(alloc, body)?;
    Ok((Expr::Sum { over, body }, rest))
}

/// One factor more.
#[tactic(auto, unfolding(crate::specs::Read::factor_at))]
#[cycle(expr)]
fn factor_at<'a>(
    alloc: Global,
    names: &Names,
    more: u32,
    factors: &mut Vec<Expr>,
    bytes: &'a [u8],
) -> Result<&'a [u8], ReadStop>
    ensures factor { Gives (λ r. (map view factors.new.items, r.now)) result (factor_at names.now (inner_of names.now more) (map view factors.old.items) bytes.now) }
    ensures shorter { IfOk result (λ r. length r.now ≤ length bytes.now) }
{
    let (factor, rest) = operand_at(alloc, names, more, bytes)?;
    factors.push(factor)?;
    Ok(rest)
}

/// Factors, each after a star.
#[cycle(expr)]
fn more_factors<'a>(
    alloc: Global,
    names: &Names,
    more: u32,
    factors: &mut Vec<Expr>,
    bytes: &'a [u8],
) -> Result<&'a [u8], ReadStop>
    ensures factors { Gives (λ r. (map view factors.new.items, r.now)) result (repeat (factor_step names.now (inner_of names.now more)) (length bytes.now) (map view factors.old.items) bytes.now) }
    ensures shorter { IfOk result (λ r. length r.now ≤ length bytes.now) }
{
    let mut rest = bytes;
    while let Some(after) = next_is(b"*", rest) {
        rest = factor_at(alloc, names, more, factors, after)?;
    }
    Ok(rest)
}

/// The factors of a product, behind the first `*`.
#[tactic(auto, unfolding(crate::specs::Read::factors_at))]
#[cycle(expr)]
fn factors_at<'a>(
    alloc: Global,
    names: &Names,
    more: u32,
    first: Expr,
    bytes: &'a [u8],
) -> Parsed<'a, Expr>
    ensures factors { Gives (λ p. (view p.0, p.1.now)) result (factors_at names.now (inner_of names.now more) (view first) bytes.now) }
    ensures shorter { IfOk result (λ p. length p.1.now ≤ length bytes.now) }
{
    let mut factors = Vec::new(alloc);
    factors.push(first)?;
    let start = factor_at(alloc, names, more, &mut factors, bytes)?;
    let rest = more_factors(alloc, names, more, &mut factors, start)?;
    Ok((Expr::Product(factors), rest))
}

/// A quotient, behind `/`.
#[tactic(auto, unfolding(crate::specs::Read::bottom_at))]
#[cycle(expr)]
fn bottom_at<'a>(
    alloc: Global,
    names: &Names,
    more: u32,
    top: Expr,
    bytes: &'a [u8],
) -> Parsed<'a, Expr>
    ensures bottom { Gives (λ p. (view p.0, p.1.now)) result (bottom_at names.now (inner_of names.now more) (view top) bytes.now) }
    ensures shorter { IfOk result (λ p. length p.1.now ≤ length bytes.now) }
{
    let (bottom, rest) = operand_at(alloc, names, more, bytes)?;
    let top = Box::new(alloc, top)?;
    let bottom = Box::new(alloc, bottom)?;
    Ok((Expr::Quotient { top, bottom }, rest))
}

/// One operand, a product or a quotient.
#[tactic(auto, unfolding(crate::specs::Read::operands_at))]
#[cycle(expr)]
fn operands_at<'a>(alloc: Global, names: &Names, more: u32, bytes: &'a [u8]) -> Parsed<'a, Expr>
    ensures operands { Gives (λ p. (view p.0, p.1.now)) result (operands_at names.now (inner_of names.now more) bytes.now) }
    ensures shorter { IfOk result (λ p. length p.1.now ≤ length bytes.now) }
{
    let (first, rest) = operand_at(alloc, names, more, bytes)?;
    if let Some(rest) = next_is(b"*", rest) {
        return factors_at(alloc, names, more, first, rest);
    }
    if let Some(rest) = next_is(b"/", rest) {
        return bottom_at(alloc, names, more, first, rest);
    }
    Ok((first, rest))
}

/// An expression in which so many parentheses and sums may nest.
#[tactic(auto, unfolding(crate::specs::Read::expr_with), using(crate::proofs::Inner::inner_none, crate::proofs::Inner::inner_some))]
#[cycle(expr)]
fn expr_at<'a>(alloc: Global, names: &Names, more: u32, bytes: &'a [u8]) -> Parsed<'a, Expr>
    ensures expr { Gives (λ p. (view p.0, p.1.now)) result (expr_with names.now (inner_of names.now more) bytes.now) }
    ensures shorter { IfOk result (λ p. length p.1.now ≤ length bytes.now) }
{
    let Some(rest) = next_is(b"sum", bytes) else {
        return operands_at(alloc, names, more, bytes);
    };
    if more == 0 {
        return Err(ReadStop::Left(trim(bytes).len()));
    }
    sum_at(alloc, names, more - 1, rest)
}

/// Why a text isn't read.
#[derive(Clone, Copy, Debug, PartialEq, Eq)]
pub enum TextFault {
    /// The first byte of the token, or the end, that doesn't fit after the tokens before it.
    Bad(usize),
    /// Memory was refused.
    NoMemory,
}

/// Where reading stopped.
fn fault_at(text: &[u8], stop: ReadStop) -> TextFault
    ensures { Faults text.now stop result }
{
    match stop {
        ReadStop::Left(left) => TextFault::Bad(text.len().saturating_sub(left)),
        ReadStop::NoMemory => TextFault::NoMemory,
    }
}

/// One expression, and nothing else.
#[tactic(auto, unfolding(crate::specs::Read::expr_of))]
fn whole_expr(alloc: Global, names: &Names, text: &[u8]) -> Result<Expr, ReadStop>
    ensures { Gives (λ e. view e) result (expr_of names.now text.now) }
{
    let (e, rest) = expr_at(alloc, names, 60, text)?;
    let rest = trim(rest);
    if !rest.is_empty() {
        return Err(ReadStop::Left(rest.len()));
    }
    Ok(e)
}

/// The expression that a text is.
///
/// `Bad` where the text isn't one `expr` of the grammar, names an unknown name, has a name twice in one set, has a
/// number over 2^32 - 1, or nests parentheses and sums over 60.
pub fn read_expr(alloc: Global, text: &[u8], names: &Names) -> Result<Expr, TextFault>
    ensures { Reads (λ e. view e) text.now result (expr_of names.now text.now) }
{
    match whole_expr(alloc, names, text) {
        Ok(e) => Ok(e),
        Err(stop) => Err(fault_at(text, stop)),
    }
}

/// The rest of a definition, behind its number.
#[tactic(auto, unfolding(crate::specs::Read::def_body))]
fn def_body<'a>(
    alloc: Global,
    names: &Names,
    defs: &mut Vec<Expr>,
    bytes: &'a [u8],
) -> Result<&'a [u8], ReadStop>
    ensures body { Gives (λ r. (map view defs.new.items, r.now)) result (def_body names.now (map view defs.old.items) bytes.now) }
    ensures shorter { IfOk result (λ r. length r.now ≤ length bytes.now) }
{
    let rest = expect(b"=", bytes)?;
    let (e, rest) = expr_at(alloc, names, 60, rest)?;
    defs.push(e)?;
    Ok(rest)
}

/// A definition, behind its `q`.
#[tactic(auto, unfolding(crate::specs::Read::def_at))]
fn def_at<'a>(
    alloc: Global,
    names: &Names,
    defs: &mut Vec<Expr>,
    bytes: &'a [u8],
) -> Result<&'a [u8], ReadStop>
    ensures def { Gives (λ r. (map view defs.new.items, r.now)) result (def_at names.now (map view defs.old.items) bytes.now) }
    ensures shorter { IfOk result (λ r. length r.now ≤ length bytes.now) }
{
    let (k, rest) = number_at(bytes)?;
    if k as usize != defs.len() {
        return Err(ReadStop::Left(trim(bytes).len()));
    }
    def_body(alloc, names, defs, rest)
}

/// Definitions in order.
fn defs_at<'a>(
    alloc: Global,
    names: &Names,
    defs: &mut Vec<Expr>,
    bytes: &'a [u8],
) -> Result<&'a [u8], ReadStop>
    ensures { Gives (λ r. (map view defs.new.items, r.now)) result (repeat (def_step names.now) (length bytes.now) (map view defs.old.items) bytes.now) }
{
    let mut rest = bytes;
    while let Some(after) = next_is(b"q", rest) {
        rest = def_at(alloc, names, defs, after)?;
    }
    Ok(rest)
}

/// A formula that `check` accepts.
fn checked(names: &Names, f: Formula) -> Result<Formula, ReadStop>
    ensures { Gives (λ f. formula_view f) result (checked (length names.now) (formula_view f)) }
{
    match check(&f, names.count()) {
        Ok(()) => Ok(f),
        Err(_) => Err(ReadStop::Left(0)),
    }
}

/// One expression, definitions, and nothing else.
#[tactic(auto, unfolding(crate::specs::Read::formula_of))]
fn whole_formula(alloc: Global, names: &Names, text: &[u8]) -> Result<Formula, ReadStop>
    ensures { Gives (λ f. formula_view f) result (formula_of names.now text.now) }
{
    let (main, rest) = expr_at(alloc, names, 60, text)?;
    let mut defs = Vec::new(alloc);
    let rest = defs_at(alloc, names, &mut defs, rest)?;
    let rest = trim(rest);
    if !rest.is_empty() {
        return Err(ReadStop::Left(rest.len()));
    }
    checked(names, Formula { defs, main })
}

/// The formula that a text is.
///
/// `Bad` as for `read_expr`, and where a definition is out of order; where only `check` refuses the formula, at
/// the text's length.
pub fn read_formula(alloc: Global, text: &[u8], names: &Names) -> Result<Formula, TextFault>
    ensures { Reads (λ f. formula_view f) text.now result (formula_of names.now text.now) }
{
    match whole_formula(alloc, names, text) {
        Ok(f) => Ok(f),
        Err(stop) => Err(fault_at(text, stop)),
    }
}
