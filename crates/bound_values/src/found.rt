//! The bounds at all cells, or a crossing.

ghost use Rattle.std.specs.Prelude.{ℕ, ◌≡◌, ◌≢◌, ◌≤◌, ◌<◌, ◌∷◌, [], All, true, IfOk, IfErr, OnOk};
ghost use Rattle.mixed_graph.specs.Vocabulary.{Apart, has};
ghost use Rattle.count_eval.specs.Vocabulary.{is_used};
ghost use Rattle.table_cells.specs.Vocabulary.{IsCell, cells_along};
ghost use Rattle.bound_values.specs.Cells.{printed_vertices, crossing_vertices};
ghost use Rattle.bound_values.specs.Questions.{asked_of, IsCounted, IsScope};
ghost use Rattle.bound_values.specs.Told.{Appends, IsFaultAt};
ghost use Rattle.bound_values.specs.Values.{over_table};
ghost use Rattle.bound_values.specs.Found.{IsFirstCrossing, IsCrossingOf, AreBounds, IsFaultOf, IsFound, IsUnfound};

use crate::crossings::{Crossing, crossing_at};
use crate::methods::method_over;
use crate::questions::{Method, Question, Scope};
use crate::values::{CellBounds, CellFault, bounds_at};
use count_table::Counts;
use count_table::sum_tables::SumTables;
use std::alloc::{AllocError, Global};

/// Bounds that cross, and the cell in whose stratum they do.
#[derive(Clone, Copy, Debug)]
pub struct CellCrossing {
    pub cell: [u32; 64],
    pub crossing: Crossing,
}

/// What is found of an effect over counts.
#[derive(Drop)]
pub enum Found {
    /// The bounds of a stratum cross: no model of the diagram has these counts.
    Crossed(CellCrossing),
    /// The bounds at each level of x, of what is given and of y, those of x slowest.
    Bounded(Vec<CellBounds>),
}

/// The crossing of the bounds of a cell's stratum.
fn one_crossing(scope: &Scope, cell: [u32; 64]) -> Option<CellCrossing>
    requires scope { IsScope scope.now.n scope.now.counts.now scope.now.question.method (asked_of scope.now.question) scope.now.sums.now }
    requires cell { IsCell 64 scope.now.counts.now cell }
    requires instruments { scope.now.question.method ≢ Method.Adjustment }
    ensures { IsFirstCrossing scope.now.question.method scope.now.n scope.now.counts.now (asked_of scope.now.question) (cell ∷ []) result }
{
    match crossing_at(scope, cell) {
        Some(crossing) => Some(CellCrossing { cell, crossing }),
        None => None,
    }
}

/// The first of all cells that differ from `cell` at most in these vertices, in whose stratum the bounds cross.
fn first_crossing(scope: &Scope, vertices: &[u8], cell: [u32; 64]) -> Option<CellCrossing>
    requires scope { IsScope scope.now.n scope.now.counts.now scope.now.question.method (asked_of scope.now.question) scope.now.sums.now }
    requires vertices { All (λ v. is_used scope.now.counts.now v ≡ true) vertices.now }
    requires cell { IsCell 64 scope.now.counts.now cell }
    requires instruments { scope.now.question.method ≢ Method.Adjustment }
    ensures { IsFirstCrossing scope.now.question.method scope.now.n scope.now.counts.now (asked_of scope.now.question) (cells_along scope.now.counts.now cell vertices.now) result }
{
    let [v, rest @ ..] = vertices else {
        return one_crossing(scope, cell);
    };
    for k in 0..scope.counts.levels(*v) {
        let mut inner = cell;
        inner[*v as usize] = k;
        match first_crossing(scope, rest, inner) {
            Some(found) => return Some(found),
            None => {}
        }
    }
    None
}

/// Appends the bounds at all cells that differ from `cell` at most in these vertices, those of the first vertex slowest.
fn push_bounds(
    out: &mut Vec<CellBounds>,
    scope: &Scope,
    exact: bool,
    vertices: &[u8],
    cell: [u32; 64],
) -> Result<(), CellFault>
    requires scope { IsScope scope.now.n scope.now.counts.now scope.now.question.method (asked_of scope.now.question) scope.now.sums.now }
    requires apart { Apart (has scope.now.question.given.bits) (has scope.now.question.strata.bits) }
    requires vertices { All (λ v. is_used scope.now.counts.now v ≡ true) vertices.now }
    requires cell { IsCell 64 scope.now.counts.now cell }
    ensures bounds { OnOk result (Appends exact scope.now.question.method scope.now.n scope.now.counts.now (asked_of scope.now.question)
        (cells_along scope.now.counts.now cell vertices.now) out.old.items out.new.items) }
    ensures fault { IfErr result (IsFaultAt exact scope.now.question.method scope.now.n scope.now.counts.now (asked_of scope.now.question)
        (cells_along scope.now.counts.now cell vertices.now)) }
{
    let [v, rest @ ..] = vertices else {
        return push_cell(out, scope, exact, cell);
    };
    for k in 0..scope.counts.levels(*v) {
        let mut inner = cell;
        inner[*v as usize] = k;
        match push_bounds(out, scope, exact, rest, inner) {
            Ok(()) => {}
            Err(fault) => return Err(fault),
        }
    }
    Ok(())
}

/// Appends the bounds at a cell.
fn push_cell(
    out: &mut Vec<CellBounds>,
    scope: &Scope,
    exact: bool,
    cell: [u32; 64],
) -> Result<(), CellFault>
    requires scope { IsScope scope.now.n scope.now.counts.now scope.now.question.method (asked_of scope.now.question) scope.now.sums.now }
    requires apart { Apart (has scope.now.question.given.bits) (has scope.now.question.strata.bits) }
    requires cell { IsCell 64 scope.now.counts.now cell }
    ensures bounds { OnOk result (Appends exact scope.now.question.method scope.now.n scope.now.counts.now (asked_of scope.now.question)
        (cell ∷ []) out.old.items out.new.items) }
    ensures fault { IfErr result (IsFaultAt exact scope.now.question.method scope.now.n scope.now.counts.now (asked_of scope.now.question) (cell ∷ [])) }
{
    let bounds = match bounds_at(scope, exact, cell) {
        Ok(bounds) => bounds,
        Err(fault) => return Err(fault),
    };
    match out.push(bounds) {
        Ok(()) => Ok(()),
        Err(_) => Err(CellFault::NoMemory),
    }
}

/// The members of x, of what is given and of y, each in index order.
fn printed_vertices(alloc: Global, question: Question) -> Result<Vec<u8>, AllocError>
    ensures { IfOk result (λ v. v.items ≡ printed_vertices question) }
{
    let mut vertices = question.x.members(alloc)?;
    let given = question.given.members(alloc)?;
    let y = question.y.members(alloc)?;
    vertices.extend_from_slice(&given)?;
    vertices.extend_from_slice(&y)?;
    Ok(vertices)
}

/// Those, and the members of the strata.
fn crossing_vertices(alloc: Global, question: Question) -> Result<Vec<u8>, AllocError>
    ensures { IfOk result (λ v. v.items ≡ crossing_vertices question) }
{
    let mut vertices = printed_vertices(alloc, question)?;
    let strata = question.strata.members(alloc)?;
    vertices.extend_from_slice(&strata)?;
    Ok(vertices)
}

/// The first crossing of the bounds by instruments; none where the effect is bounded by adjustment.
fn crossing_of(alloc: Global, scope: &Scope) -> Result<Option<CellCrossing>, AllocError>
    requires { IsScope scope.now.n scope.now.counts.now scope.now.question.method (asked_of scope.now.question) scope.now.sums.now }
    ensures { IfOk result (IsCrossingOf scope.now.n scope.now.counts.now scope.now.question) }
{
    match scope.question.method {
        Method::Adjustment => Ok(None),
        Method::Instruments | Method::LevelPairs => {
            let vertices = crossing_vertices(alloc, scope.question)?;
            Ok(first_crossing(scope, &vertices, [0; 64]))
        }
    }
}

/// The bounds at all printed cells.
fn bounds_of(alloc: Global, scope: &Scope, exact: bool) -> Result<Vec<CellBounds>, CellFault>
    requires scope { IsScope scope.now.n scope.now.counts.now scope.now.question.method (asked_of scope.now.question) scope.now.sums.now }
    requires apart { Apart (has scope.now.question.given.bits) (has scope.now.question.strata.bits) }
    ensures bounds { IfOk result (AreBounds exact scope.now.n scope.now.counts.now scope.now.question) }
    ensures fault { IfErr result (IsFaultOf exact scope.now.n scope.now.counts.now scope.now.question) }
{
    // The clauses `effect` are needed: what the bounds of each method say of models.
    natural_bounds::laws();
    crossed_bounds::laws();
    adjusted_bounds::laws();
    let Ok(vertices) = printed_vertices(alloc, scope.question) else {
        return Err(CellFault::NoMemory);
    };
    let mut bounds = Vec::new(alloc);
    match push_bounds(&mut bounds, scope, exact, &vertices, [0; 64]) {
        Ok(()) => Ok(bounds),
        Err(fault) => Err(fault),
    }
}

/// The same, where no bounds cross.
fn found_in(alloc: Global, scope: &Scope, exact: bool) -> Result<Found, CellFault>
    requires scope { IsScope scope.now.n scope.now.counts.now scope.now.question.method (asked_of scope.now.question) scope.now.sums.now }
    requires apart { Apart (has scope.now.question.given.bits) (has scope.now.question.strata.bits) }
    ensures found { IfOk result (IsFound exact scope.now.n scope.now.counts.now scope.now.question) }
    ensures fault { IfErr result (IsUnfound exact scope.now.n scope.now.counts.now scope.now.question) }
{
    match crossing_of(alloc, scope) {
        Ok(Some(crossing)) => Ok(Found::Crossed(crossing)),
        Ok(None) => match bounds_of(alloc, scope, exact) {
            Ok(bounds) => Ok(Found::Bounded(bounds)),
            Err(fault) => Err(fault),
        },
        Err(_) => Err(CellFault::NoMemory),
    }
}

/// How many cells the tables of sums have together, at most.
const MOST_CELLS: usize = 4_194_304;

/// The sums that a question asks for.
fn sums_for<'a>(
    alloc: Global,
    counts: &'a Counts,
    question: Question,
) -> Result<SumTables<'a>, AllocError>
    ensures { IfOk result (λ sums. sums.table ≡ counts.now) }
{
    let mut sums = SumTables::new(alloc, counts);
    sums.add(alloc, question.given, MOST_CELLS)?;
    sums.add(alloc, question.fixed(), MOST_CELLS)?;
    sums.add(alloc, question.level(), MOST_CELLS)?;
    sums.add(alloc, question.treated(), MOST_CELLS)?;
    sums.add(alloc, question.joint(), MOST_CELLS)?;
    Ok(sums)
}

/// What counts of n vertices say of an effect: its bounds at each level of x, of what is given and of y, or a stratum where bounds cross.
///
/// Where the question is by instruments, x is one vertex with two levels, and pairs of levels are few, these sharpen the bounds.
///
/// `NoRecords`: the first printed cell where what is given has no records. `TooWide`: a number would be over 2^127 - 1.
pub fn bounds_over(
    alloc: Global,
    counts: &Counts,
    n: u32,
    question: Question,
    exact: bool,
) -> Result<Found, CellFault>
    requires asked { IsCounted counts.now (asked_of question) }
    requires few { n ≤ 64 }
    requires below { (v : ℕ) → is_used counts.now v ≡ true → v < n }
    requires apart { Apart (has question.given.bits) (has question.strata.bits) }
    ensures found { IfOk result (IsFound exact n counts.now (over_table counts.now question)) }
    ensures fault { IfErr result (IsUnfound exact n counts.now (over_table counts.now question)) }
{
    // The clause `table` of `used` is needed: each used vertex has a level, and none other.
    let _used = counts.used();
    let Ok(sums) = sums_for(alloc, counts, question) else {
        return Err(CellFault::NoMemory);
    };
    let Ok(method) = method_over(alloc, counts, question) else {
        return Err(CellFault::NoMemory);
    };
    let scope = Scope {
        counts,
        sums: &sums,
        n,
        question: Question { method, ..question },
    };
    found_in(alloc, &scope, exact)
}
