//! A formula that is prepared to be evaluated at many cells.

ghost use Rattle.std.specs.Prelude.{◌≡◌, ◌≢◌, false, length, IfOk, IfErr};
ghost use Rattle.count_eval.specs.Rules.{rule};
ghost use Rattle.prob_expr.specs.Vocabulary.{formula_view};
ghost use Rattle.count_table.specs.Vocabulary.{HasLevels};
ghost use Rattle.count_eval.specs.Evaluated.{formula_value};
ghost use Rattle.count_eval.specs.Programs.{weights_in, is_used, cell_of};
ghost use Rattle.count_eval.specs.Answers.{IsEvaluable, Answers, CoversCounts, CoversWithZeros, CoversMatches, DeniesMatches};

use crate::tables::table::DefinitionTable;
use crate::tables::tables::{MOST_CELLS, Tables, tables_of};
use crate::tables::terms::add_formula;
use crate::{EvalFault, value_by};
use count_table::Counts;
use count_table::sum_tables::SumTables;
use mixed_graph::VSet;
use prob_expr::Formula;
use quantity::Quantity;
use std::alloc::{AllocError, Global};
use std::marker::Model;

/// A formula over a table of counts, prepared to be evaluated at many cells.
///
/// Contracts see the number of vertices, the table and the plain formula.
#[derive(Drop)]
pub struct Prepared<'a, Q: Quantity> {
    vertices: u32,
    formula: &'a Formula,
    counts: &'a Counts,
    zero: bool,
    used: VSet,
    sums: SumTables<'a>,
    definitions: Vec<DefinitionTable<Q>>,
}

impl<'a, Q: Quantity> Model for Prepared<'a, Q> {
    ghost use Rattle.prob_expr.specs.View.{formula_view};
    ghost use Rattle.count_eval.specs.Rules.{rule};
    ghost use Rattle.count_eval.specs.Preparations.{Preparation, coded_preparation};
    ghost use Rattle.count_eval.specs.Tables.{IsPrepared};

    ghost Value = { Preparation };

    ghost coded = { coded_preparation };

    ghost view = { λ s. record { vertices = s.vertices; counts = s.counts.now; formula = formula_view s.formula.now; zero = s.zero } };

    ghost invariant = { λ s. IsPrepared Q.numbers (rule Q.kind s.zero) s.vertices s.counts.now (formula_view s.formula.now) s.used.bits s.sums s.definitions.items };
}

/// Prepares a formula on n vertices over a table of counts. Its only error is want of memory.
///
/// Tables are made in the order of the definitions, each after the sums of its terms, and last the sums of the main
/// expression's, as long as all have at most 2^22 cells together. What has no table is evaluated as `value_by_nodes` does. With
/// `zero` a product with a factor 0 is 0 whatever its other factors are.
pub fn prepare<'a, Q: Quantity>(
    alloc: Global,
    n: u32,
    f: &'a Formula,
    c: &'a Counts,
    zero: bool,
) -> Result<Prepared<'a, Q>, AllocError>
    requires { IsEvaluable n c.now (formula_view f.now) }
    ensures vertices { IfOk result (λ p. p.vertices ≡ n) }
    ensures counts { IfOk result (λ p. p.counts ≡ c.now) }
    ensures formula { IfOk result (λ p. p.formula ≡ formula_view f.now) }
    ensures zero { IfOk result (λ p. p.zero ≡ zero) }
{
    let used = c.used();
    let mut sums = SumTables::new(alloc, c);
    let definitions = tables_of(alloc, n, f, c, zero, &mut sums)?;
    add_formula(&mut sums, alloc, f, MOST_CELLS - definitions.cells)?;
    Ok(Prepared {
        vertices: n,
        formula: f,
        counts: c,
        zero,
        used,
        sums,
        definitions: definitions.tables,
    })
}

impl<'a, Q: Quantity> Prepared<'a, Q> {
    /// The value at a cell, as `value_by_nodes` gives it: the same value, or the same fault. It takes no memory.
    pub fn value(&self, at: &[u32]) -> Result<Q, EvalFault>
        requires entries { length at.now ≡ self.now.vertices }
        requires levels { HasLevels self.now.counts (is_used self.now.counts) at.now }
        ensures value { Answers Q.numbers self.now.counts (formula_value (rule Q.kind self.now.zero) (weights_in self.now.vertices self.now.counts) self.now.formula (cell_of at.now)) result }
        ensures counts { self.now.zero ≡ false → IfOk result (λ q. CoversCounts Q.covers self.now.vertices self.now.counts self.now.formula (cell_of at.now) (Q.numbers q)) }
        ensures zeros { IfOk result (λ q. CoversWithZeros Q.covers self.now.vertices self.now.counts self.now.formula (cell_of at.now) (Q.numbers q)) }
        ensures matches { IfOk result (λ q. CoversMatches Q.covers self.now.vertices self.now.counts self.now.formula (cell_of at.now) (Q.numbers q)) }
        ensures support { IfErr result (DeniesMatches self.now.vertices self.now.counts (cell_of at.now)) }
        ensures memory { IfErr result (λ e. e ≢ EvalFault.NoMemory) }
    {
        let tables = Tables {
            vertices: self.vertices,
            formula: self.formula,
            counts: self.counts,
            zero: self.zero,
            sums: &self.sums,
            definitions: self.definitions.as_slice(),
        };
        value_by(
            &tables,
            self.vertices,
            self.formula,
            self.used,
            self.zero,
            at,
        )
    }
}
