//! The value of a formula over a table of counts.

ghost use Rattle.std.specs.Prelude.{◌≡◌, false, length, IfOk, IfErr};
ghost use Rattle.prob_expr.specs.Vocabulary.{formula_view};
ghost use Rattle.count_table.specs.Vocabulary.{HasLevels};
ghost use Rattle.count_eval.specs.Evaluated.{formula_value};
ghost use Rattle.count_eval.specs.Rules.{rule};
ghost use Rattle.count_eval.specs.Programs.{weights_in, is_used, cell_of};
ghost use Rattle.count_eval.specs.Answers.{IsEvaluable, CoversCounts, CoversWithZeros, CoversMatches, DeniesMatches};
ghost use Rattle.count_eval.specs.Values.{AnswersIfRoom};

use crate::EvalFault;
use crate::tables::prepared::prepare;
use count_table::Counts;
use prob_expr::Formula;
use quantity::Quantity;
use std::alloc::Global;

/// The value of a formula at a cell, over a table of counts: what it gives covers the true value.
///
/// The formula is prepared and then evaluated. The cell has an entry for each vertex of the graph, the number of a level;
/// those of vertices that aren't used don't count. The fault is that of the first node, in the order of evaluation, that
/// has no value: `NoSupport` where a denominator is 0, `TooWide` where a number of the result would be over 2^127 - 1,
/// `TooFine` where only a divisor's lower bound is 0. Where a positive model matches the counts, it isn't `NoSupport`.
/// Want of memory is `NoMemory`. With `zero` a product with a factor 0 is 0 whatever its other factors are.
pub fn value<Q: Quantity>(
    alloc: Global,
    f: &Formula,
    c: &Counts,
    zero: bool,
    at: &[u32],
) -> Result<Q, EvalFault>
    requires formula { IsEvaluable (length at.now) c.now (formula_view f.now) }
    requires levels { HasLevels c.now (is_used c.now) at.now }
    ensures value { AnswersIfRoom Q.numbers c.now (formula_value (rule Q.kind zero) (weights_in (length at.now) c.now) (formula_view f.now) (cell_of at.now)) result }
    ensures counts { zero ≡ false → IfOk result (λ q. CoversCounts Q.covers (length at.now) c.now (formula_view f.now) (cell_of at.now) (Q.numbers q)) }
    ensures zeros { IfOk result (λ q. CoversWithZeros Q.covers (length at.now) c.now (formula_view f.now) (cell_of at.now) (Q.numbers q)) }
    ensures matches { IfOk result (λ q. CoversMatches Q.covers (length at.now) c.now (formula_view f.now) (cell_of at.now) (Q.numbers q)) }
    ensures support { IfErr result (DeniesMatches (length at.now) c.now (cell_of at.now)) }
{
    match prepare::<Q>(alloc, at.len() as u32, f, c, zero) {
        Ok(prepared) => prepared.value(at),
        Err(_) => Err(EvalFault::NoMemory),
    }
}
