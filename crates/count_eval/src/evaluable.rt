//! Whether a formula can be evaluated over a table.

ghost use Rattle.std.specs.Bool.{OnTrue, OnFalse};
ghost use Rattle.prob_expr.specs.Vocabulary.{formula_view};
ghost use Rattle.count_table.specs.Vocabulary.{HasLevels};
ghost use Rattle.count_eval.specs.Answers.{IsEvaluable};
ghost use Rattle.count_eval.specs.Programs.{is_used};
ghost use Rattle.count_eval.specs.Levels.{HasLevel};

use count_table::Counts;
use prob_expr::{Formula, check, formula_uses_only, is_do_free};

/// Whether `value` may be asked for a formula of a graph on n vertices over a table: there are at most 64
/// vertices, the used ones among them, `check` finds no fault in the formula, and it has used vertices alone and no
/// intervention.
pub fn is_evaluable(n: u32, f: &Formula, c: &Counts) -> bool
    ensures yes { OnTrue result (IsEvaluable n c.now (formula_view f.now)) }
    ensures no { OnFalse result (IsEvaluable n c.now (formula_view f.now) → ⊥) }
{
    let used = c.used();
    if n > 64 {
        return false;
    }
    if !used.is_below(n) {
        return false;
    }
    if check(f, n).is_err() {
        return false;
    }
    if !is_do_free(f) {
        return false;
    }
    formula_uses_only(f, used)
}

/// Whether a cell has a level of a vertex, where that is used.
fn has_level(c: &Counts, at: &[u32], v: u8) -> bool
    ensures yes { OnTrue result (HasLevel c.now at.now v) }
    ensures no { OnFalse result (HasLevel c.now at.now v → ⊥) }
{
    let place = v as usize;
    let levels = c.levels(v);
    if levels == 0 {
        return true;
    }
    place < at.len() && at[place] < levels
}

/// Whether a cell has a level of each used vertex.
pub fn is_cell(c: &Counts, at: &[u32]) -> bool
    ensures yes { OnTrue result (HasLevels c.now (is_used c.now) at.now) }
    ensures no { OnFalse result (HasLevels c.now (is_used c.now) at.now → ⊥) }
{
    'members: for v in c.used().iter() {
        if !has_level(c, at, v) {
            return false;
        }
    }
    true
}
