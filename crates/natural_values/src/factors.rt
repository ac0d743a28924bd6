//! The factors of the formula of a nested effect.

ghost use Rattle.std.specs.Prelude.{◌≡◌, IfOk};
ghost use Rattle.natural_id.specs.Vocabulary.{part_view, parts_view};
ghost use Rattle.factor_values.specs.Vocabulary.{factor_view, factors_view};
ghost use Rattle.natural_values.specs.Factors.{factor_of_part, natural_factors};

use factor_values::{Factor, Factors};
use mixed_graph::VSet;
use natural_id::{NaturalFormula, Part};
use std::alloc::{AllocError, Global};

/// The factor of a part.
fn factor_of(part: Part) -> Factor
    ensures { factor_view result ≡ factor_of_part (part_view part) }
{
    Factor {
        second: part.second,
        formula: part.formula,
    }
}

/// The factors of a formula, over P(given): each part's formula, which reads the treatments of the part at their second levels.
pub fn natural_factors(
    alloc: Global,
    formula: NaturalFormula,
    given: VSet,
) -> Result<Factors, AllocError>
    ensures { IfOk result (λ e. factors_view e ≡ natural_factors formula.summed.bits given.bits (parts_view formula.parts.items)) }
{
    let NaturalFormula { summed, parts } = formula;
    let mut factors = Vec::new(alloc);
    for part in parts {
        factors.push(factor_of(part))?;
    }
    Ok(Factors {
        summed,
        factors,
        given,
    })
}
