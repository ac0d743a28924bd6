//! The vertices that factors name.

ghost use Rattle.std.specs.Prelude.{◌≡◌, IfOk};
ghost use Rattle.factor_values.specs.Vocabulary.{factors_view};
ghost use Rattle.natural_values.specs.Naming.{free_in_factors, mentioned_in_factors};

use factor_values::Factors;
use mixed_graph::VSet;
use prob_expr::{free, mentioned};
use std::alloc::{AllocError, Global};

/// The vertices that the formula of some factor names.
pub fn mentioned_in_factors(factors: &Factors) -> VSet
    ensures { result.bits ≡ mentioned_in_factors (factors_view factors.now).factors }
{
    let mut all = VSet::EMPTY;
    for factor in &factors.factors {
        all = all.union(mentioned(&factor.formula));
    }
    all
}

/// The variables that are free in the formula of some factor.
pub fn free_in_factors(alloc: Global, factors: &Factors) -> Result<VSet, AllocError>
    ensures { IfOk result (λ s. s.bits ≡ free_in_factors (factors_view factors.now).factors) }
{
    let mut all = VSet::EMPTY;
    for factor in &factors.factors {
        all = all.union(free(alloc, &factor.formula)?);
    }
    Ok(all)
}
