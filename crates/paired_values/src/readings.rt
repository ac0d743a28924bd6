//! An effect whose values are had at two levels of x at once.

ghost use Rattle.std.specs.Prelude.{◌≡◌, IfOk};
ghost use Rattle.mixed_graph.specs.Vocabulary.{union};
ghost use Rattle.factor_values.specs.Vocabulary.{factors_view};
ghost use Rattle.paired_values.specs.Readings.{by_factors, paired_view, pinned_in, read_by, read_in, free_by};

use factor_values::Factors;
use mixed_graph::VSet;
use natural_values::{free_in_factors, mentioned_in_factors};
use prob_expr::{Formula, free, mentioned};
use std::alloc::{AllocError, Global};
use targets::Sets;

/// How a value is had at two cells of levels.
#[derive(Clone, Copy)]
pub enum Reading<'a> {
    /// From factors, each of which reads some vertices at their second levels.
    Factors(&'a Factors),
    /// By the two levels of x, from the formula of the joint effect on y and what is given.
    Split(&'a Formula),
}

/// An effect in a graph on n vertices, and how its values are had.
#[derive(Clone, Copy)]
pub struct PairedEffect<'a> {
    pub n: u32,
    pub sets: Sets,
    pub reading: Reading<'a>,
}

/// x, y and what is given.
fn sets_of(sets: Sets) -> VSet
    ensures { result.bits ≡ union sets.x.bits (union sets.y.bits sets.given.bits) }
{
    sets.x.union(sets.y.union(sets.given))
}

/// The vertices that factors read, with these sets.
fn read_by_factors(factors: &Factors, sets: VSet) -> VSet
    ensures { result.bits ≡ read_by (by_factors (factors_view factors.now)) sets.bits }
{
    let summed = factors.summed.union(factors.given);
    mentioned_in_factors(factors).union(summed.union(sets))
}

/// What is free in factors beside these sets.
fn free_by_factors(alloc: Global, factors: &Factors, sets: VSet) -> Result<VSet, AllocError>
    ensures { IfOk result (λ s. s.bits ≡ free_by (by_factors (factors_view factors.now)) sets.bits) }
{
    let bound = factors.summed.union(sets);
    Ok(free_in_factors(alloc, factors)?.difference(bound))
}

/// The vertices whose levels are read.
pub fn read_for(effect: &PairedEffect<'_>) -> VSet
    ensures { result.bits ≡ read_in (paired_view effect.now) }
{
    let sets = sets_of(effect.sets);
    match effect.reading {
        Reading::Factors(factors) => read_by_factors(factors, sets),
        Reading::Split(joint) => mentioned(joint).union(sets),
    }
}

/// What is free beside x, y and what is given: it is read at its first level.
pub fn pinned_for(alloc: Global, effect: &PairedEffect<'_>) -> Result<VSet, AllocError>
    ensures { IfOk result (λ s. s.bits ≡ pinned_in (paired_view effect.now)) }
{
    let sets = sets_of(effect.sets);
    match effect.reading {
        Reading::Factors(factors) => free_by_factors(alloc, factors, sets),
        Reading::Split(joint) => Ok(free(alloc, joint)?.difference(sets)),
    }
}
