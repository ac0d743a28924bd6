//! The parts of the formula, one for each district.

ghost use Rattle.std.specs.Prelude.{ℕ, ◌≡◌, ◌<◌, IfOk, IsTrue, All};
ghost use Rattle.mixed_graph.specs.Vocabulary.{has, minus, all, Within, graph_of};
ghost use Rattle.hedge.specs.Vocabulary.{IsMaximalJoined, first_masks};
ghost use Rattle.identification_theory.specs.Vocabulary.{IsUnidentified};
ghost use Rattle.natural_id.specs.Answers.{IsPartOf, IsSplitOrNone, ArePartsOrSplit};

use crate::answers::{Part, Split};
use hedge::joined_sets::Districts;
use identify::{FormulaAnswer, identify_formula};
use mixed_graph::{Graph, VSet};
use std::alloc::{AllocError, Global};

/// The parts, or a district that reads both values of a treatment.
#[derive(Drop)]
pub enum Parted {
    Parts(Vec<Part>),
    Split(Split),
}

/// The part of the district c, whose formula is there.
fn part_of(alloc: Global, g: &Graph, c: VSet, second: VSet) -> Result<Part, AllocError>
    requires within { Within g.now.n (has c.bits) }
    requires some { 0 < c.bits }
    requires found { (small big : ℕ) → IsUnidentified (graph_of g.now) (minus (all g.now.n) c.bits) c.bits small big → ⊥ }
    ensures { IfOk result (IsPartOf (graph_of g.now) c second) }
{
    let others = VSet::below(g.n).difference(c);
    match identify_formula(alloc, g, others, c)? {
        FormulaAnswer::Formula(formula) => Ok(Part {
            district: c,
            second,
            formula,
        }),
        FormulaAnswer::Hedge(_, _) => unreachable!(),
    }
}

/// How c reads both values of a treatment, where it does: by a child of it outside `through`, and by one in it.
pub fn split_in(g: &Graph, x: VSet, through: VSet, c: VSet) -> Option<Split>
    ensures { IsSplitOrNone (graph_of g.now) x.bits through.bits c result }
{
    let direct = c.difference(through);
    let indirect = c.intersection(through);
    let read_first = x.intersection(g.parents_of(direct));
    let read_both = read_first.intersection(g.parents_of(indirect));
    if read_both.is_empty() {
        return None;
    }
    let treatment = read_both.lowest();
    let children = g.children(treatment);
    Some(Split {
        district: c,
        treatment,
        first: direct.intersection(children).lowest(),
        second: indirect.intersection(children).lowest(),
    })
}

/// The parts of the districts of d; or the first of them that reads both values of a treatment.
pub fn parts_of(
    alloc: Global,
    g: &Graph,
    x: VSet,
    through: VSet,
    d: VSet,
    districts: &Districts,
) -> Result<Parted, AllocError>
    requires within { Within g.now.n (has d.bits) }
    requires districts { All (IsMaximalJoined (graph_of g.now) d.bits) (first_masks districts.now.sets districts.now.count) }
    requires found { All (λ c. (small big : ℕ) → IsUnidentified (graph_of g.now) (minus (all g.now.n) c) c small big → ⊥) (first_masks districts.now.sets districts.now.count) }
    ensures { IfOk result (ArePartsOrSplit (graph_of g.now) x.bits through.bits d.bits (first_masks districts.now.sets districts.now.count)) }
{
    let mut parts = Vec::new(alloc);
    for c in &districts.sets[..districts.count as usize] {
        if let Some(split) = split_in(g, x, through, *c) {
            return Ok(Parted::Split(split));
        }
        let second = x.intersection(g.parents_of(c.intersection(through)));
        let part = part_of(alloc, g, *c, second)?;
        parts.push(part)?;
    }
    Ok(Parted::Parts(parts))
}
