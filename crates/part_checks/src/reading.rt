//! The parts with what they read.

ghost use Rattle.std.specs.Prelude.{IfOk};
ghost use Rattle.mixed_graph.specs.Vocabulary.{graph_of};
ghost use Rattle.derived_parts.specs.Vocabulary.{derived_view, derived_views};
ghost use Rattle.natural_id.specs.Answers.{part_view, parts_view};
ghost use Rattle.part_checks.specs.Reading.{AreReadAs, IsPartOf, ReadsOwn, ReadsThrough};

use derived_parts::DerivedPart;
use mixed_graph::{Graph, VSet};
use natural_id::Part;
use std::alloc::{AllocError, Global};

/// The formula of a part, with the treatments that it reads at their second values.
fn part_of(part: DerivedPart, second: VSet) -> Part
    ensures { IsPartOf (derived_view part) second.bits (part_view result) }
{
    Part {
        district: part.district,
        second,
        formula: part.formula,
    }
}

/// The parts, each of which reads the second values of the treatments with a child in its district that leads to y through m.
pub fn read_through(
    alloc: Global,
    g: &Graph,
    x: VSet,
    through: VSet,
    parts: Vec<DerivedPart>,
) -> Result<Vec<Part>, AllocError>
    ensures { IfOk result (λ v. AreReadAs (ReadsThrough (graph_of g.now) x.bits through.bits) (derived_views parts.items) (parts_view v.items)) }
{
    let mut all = Vec::new(alloc);
    for part in parts {
        let second = x.intersection(g.parents_of(part.district.intersection(through)));
        all.push(part_of(part, second))?;
    }
    Ok(all)
}

/// The parts, each of which reads the second values of the treatments in its district.
pub fn read_own(alloc: Global, x: VSet, parts: Vec<DerivedPart>) -> Result<Vec<Part>, AllocError>
    ensures { IfOk result (λ v. AreReadAs (ReadsOwn x.bits) (derived_views parts.items) (parts_view v.items)) }
{
    let mut all = Vec::new(alloc);
    for part in parts {
        let second = x.intersection(part.district);
        all.push(part_of(part, second))?;
    }
    Ok(all)
}
