//! The sets that the lists of an effect over experiments name in a diagram.

ghost use Rattle.std.specs.Prelude.{IfOk, IfErr, map};
ghost use Rattle.prob_expr.specs.Vocabulary.{masks_of};
ghost use Rattle.targets.specs.Vocabulary.{OrMemory};
ghost use Rattle.command_words.specs.Vocabulary.{names_in};
ghost use Rattle.diagram.specs.Vocabulary.{lent};
ghost use Rattle.surrogate_command.specs.Sets.{surrogate_lists, AreSurrogateSets, IsSurrogateFault};

use diagram::{Diagram, Marked, set_of};
use experiment_lists::experiment_sets;
use mixed_graph::VSet;
use std::alloc::Global;
use targets::TargetFault;

/// The sets of an effect of x on y over experiments.
#[derive(Drop)]
pub struct SurrogateSets {
    pub x: VSet,
    pub y: VSet,
    pub experiments: Vec<VSet>,
}

/// The sets of the lists of an effect over experiments, all of them observed. x may be empty.
///
/// No name stands twice in x and y, nor twice in one experiment. Else the first name at fault, x walked first, then y,
/// then each experiment; else `EmptyY`.
pub fn asked_sets(
    alloc: Global,
    diagram: &Diagram,
    x: Option<&[Vec<u8>]>,
    y: Option<&[Vec<u8>]>,
    experiments: &[Vec<Vec<u8>>],
) -> Result<SurrogateSets, TargetFault>
    ensures sets { IfOk result (λ s. AreSurrogateSets (surrogate_lists diagram.now.read diagram.now.observed.names (lent x.entry) (lent y.entry) (map names_in experiments.now)) s.x.bits s.y.bits (masks_of s.experiments.items)) }
    ensures fault { IfErr result (OrMemory (IsSurrogateFault (surrogate_lists diagram.now.read diagram.now.observed.names (lent x.entry) (lent y.entry) (map names_in experiments.now)))) }
{
    let set_x = match set_of(alloc, diagram, VSet::empty(), x, Marked::Exposures) {
        Ok(set) => set,
        Err(fault) => return Err(fault),
    };
    let set_y = match set_of(alloc, diagram, set_x, y, Marked::Outcomes) {
        Ok(set) => set,
        Err(fault) => return Err(fault),
    };
    let (all, observed) = (&diagram.read.names, &diagram.observed.names);
    let experiments = match experiment_sets(alloc, all, observed, experiments) {
        Ok(sets) => sets,
        Err(fault) => return Err(fault),
    };
    if set_y.is_empty() {
        return Err(TargetFault::EmptyY);
    }
    Ok(SurrogateSets {
        x: set_x,
        y: set_y,
        experiments,
    })
}
