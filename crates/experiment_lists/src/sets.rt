//! The sets that experiments name.

ghost use Rattle.std.specs.Prelude.{◌≡◌, None, IfOk, IfErr, OnOk, map};
ghost use Rattle.prob_expr.specs.Vocabulary.{masks_of};
ghost use Rattle.targets.specs.Vocabulary.{IsNameFault};
ghost use Rattle.command_words.specs.Vocabulary.{names_in};
ghost use Rattle.experiment_lists.specs.Sets.{experiments_fault, AreExperimentSets};

use mixed_graph::{Names, VSet};
use std::alloc::Global;
use targets::{TargetFault, walk};

/// The sets that experiments name, each walked by itself; else the first name at fault.
pub fn experiment_sets(
    alloc: Global,
    all: &Names,
    observed: &Names,
    experiments: &[Vec<Vec<u8>>],
) -> Result<Vec<VSet>, TargetFault>
    ensures none { OnOk result (experiments_fault all.now observed.now (map names_in experiments.now) ≡ None) }
    ensures sets { IfOk result (λ v. AreExperimentSets observed.now (map names_in experiments.now) (masks_of v.items)) }
    ensures fault { IfErr result (IsNameFault (experiments_fault all.now observed.now (map names_in experiments.now))) }
{
    let mut sets = Vec::new(alloc);
    for experiment in experiments {
        let set = match walk(alloc, all, observed, VSet::empty(), experiment.as_slice()) {
            Ok(set) => set,
            Err(fault) => return Err(fault),
        };
        match sets.push(set) {
            Ok(()) => {}
            Err(_) => return Err(TargetFault::NoMemory),
        }
    }
    Ok(sets)
}
