//! The sets that the lists of experiments of a check name.

ghost use Rattle.std.specs.Prelude.{IfOk};
ghost use Rattle.experiment_lists.specs.Vocabulary.{lists_in};
ghost use Rattle.check_command.specs.Firsts.{IsAcceptance};

use diagram::Diagram;
use experiment_lists::experiment_sets;
use mixed_graph::VSet;
use replies::{Reply, refuse};
use std::alloc::{AllocError, Global};
use told::Told;

/// What the lists of experiments give on a diagram.
#[derive(Drop)]
pub enum Acceptance {
    /// A listed name is refused.
    Refused(Reply),
    /// The certificate is to be read. The sets are those of the experiments.
    Accepted(Vec<VSet>),
}

/// The sets of observed vertices that the lists of experiments name; else what is told of the first name at fault, by a command with such answers.
pub fn accept_experiments<A: Told>(
    alloc: Global,
    diagram: &Diagram,
    experiments: &Vec<Vec<Vec<u8>>>,
) -> Result<Acceptance, AllocError>
    ensures { IfOk result (IsAcceptance A.telling diagram.now (lists_in experiments.now)) }
{
    match experiment_sets(
        alloc,
        &diagram.read.names,
        &diagram.observed.names,
        experiments.as_slice(),
    ) {
        Ok(sets) => Ok(Acceptance::Accepted(sets)),
        Err(fault) => Ok(Acceptance::Refused(refuse(alloc, &fault)?)),
    }
}
