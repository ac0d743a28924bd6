//! The sets that the lists of experiments name.

ghost use Rattle.std.specs.Prelude.{IfOk};
ghost use Rattle.experiment_lists.specs.Vocabulary.{lists_in};
ghost use Rattle.check_command.specs.Vocabulary.{IsAcceptance};
ghost use Rattle.steps_command.specs.Telling.{steps_telling};

use crate::answer::Answer;
use check_command::Acceptance;
use diagram::Diagram;
use std::alloc::{AllocError, Global};

/// The sets of observed vertices that the lists of experiments name; else what is told of the first name at fault, as of `check`.
pub fn accept_experiments(
    alloc: Global,
    diagram: &Diagram,
    experiments: &Vec<Vec<Vec<u8>>>,
) -> Result<Acceptance, AllocError>
    ensures { IfOk result (IsAcceptance steps_telling diagram.now (lists_in experiments.now)) }
{
    check_command::accept_experiments::<Answer>(alloc, diagram, experiments)
}
