//! The sets that the lists of a question name.

ghost use Rattle.std.specs.Prelude.{IfOk, IfErr};
ghost use Rattle.mixed_graph.specs.Vocabulary.{texts};
ghost use Rattle.diagram.specs.Vocabulary.{lent};
ghost use Rattle.targets.specs.Vocabulary.{OrMemory};
ghost use Rattle.bounds_command.specs.Asking.{bound_lists, AreNamed, IsBoundFault};

use bound_values::{Method, Question};
use diagram::{Diagram, asked_query};
use further_lists::walked;
use std::alloc::Global;
use targets::{TargetFault, walk_two};

/// The question of these lists, whose sets are all observed, and no vertex in two of them.
///
/// A list x or y that is missing is that of the exposures or of the outcomes. Else the first name at fault of x, y and given, in this order;
/// else `EmptyY`; else `EmptyX`; else the first name at fault of the instruments and then of the strata.
pub fn question_of(
    alloc: Global,
    diagram: &Diagram,
    x: Option<&[Vec<u8>]>,
    y: Option<&[Vec<u8>]>,
    given: &[Vec<u8>],
    instruments: &[Vec<u8>],
    strata: &[Vec<u8>],
) -> Result<Question, TargetFault>
    ensures question { IfOk result (AreNamed (bound_lists diagram.now (lent x.entry) (lent y.entry) (texts given.now) (texts instruments.now) (texts strata.now))) }
    ensures fault { IfErr result (OrMemory (IsBoundFault (bound_lists diagram.now (lent x.entry) (lent y.entry) (texts given.now) (texts instruments.now) (texts strata.now)))) }
{
    let sets = match asked_query(alloc, diagram, x, y, Some(given)) {
        Ok(sets) => sets,
        Err(fault) => return Err(fault),
    };
    let walked = walked(sets);
    let names = &diagram.observed.names;
    match walk_two(
        alloc,
        &diagram.read.names,
        names,
        walked,
        instruments,
        strata,
    ) {
        Ok((instruments, strata)) => Ok(Question {
            x: sets.x,
            y: sets.y,
            given: sets.given,
            instruments,
            strata,
            method: Method::Instruments,
        }),
        Err(fault) => Err(fault),
    }
}
