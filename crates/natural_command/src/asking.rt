//! The sets that the lists of a question name.

ghost use Rattle.std.specs.Prelude.{◌≡◌, ◌++◌, None, IfOk, IfErr, OnOk};
ghost use Rattle.mixed_graph.specs.Vocabulary.{texts, is_named};
ghost use Rattle.targets.specs.Vocabulary.{AreSets, IsListedSet, IsNameFault, first_fault};
ghost use Rattle.diagram.specs.Vocabulary.{lent};
ghost use Rattle.natural_command.specs.Asking.{natural_lists, AreNamed, IsListsFaultOrMemory};

use crate::fault::NaturalFault;
use diagram::{Diagram, asked_query};
use further_lists::walked;
use mixed_graph::VSet;
use std::alloc::Global;
use targets::walk;

/// What is asked for: treatments, mediators, outcomes, and what is given.
#[derive(Clone, Copy)]
pub struct Question {
    pub x: VSet,
    pub through: VSet,
    pub y: VSet,
    pub given: VSet,
}

/// The question of these lists, whose sets are all observed, and no vertex in two of them.
///
/// A list x or y that is missing is that of the exposures or of the outcomes. Else the first name at fault of x, y and given, in this order;
/// else `EmptyY`; else `EmptyX`; else the first name at fault of the mediators; else `NoMediator` where there is none.
pub fn question_of(
    alloc: Global,
    diagram: &Diagram,
    x: Option<&[Vec<u8>]>,
    y: Option<&[Vec<u8>]>,
    through: &[Vec<u8>],
    given: &[Vec<u8>],
) -> Result<Question, NaturalFault>
    ensures question { IfOk result (AreNamed (natural_lists diagram.now (lent x.entry) (lent y.entry) (texts through.now) (texts given.now))) }
    ensures fault { IfErr result (IsListsFaultOrMemory (natural_lists diagram.now (lent x.entry) (lent y.entry) (texts through.now) (texts given.now))) }
{
    let sets = match asked_query(alloc, diagram, x, y, Some(given)) {
        Ok(sets) => sets,
        Err(fault) => return Err(NaturalFault::Listed(fault)),
    };
    let walked = walked(sets);
    let names = &diagram.observed.names;
    let set = match walk(alloc, &diagram.read.names, names, walked, through) {
        Ok(set) => set,
        Err(fault) => return Err(NaturalFault::Listed(fault)),
    };
    if through.is_empty() {
        return Err(NaturalFault::NoMediator);
    }
    Ok(Question {
        x: sets.x,
        through: set,
        y: sets.y,
        given: sets.given,
    })
}
