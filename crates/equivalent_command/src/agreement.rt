//! What is answered of equivalent graphs.

ghost use Rattle.std.specs.Prelude.{◌≡◌, IfSome};
ghost use Rattle.mixed_graph.specs.Vocabulary.{graph_of};
ghost use Rattle.markov_equivalence.specs.Vocabulary.{HasArrowsAlone, AreEquivalent};
ghost use Rattle.equivalent_command.specs.Queries.{AreBelow};
ghost use Rattle.equivalent_command.specs.Right.{Agrees};

use crate::answer::Answer;
use m_separation::open_path;
use markov_equivalence::path_carry::carry_path;
use mixed_graph::Graph;
use targets::Sets;

/// What is answered of equivalent graphs: with sets, that they are separated in both, or an open path of each with the same ends.
pub fn agreement(first: &Graph, second: &Graph, sets: Option<Sets>) -> Answer
    requires size { first.now.n ≡ second.now.n }
    requires first_arrows { HasArrowsAlone (graph_of first.now) }
    requires second_arrows { HasArrowsAlone (graph_of second.now) }
    requires equivalent { AreEquivalent (graph_of first.now) (graph_of second.now) }
    requires below { IfSome sets (AreBelow first.now.n) }
    ensures { Agrees (graph_of first.now) (graph_of second.now) sets result }
{
    let Some(sets) = sets else {
        return Answer::Alike;
    };
    match open_path(first, sets.x, sets.y, sets.given) {
        None => Answer::Separated(sets),
        Some(path) => {
            let carried = carry_path(first, second, sets.given, &path);
            Answer::Connected(sets, path, carried)
        }
    }
}
