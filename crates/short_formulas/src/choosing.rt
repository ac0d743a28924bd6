//! The shortest of several candidates.

ghost use Rattle.std.specs.Prelude.{◌≡◌, true, IfOk, IfSome};
ghost use Rattle.mixed_graph.specs.Vocabulary.{graph_of};
ghost use Rattle.prob_expr.specs.Vocabulary.{is_term, formula_view, target_view};
ghost use Rattle.do_derivation.specs.Vocabulary.{derivation_view};
ghost use Rattle.short_formulas.specs.Short.{IsInPlaceOf};

use crate::admitting::is_in_place_of;
use crate::measuring::length;
use held_steps::Candidate;
use mixed_graph::Graph;
use prob_expr::{Formula, Target, mentioned};
use std::alloc::{AllocError, Global};

/// What is compared: the length, and then how many vertices are named.
#[derive(Clone, Copy)]
struct Key {
    length: u32,
    named: u32,
}

impl Key {
    fn of(f: &Formula) -> Key {
        Key {
            length: length(f),
            named: mentioned(f).count(),
        }
    }

    fn is_below(self, other: Key) -> bool {
        self.length < other.length || self.length == other.length && self.named < other.named
    }
}

/// Takes out the shortest candidate, and of equally short ones the first with the fewest vertices.
fn take_shortest(candidates: &mut Vec<Candidate>) -> Option<Candidate> {
    let mut best = 0;
    let mut least = Key {
        length: u32::MAX,
        named: u32::MAX,
    };
    for (i, candidate) in candidates.iter().enumerate() {
        let key = Key::of(&candidate.formula);
        if key.is_below(least) {
            best = i;
            least = key;
        }
    }
    if best < candidates.len() {
        Some(candidates.remove(best))
    } else {
        None
    }
}

/// The shortest of the candidates that may stand in place of a formula.
pub fn shortest(
    alloc: Global,
    g: &Graph,
    t: &Target,
    other: &Formula,
    candidates: Vec<Candidate>,
) -> Result<Option<Candidate>, AllocError>
    requires target { is_term g.now.n t.now.y.bits t.now.x.bits t.now.given.bits ≡ true }
    ensures { IfOk result (λ found. IfSome found (λ c. IsInPlaceOf (graph_of g.now) (target_view t.now) (formula_view other.now) (formula_view c.formula) (derivation_view c.derivation))) }
{
    let least = Key::of(other);
    let mut left = candidates;
    for _ in 0..left.len() {
        let Some(candidate) = take_shortest(&mut left) else {
            return Ok(None);
        };
        if least.is_below(Key::of(&candidate.formula)) {
            return Ok(None);
        }
        if is_in_place_of(alloc, g, t, other, &candidate)? {
            return Ok(Some(candidate));
        }
    }
    Ok(None)
}
