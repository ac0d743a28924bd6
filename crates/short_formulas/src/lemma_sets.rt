//! Whether lemmas have sets.

ghost use Rattle.std.specs.Prelude.{◌≡◌, ◌≤◌, ◌&&◌, not, map};
ghost use Rattle.mixed_graph.specs.Vocabulary.{is_below, is_empty};
ghost use Rattle.do_derivation.specs.Vocabulary.{are_sets, sets_of, lemma_view};

use do_derivation::Lemma;
use mixed_graph::VSet;

/// Whether a set is below n, and not empty.
fn is_filled(n: u32, set: VSet) -> bool
    requires { n ≤ 64 }
    ensures { result ≡ (is_below n set.bits && not (is_empty set.bits)) }
{
    set.is_below(n) && !set.is_empty()
}

/// Whether each lemma's set is below n, and not empty.
pub fn are_sets(n: u32, lemmas: &Vec<Lemma>) -> bool
    requires { n ≤ 64 }
    ensures { result ≡ are_sets n (sets_of (map lemma_view lemmas.now.items)) }
{
    for lemma in lemmas {
        if !is_filled(n, lemma.set) {
            return false;
        }
    }
    true
}
