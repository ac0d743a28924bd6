//! Sets in ascending order of their members.

ghost use Rattle.std.specs.Prelude.{◌≡◌};
ghost use Rattle.std.specs.List.{AllPairs};
ghost use Rattle.std.specs.List.Sorted.{IsPermutation};
ghost use Rattle.std.specs.Ordering.{nat_cmp};
ghost use Rattle.std.specs.Cmp.Lexicographic.{slice_cmp};
ghost use Rattle.mixed_graph.specs.Vocabulary.{has, members_below};
ghost use Rattle.minimal_sets.specs.Listings.{IsBefore};
ghost use Rattle.minimal_sets.specs.Lists.{Pairwise};
ghost use Rattle.minimal_sets.specs.Progress.{AreOther};

use mixed_graph::VSet;
use std::cmp::Ordering;

/// Puts sets of which no two are the same into ascending order of their lists of members.
pub fn sort_sets(sets: &mut Vec<VSet>)
    requires other { Pairwise AreOther sets.old.items }
    ensures permutation { IsPermutation sets.old.items sets.new.items }
    ensures sorted { AllPairs IsBefore sets.new.items }
{
    sets.sort_unstable_by(
        |s: &VSet, t: &VSet| -> Ordering
            ensures { result ≡ slice_cmp nat_cmp (members_below (has s.now.bits) 64) (members_below (has t.now.bits) 64) }
        { s.compare_members(*t) },
    );
}
