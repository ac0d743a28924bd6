//! The largest differences of the counts.

ghost use Rattle.std.specs.Prelude.{◌≡◌, IfOk};
ghost use Rattle.mixed_graph.specs.Vocabulary.{has, members_below, graph_of};
ghost use Rattle.implications_command.specs.Pairs.{ArePairs, pairs_in};
ghost use Rattle.implications_command.specs.Used.{used_in};
ghost use Rattle.implications_command.specs.Differences.{AreMeasured, first_broken};

use broken_pairs::is_apart;
use count_table::Counts;
use dag_reader::ReadGraph;
use implications::Implication;
use implied_differences::{Difference, largest_difference};
use std::alloc::{AllocError, Global};

/// A pair with the largest difference of the counts.
#[derive(Clone, Copy, Debug)]
pub struct Measured {
    pub pair: Implication,
    pub difference: Difference,
}

/// Each pair, with the largest difference of the counts.
pub fn largest_differences(
    alloc: Global,
    seen: &ReadGraph,
    list: &[Implication],
    counts: &Counts,
) -> Result<Vec<Measured>, AllocError>
    requires pairs { ArePairs (pairs_in seen.now list.now) }
    requires used { counts.now.vertices ≡ members_below (has (used_in list.now)) 64 }
    ensures { IfOk result (λ v. AreMeasured (graph_of seen.now.graph) counts.now list.now v.items) }
{
    // The clause `table` of `used` is needed: each used vertex has a level, so each pair can be asked about.
    let _used = counts.used();
    let mut all = Vec::new(alloc);
    for i in list {
        let difference = largest_difference(alloc, counts, i)?;
        all.push(Measured {
            pair: *i,
            difference,
        })?;
    }
    Ok(all)
}

/// The first of the pairs whose difference isn't 0: no model of the graph has the counts then.
pub fn first_broken(measured: &[Measured]) -> Option<Implication>
    ensures { result ≡ first_broken measured.now }
{
    measured
        .iter()
        .find(|m| is_apart(m.difference.value))
        .map(|m| m.pair)
}
