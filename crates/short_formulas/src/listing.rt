//! The minimal sets for which the adjustment formula is the effect.

ghost use Rattle.std.specs.Prelude.{ℕ, ◌≡◌, ◌<◌};
ghost use Rattle.mixed_graph.specs.Vocabulary.{has, Within, Apart};

use minimal_sets::{Steps, list};
use mixed_graph::{Graph, VSet};
use std::alloc::{AllocError, Global};
use std::marker::Brand;
use std::sync::ledger::{Blank, Ledger};

/// The minimal admissible sets for the effect of x on y, at most 100, in ascending order of their lists.
pub(crate) fn minimal_sets(
    alloc: Global,
    g: &Graph,
    x: VSet,
    y: VSet,
) -> Result<Vec<VSet>, AllocError>
    requires x { Within g.now.n (has x.bits) }
    requires y { Within g.now.n (has y.bits) }
    requires apart { Apart (has x.bits) (has y.bits) }
{
    list_counted::<Brand>(alloc, Blank::new(1), g, x, y)
}

/// The same with a blank for the count of the separators computed.
fn list_counted<L: Ledger>(
    alloc: Global,
    blank: Blank,
    g: &Graph,
    x: VSet,
    y: VSet,
) -> Result<Vec<VSet>, AllocError>
    requires name { blank.name ≡ L.name }
    requires parts { blank.parts ≡ L.parts }
    requires some { 0 < blank.parts }
    requires x { Within g.now.n (has x.bits) }
    requires y { Within g.now.n (has y.bits) }
    requires apart { Apart (has x.bits) (has y.bits) }
{
    let mut steps = Steps::<L>::new(blank);
    let listing = list(alloc, g, x, y, 100, &mut steps)?;
    Ok(listing.sets)
}
