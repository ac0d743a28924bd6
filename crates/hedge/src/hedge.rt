//! Hedges as data, and their faults.

ghost use Rattle.hedge.specs.Entries.{HasEntries};

use crate::joined_sets::{Choice, Links};
use mixed_graph::VSet;

/// Two sets joined by bidirected edges, small in big; a child of each member of big that is no root; and a tree of links.
#[derive(Clone, Copy)]
pub struct Hedge {
    pub big: VSet,
    pub small: VSet,
    pub roots: VSet,
    pub choice: Choice,
    pub links: Links,
}

impl Hedge {
    /// Brings into a proof what the type alone keeps: the links are two arrays of 64 entries.
    pub fn has_entries(&self)
        ensures { HasEntries self.now }
    {
        let _ = self.links.found[0];
        let _ = self.links.partner[0];
    }
}

/// What keeps data from being a hedge.
#[derive(Clone, Copy, Debug, PartialEq, Eq)]
pub enum HedgeFault {
    /// Big isn't below n, small isn't inside big, or the roots are none or not inside small.
    Sets,
    BigMissesX,
    SmallMeetsX,
    /// The lowest vertex that chooses though it is a root or outside big, or doesn't choose a child inside.
    Choice(u8),
    /// The lowest vertex that isn't placed once, small first; or 64 for an entry outside big; or the lowest with a wrong partner.
    Link(u8),
    /// The lowest root without a directed path to y outside x.
    Root(u8),
}
