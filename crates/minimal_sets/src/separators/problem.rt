//! What is to be separated, and by which vertices.

ghost use Rattle.std.specs.Prelude.{◌≤◌};
ghost use Rattle.mixed_graph.specs.Vocabulary.{has, Within};
ghost use Rattle.minimal_sets.specs.Frames.{IsFrame};
ghost use Rattle.minimal_sets.specs.Rows.{is_near};

use mixed_graph::{Rows, VSet};

/// An undirected graph, two sets of its vertices that are to be separated, and the vertices that a separator may have.
///
/// Row u of `near` holds the vertices that are joined with u; the vertices of separators are below n.
#[derive(Drop)]
pub struct SeparationProblem {
    pub n: u8,
    pub near: Rows,
    pub allowed: VSet,
    pub x: VSet,
    pub y: VSet,
    pub ghost small: { n ≤ 64 },
    pub ghost frame: { IsFrame (is_near near) (has allowed.bits) (has x.bits) (has y.bits) },
    pub ghost within: { Within n (has allowed.bits) },
}
