//! Edges that are drawn.

ghost use Rattle.std.specs.Prelude.{◌≡◌, ℕ, ◌<◌, ◌&&◌, ◌||◌, ◌==◌, false, slice_index};
ghost use Rattle.mixed_graph.specs.Vocabulary.{has, Agree};

use mixed_graph::Rows;

/// Pairs of vertices: row a of `heads` holds the vertices b, and row b of `tails` the vertices a, of the pairs (a, b).
#[derive(Clone, Copy)]
pub struct Edges {
    pub heads: Rows,
    pub tails: Rows,
    pub ghost agree: { Agree tails heads },
}

impl Edges {
    /// No pair.
    pub fn none() -> Edges
        ensures { (u v : ℕ) → has (slice_index result.heads u) v ≡ false }
    {
        Edges {
            heads: [0; 64],
            tails: [0; 64],
        }
    }

    /// One pair more.
    pub fn with(self, a: u8, b: u8) -> Edges
        requires first { a < 64 }
        requires second { b < 64 }
        ensures { (u v : ℕ) → has (slice_index result.heads u) v ≡ (has (slice_index self.heads u) v || (u == a && v == b)) }
    {
        let mut heads = self.heads;
        let mut tails = self.tails;
        heads[a as usize] |= 1 << b;
        tails[b as usize] |= 1 << a;
        Edges { heads, tails }
    }
}
