//! A graph in the making.

ghost use Rattle.std.specs.Prelude.{◌≡◌, ℕ, ◌-◌, ◌<◌, ◌&&◌, ◌||◌, ◌==◌, false, nat_lt, slice_index};
ghost use Rattle.mixed_graph.specs.Vocabulary.{has, graph_of};
ghost use Rattle.survey_command.specs.Draws.{next_state, state_after, draw_of};
ghost use Rattle.survey_command.specs.Drawn.{drawn_graph};
ghost use Rattle.survey_command.specs.Rows.{is_in_row};

use crate::random_graph::draws::{draw, step};
use crate::random_graph::edges::Edges;
use mixed_graph::Graph;

/// The number of vertices of a survey graph.
const VERTICES: u8 = 40;

/// A graph in the making.
#[derive(Clone, Copy)]
struct Survey {
    state: u64,
    directed: Edges,
    both: Edges,
}

impl Survey {
    /// The state of the generator is the seed, and no edge is there.
    fn of(seed: u64) -> Survey
        ensures state { result.state ≡ seed }
        ensures directed { (u v : ℕ) → has (slice_index result.directed.heads u) v ≡ false }
        ensures both { (u v : ℕ) → has (slice_index result.both.heads u) v ≡ false }
    {
        Survey {
            state: seed,
            directed: Edges::none(),
            both: Edges::none(),
        }
    }

    /// Draws for one pair: 0, 1, 2 give i -> j, 3 gives i <-> j, other numbers nothing.
    fn draw_pair(self, i: u8, j: u8) -> Survey
        requires first { i < 64 }
        requires second { j < 64 }
        ensures state { result.state ≡ next_state self.state }
        ensures directed { (u v : ℕ) → has (slice_index result.directed.heads u) v
            ≡ (has (slice_index self.directed.heads u) v || ((u == i && v == j) && nat_lt (draw_of (next_state self.state)) 3)) }
        ensures both { (u v : ℕ) → has (slice_index result.both.heads u) v
            ≡ (has (slice_index self.both.heads u) v || (((u == i && v == j) || (v == i && u == j)) && draw_of (next_state self.state) == 3)) }
    {
        let state = step(self.state);
        match draw(state) {
            0..=2 => Survey {
                state,
                directed: self.directed.with(i, j),
                both: self.both,
            },
            3 => Survey {
                state,
                directed: self.directed,
                both: self.both.with(i, j).with(j, i),
            },
            _ => Survey {
                state,
                directed: self.directed,
                both: self.both,
            },
        }
    }

    /// Draws for each pair of i and a later vertex.
    fn draw_row(self, i: u8) -> Survey
        requires { i < 40 }
        ensures state { result.state ≡ state_after self.state (39 - i) }
        ensures directed { (u v : ℕ) → has (slice_index result.directed.heads u) v
            ≡ (has (slice_index self.directed.heads u) v || is_in_row self.state (λ r. nat_lt r 3) i 40 u v) }
        ensures both { (u v : ℕ) → has (slice_index result.both.heads u) v
            ≡ (has (slice_index self.both.heads u) v || (is_in_row self.state (λ r. r == 3) i 40 u v || is_in_row self.state (λ r. r == 3) i 40 v u)) }
    {
        let mut survey = self;
        for j in i + 1..VERTICES {
            survey = survey.draw_pair(i, j);
        }
        survey
    }
}

/// The survey graph of a seed: 40 vertices, one draw of a linear congruential generator for each pair, in ascending order.
pub fn survey_graph(seed: u64) -> Graph
    ensures { graph_of result ≡ drawn_graph seed }
{
    let mut survey = Survey::of(seed);
    for i in 0..VERTICES {
        survey = survey.draw_row(i);
    }
    let Edges {
        heads: children,
        tails: parents,
        ..
    } = survey.directed;
    let spouses = survey.both.heads;
    Graph {
        n: VERTICES as u32,
        parents,
        children,
        spouses,
    }
}
