//! Acyclic mixed graphs.

ghost use Rattle.std.specs.Prelude.{◌≡◌, ℕ, ◌<◌, ◌≤◌, ◌↔◌, IsTrue, List, All, IfOk, IfErr, OnOk, None, ◌&&◌, slice_index};
ghost use Rattle.mixed_graph.specs.Bits.{has};
ghost use Rattle.mixed_graph.specs.Sets.{Within};
ghost use Rattle.mixed_graph.specs.Arrows.{graph_of_rows};
ghost use Rattle.mixed_graph.specs.Graphs.{IsMixedGraph, graph_from, Agree, IsAncestor, IsDescendant, restricted, induced};

use crate::cycles::{childless, cycle_of, stuck, walk_back};
use crate::lists::{Cycle, Order};
use crate::pairs::{heads, loop_among, neighbours, tails};
use crate::rows::{Rows, joined, reached};
use crate::sets::VSet;

/// An acyclic mixed graph on the vertices below `n`, at most 64.
///
/// Row v of `parents`, `children` and `spouses` holds the vertices u with u -> v, v -> u and v <-> u.
#[derive(Drop)]
pub struct Graph {
    pub n: u32,
    pub parents: [u64; 64],
    pub children: [u64; 64],
    pub spouses: [u64; 64],
    pub ghost small: { n ≤ 64 },
    pub ghost agree: { Agree parents children },
    pub ghost valid: { IsMixedGraph (graph_from n children spouses) },
}

/// What keeps pairs of vertices from being a graph.
#[derive(Drop)]
pub enum BuildFault {
    /// A pair has equal ends: the vertex of the first such pair, directed pairs first.
    SelfLoop(u8),
    /// No pair has equal ends, and the directed pairs have this cycle.
    Cycle(Cycle),
}

impl Graph {
    ghost use Rattle.mixed_graph.specs.Pairs.{first_loop};
    ghost use Rattle.mixed_graph.specs.Orders.{IsOrder};
    ghost use Rattle.mixed_graph.specs.Built.{IsGraphOf, IsBuildFault};
    ghost use Rattle.mixed_graph.specs.Shown.{graph_of};

    /// The vertices u with u -> v.
    pub fn parents(&self, v: u8) -> VSet
        requires { v < 64 }
        ensures members { (u : ℕ) → has result.bits u ≡ (graph_of self.now).arrow u v }
        ensures mask { result.bits ≡ slice_index self.now.parents v }
    {
        VSet::row(&self.parents, v)
    }

    /// The vertices u with v -> u.
    pub fn children(&self, v: u8) -> VSet
        requires { v < 64 }
        ensures members { (u : ℕ) → has result.bits u ≡ (graph_of self.now).arrow v u }
        ensures mask { result.bits ≡ slice_index self.now.children v }
    {
        VSet::row(&self.children, v)
    }

    /// The vertices u with v <-> u.
    pub fn spouses(&self, v: u8) -> VSet
        requires { v < 64 }
        ensures members { (u : ℕ) → has result.bits u ≡ (graph_of self.now).both v u }
        ensures mask { result.bits ≡ slice_index self.now.spouses v }
    {
        VSet::row(&self.spouses, v)
    }

    /// Whether every member is a vertex of the graph.
    pub fn covers(&self, s: VSet) -> bool
        ensures { IsTrue result ↔ Within self.now.n (has s.bits) }
    {
        s.difference(VSet::below(self.n)).is_empty()
    }

    /// The vertices with a directed path to a member of s; the members of s are among them.
    pub fn ancestors(&self, s: VSet) -> VSet
        requires { Within self.now.n (has s.bits) }
        ensures { (v : ℕ) → IsTrue (has result.bits v) ↔ IsAncestor (graph_of self.now) (has s.bits) v }
    {
        closure(self.n, &self.parents, s)
    }

    /// The vertices with a directed path from a member of s; the members of s are among them.
    pub fn descendants(&self, s: VSet) -> VSet
        requires { Within self.now.n (has s.bits) }
        ensures { (v : ℕ) → IsTrue (has result.bits v) ↔ IsDescendant (graph_of self.now) (has s.bits) v }
    {
        closure(self.n, &self.children, s)
    }

    /// The vertices with a child in s.
    pub fn parents_of(&self, s: VSet) -> VSet
        ensures { (u : ℕ) → IsTrue (has result.bits u) ↔ ((c : ℕ) × IsTrue (has s.bits c) × IsTrue ((graph_of self.now).arrow u c)) }
    {
        joined(&self.parents, s)
    }

    /// The topological order that takes, each time, the vertex of lowest index whose parents are all taken.
    pub fn order(&self) -> Order
        ensures { IsOrder (graph_of self.now) result.list result.count }
    {
        let mut list = [0u8; 64];
        let mut count = 0usize;
        let mut rest = VSet::below(self.n);
        'next: while let Some(v) = childless(&self.parents, rest) {
            list[count] = v;
            count += 1;
            rest = rest.difference(VSet::one(v));
        }
        Order {
            list,
            count: count as u32,
        }
    }

    /// The graph on the vertices below n with these directed and bidirected edges.
    ///
    /// `SelfLoop` where a pair has equal ends; else `Cycle` where the directed pairs have a cycle.
    pub fn build(n: u32, directed: &[(u8, u8)], both: &[(u8, u8)]) -> Result<Graph, BuildFault>
        requires size { n ≤ 64 }
        requires directed_ends { All (λ p. (p.0 < n) × (p.1 < n)) directed.now }
        requires both_ends { All (λ p. (p.0 < n) × (p.1 < n)) both.now }
        ensures graph { IfOk result (λ g. IsGraphOf n directed.now both.now (graph_of g)) }
        ensures no_loop { OnOk result (first_loop directed.now both.now ≡ None) }
        ensures fault { IfErr result (λ f. IsBuildFault directed.now both.now f) }
    {
        if let Some(v) = loop_among(directed) {
            return Err(BuildFault::SelfLoop(v));
        }
        if let Some(v) = loop_among(both) {
            return Err(BuildFault::SelfLoop(v));
        }
        let children = heads(directed);
        let rest = stuck(n, &children);
        if !rest.is_empty() {
            return Err(BuildFault::Cycle(cycle_of(&children, walk_back(&children, rest))));
        }
        Ok(Graph {
            n,
            parents: tails(directed),
            children,
            spouses: neighbours(both),
        })
    }

    /// The graph with the edges inside s alone; the number of vertices stays.
    pub fn induced(&self, s: VSet) -> Graph
        ensures { graph_of result ≡ induced (graph_of self.now) (has s.bits) }
    {
        self.restrict(s, s, s)
    }

    /// The graph with the arrows from `tails` to `heads` alone, and the bidirected edges inside `ends` alone.
    pub fn restrict(&self, tails: VSet, heads: VSet, ends: VSet) -> Graph
        ensures { graph_of result ≡ restricted (graph_of self.now) (has tails.bits) (has heads.bits) (has ends.bits) }
    {
        Graph {
            n: self.n,
            parents: kept(&self.parents, heads, tails),
            children: kept(&self.children, tails, heads),
            spouses: kept(&self.spouses, ends, ends),
        }
    }
}

/// The vertices from which a member of s is reached, where row v holds the vertices one step before v.
fn closure(n: u32, rows: &Rows, s: VSet) -> VSet
    requires size { n ≤ 64 }
    requires set { Within n (has s.bits) }
    requires rows { (u v : ℕ) → IsTrue (has (slice_index rows.now v) u) → u < n }
    ensures { (v : ℕ) → IsTrue (has result.bits v) ↔ IsAncestor (graph_of_rows n rows.now) (has s.bits) v }
{
    reached(rows, s, VSet::below(n))
}

/// The bits inside `within` of the rows in `of`.
fn kept(rows: &Rows, of: VSet, within: VSet) -> Rows
    ensures { (a b : ℕ) → has (slice_index result a) b ≡ (has (slice_index rows.now a) b && (has of.bits a && has within.bits b)) }
{
    let mut out = [0u64; 64];
    for v in 0..64u8 {
        out[v as usize] = VSet::row(rows, v)
            .intersection(within)
            .only_if(of.has(v))
            .bits;
    }
    out
}
