//! Independence and the three rules (Pearl 1995).

ghost use Rattle.std.specs.Prelude.{ℕ, ◌≡◌, ◌<◌, ◌≤◌, ◌↔◌, IfErr, OnOk, IsTrue};
ghost use Rattle.mixed_graph.specs.Vocabulary.{has, Within, Apart, graph_of};
ghost use Rattle.m_separation.specs.Vocabulary.{IsSeparated, IsOpenPath};
ghost use Rattle.do_rules.specs.Rules.{AreThreeSets, AreFourSets, AreIndependent, AreDependent, DifferSomewhere, left_of, right_of, IsBlockedFor, IsRuleFor, IsOpenFor};

use crate::cuts::{cut_into, cut_out};
use m_separation::{OpenPath, open_path};
use mixed_graph::{Graph, VSet};

/// Whether no vertex is in both sets.
fn apart(s: VSet, t: VSet) -> bool
    ensures { IsTrue result ↔ Apart (has s.bits) (has t.bits) }
{
    s.intersection(t).is_empty()
}

/// Whether the sets are within the graph and pairwise disjoint.
pub fn are_three_sets(g: &Graph, x: VSet, y: VSet, w: VSet) -> bool
    ensures { IsTrue result ↔ AreThreeSets g.now.n (has x.bits) (has y.bits) (has w.bits) }
{
    g.covers(x) && g.covers(y) && g.covers(w) && apart(x, y) && apart(x, w) && apart(y, w)
}

/// Whether the sets are within the graph and pairwise disjoint.
pub fn are_four_sets(g: &Graph, x: VSet, y: VSet, z: VSet, w: VSet) -> bool
    ensures { IsTrue result ↔ AreFourSets g.now.n (has x.bits) (has y.bits) (has z.bits) (has w.bits) }
{
    are_three_sets(g, x, y, w) && g.covers(z) && apart(x, z) && apart(y, z) && apart(z, w)
}

/// Whether x and y are separated by w; else an open path from x to y.
fn blocked(g: &Graph, x: VSet, y: VSet, w: VSet) -> Result<(), OpenPath>
    requires x { Within g.now.n (has x.bits) }
    requires w { Within g.now.n (has w.bits) }
    ensures apart { OnOk result (IsSeparated (graph_of g.now) (has x.bits) (has y.bits) (has w.bits)) }
    ensures open { IfErr result (λ p. IsOpenPath (graph_of g.now) (has x.bits) (has y.bits) (has w.bits) p.vertices p.marks p.count) }
{
    match open_path(g, x, y, w) {
        None => Ok(()),
        Some(path) => Err(path),
    }
}

/// Whether x and y are separated by w; else an open path from x to y.
///
/// Separated sets are independent given w in each model that fits the graph, positive or not; others are dependent in some positive one.
pub fn independence(g: &Graph, x: VSet, y: VSet, w: VSet) -> Result<(), OpenPath>
    requires { AreThreeSets g.now.n (has x.bits) (has y.bits) (has w.bits) }
    ensures apart { OnOk result (IsSeparated (graph_of g.now) (has x.bits) (has y.bits) (has w.bits)) }
    ensures holds { OnOk result (AreIndependent (graph_of g.now) (has x.bits) (has y.bits) (has w.bits)) }
    ensures open { IfErr result (λ p. IsOpenPath (graph_of g.now) (has x.bits) (has y.bits) (has w.bits) p.vertices p.marks p.count) }
    ensures dependent { IfErr result (λ p. AreDependent (graph_of g.now) (has x.bits) (has y.bits) (has w.bits)) }
{
    blocked(g, x, y, w)
}

/// A rule of the do-calculus.
#[derive(Clone, Copy, Debug, PartialEq, Eq)]
pub enum Rule {
    /// Observations may be inserted or deleted: P(y | do(x), z, w) = P(y | do(x), w).
    One,
    /// Actions and observations may be exchanged: P(y | do(x), do(z), w) = P(y | do(x), z, w).
    Two,
    /// Actions may be inserted or deleted: P(y | do(x), do(z), w) = P(y | do(x), w).
    Three,
}

impl Rule {
    ghost use Rattle.do_rules.specs.Rules.{number_of, IsRuleGraph};

    /// The rule of a number.
    pub fn of(number: u64) -> Self
        requires least { 1 ≤ number }
        requires most { number ≤ 3 }
        ensures { number_of result ≡ number }
    {
        match number {
            1 => Rule::One,
            2 => Rule::Two,
            _ => Rule::Three,
        }
    }

    /// The rule's number.
    pub fn number(self) -> u8
        ensures { result ≡ number_of self }
    {
        match self {
            Rule::One => 1,
            Rule::Two => 2,
            Rule::Three => 3,
        }
    }

    /// The graph in which the rule asks that y and z are separated.
    pub fn graph(self, g: &Graph, x: VSet, z: VSet, w: VSet) -> Graph
        requires x { Within g.now.n (has x.bits) }
        requires z { Within g.now.n (has z.bits) }
        requires w { Within g.now.n (has w.bits) }
        ensures cut { IsRuleGraph self (graph_of g.now) (has x.bits) (has z.bits) (has w.bits) (graph_of result) }
        ensures size { result.n ≡ g.now.n }
    {
        let cut = cut_into(g, x);
        match self {
            Rule::One => cut,
            Rule::Two => cut_out(&cut, z),
            Rule::Three => {
                let far = z.difference(cut.ancestors(w));
                cut_into(&cut, far)
            }
        }
    }

    /// Whether what the rule asks of x, y, z and w is so; then its equation holds.
    ///
    /// Else a path from y to z that is open in its graph, and the equation fails in some positive model that fits.
    pub fn applies(self, g: &Graph, x: VSet, y: VSet, z: VSet, w: VSet) -> Result<(), OpenPath>
        requires sets { AreFourSets g.now.n (has x.bits) (has y.bits) (has z.bits) (has w.bits) }
        requires some { 0 < y.bits }
        ensures apart { OnOk result (IsBlockedFor self (graph_of g.now) (has x.bits) (has y.bits) (has z.bits) (has w.bits)) }
        ensures holds { OnOk result (IsRuleFor self (graph_of g.now) (has x.bits) (has y.bits) (has z.bits) (has w.bits)) }
        ensures open { IfErr result (IsOpenFor self (graph_of g.now) (has x.bits) (has y.bits) (has z.bits) (has w.bits)) }
        ensures fails { IfErr result (λ p. DifferSomewhere (graph_of g.now) (left_of self (has x.bits) (has y.bits) (has z.bits) (has w.bits)) (right_of self (has x.bits) (has y.bits) (has z.bits) (has w.bits))) }
    {
        blocked(&self.graph(g, x, z, w), y, z, x.union(w))
    }
}

/// Whether rule 1 lets z go from P(y | do(x), z, w); else an open path from y to z in its graph.
pub fn rule1(g: &Graph, x: VSet, y: VSet, z: VSet, w: VSet) -> Result<(), OpenPath>
    requires sets { AreFourSets g.now.n (has x.bits) (has y.bits) (has z.bits) (has w.bits) }
    requires some { 0 < y.bits }
    ensures apart { OnOk result (IsBlockedFor Rule.One (graph_of g.now) (has x.bits) (has y.bits) (has z.bits) (has w.bits)) }
    ensures holds { OnOk result (IsRuleFor Rule.One (graph_of g.now) (has x.bits) (has y.bits) (has z.bits) (has w.bits)) }
    ensures open { IfErr result (IsOpenFor Rule.One (graph_of g.now) (has x.bits) (has y.bits) (has z.bits) (has w.bits)) }
    ensures fails { IfErr result (λ p. DifferSomewhere (graph_of g.now) (left_of Rule.One (has x.bits) (has y.bits) (has z.bits) (has w.bits)) (right_of Rule.One (has x.bits) (has y.bits) (has z.bits) (has w.bits))) }
{
    Rule::One.applies(g, x, y, z, w)
}

/// Whether rule 2 turns do(z) in P(y | do(x), do(z), w) into z; else an open path from y to z in its graph.
pub fn rule2(g: &Graph, x: VSet, y: VSet, z: VSet, w: VSet) -> Result<(), OpenPath>
    requires sets { AreFourSets g.now.n (has x.bits) (has y.bits) (has z.bits) (has w.bits) }
    requires some { 0 < y.bits }
    ensures apart { OnOk result (IsBlockedFor Rule.Two (graph_of g.now) (has x.bits) (has y.bits) (has z.bits) (has w.bits)) }
    ensures holds { OnOk result (IsRuleFor Rule.Two (graph_of g.now) (has x.bits) (has y.bits) (has z.bits) (has w.bits)) }
    ensures open { IfErr result (IsOpenFor Rule.Two (graph_of g.now) (has x.bits) (has y.bits) (has z.bits) (has w.bits)) }
    ensures fails { IfErr result (λ p. DifferSomewhere (graph_of g.now) (left_of Rule.Two (has x.bits) (has y.bits) (has z.bits) (has w.bits)) (right_of Rule.Two (has x.bits) (has y.bits) (has z.bits) (has w.bits))) }
{
    Rule::Two.applies(g, x, y, z, w)
}

/// Whether rule 3 lets do(z) go from P(y | do(x), do(z), w); else an open path from y to z in its graph.
pub fn rule3(g: &Graph, x: VSet, y: VSet, z: VSet, w: VSet) -> Result<(), OpenPath>
    requires sets { AreFourSets g.now.n (has x.bits) (has y.bits) (has z.bits) (has w.bits) }
    requires some { 0 < y.bits }
    ensures apart { OnOk result (IsBlockedFor Rule.Three (graph_of g.now) (has x.bits) (has y.bits) (has z.bits) (has w.bits)) }
    ensures holds { OnOk result (IsRuleFor Rule.Three (graph_of g.now) (has x.bits) (has y.bits) (has z.bits) (has w.bits)) }
    ensures open { IfErr result (IsOpenFor Rule.Three (graph_of g.now) (has x.bits) (has y.bits) (has z.bits) (has w.bits)) }
    ensures fails { IfErr result (λ p. DifferSomewhere (graph_of g.now) (left_of Rule.Three (has x.bits) (has y.bits) (has z.bits) (has w.bits)) (right_of Rule.Three (has x.bits) (has y.bits) (has z.bits) (has w.bits))) }
{
    Rule::Three.applies(g, x, y, z, w)
}
