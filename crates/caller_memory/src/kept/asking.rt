//! Separations, effects and sets to adjust for, asked of a kept diagram.

ghost use Rattle.std.specs.Prelude.{◌≡◌, ◌↔◌, IsTrue};
ghost use Rattle.mixed_graph.specs.Vocabulary.{has, Within, Apart, graph_of};
ghost use Rattle.m_separation.specs.Vocabulary.{IsSeparated, HasOpenWalk};
ghost use Rattle.prob_expr.specs.Vocabulary.{FailsSomewhere, effect_on, EqualsEffect};
ghost use Rattle.adjustment.specs.Vocabulary.{IsAdmissible, adjustment_formula};
ghost use Rattle.identify.specs.Vocabulary.{IsIdentifiable, IsNotIdentifiable};
ghost use Rattle.caller_memory.specs.Kept.{AreAskable, AreEffectSets, graph_in};

use crate::kept::kept::KeptGraph;
use adjustment::adjusts;
use do_rules::are_three_sets;
use identify::is_identifiable;
use m_separation::separated;
use mixed_graph::{Graph, VSet};

/// What is answered of a separation.
#[derive(Clone, Copy, Debug, PartialEq, Eq)]
pub enum Separation {
    /// No walk between the sets is open.
    Separated,
    /// Some walk is.
    Open,
    /// A set isn't within the graph, two have a common member, or x or y has none.
    Refused,
}

/// What is answered of an effect.
#[derive(Clone, Copy, Debug, PartialEq, Eq)]
pub enum Identification {
    /// It has a formula without interventions.
    Identifiable,
    /// It has none: two models agree on all observations, and differ on it.
    NotIdentifiable,
    /// A set isn't within the graph, the two have a common member, or y has none.
    Refused,
}

/// What is answered of a set to adjust for.
#[derive(Clone, Copy, Debug, PartialEq, Eq)]
pub enum Adjustment {
    /// It is admissible: its formula is the effect in every positive model.
    Admissible,
    /// It isn't: its formula isn't the effect in some positive model.
    NotAdmissible,
    /// A set isn't within the graph, two have a common member, or x or y has none.
    Refused,
}

impl KeptGraph {
    /// The graph that is kept.
    pub fn graph(&self) -> Graph
        ensures same { graph_of result ≡ graph_in self.now }
        ensures vertices { result.n ≡ self.now.vertices }
    {
        let (parents, children, spouses) = (self.parents, self.children, self.spouses);
        Graph {
            n: self.vertices,
            parents,
            children,
            spouses,
        }
    }

    /// Whether x and y are separated given a set (Pearl, Causality, section 1.2.3; Richardson, 2003).
    pub fn separation(&self, x: VSet, y: VSet, given: VSet) -> Separation
        ensures apart { result ≡ Separation.Separated → IsSeparated (graph_in self.now) (has x.bits) (has y.bits) (has given.bits) }
        ensures open { result ≡ Separation.Open → HasOpenWalk (graph_in self.now) (has x.bits) (has y.bits) (has given.bits) }
        ensures askable { (result ≡ Separation.Refused → ⊥) → AreAskable self.now.vertices x.bits y.bits given.bits }
        ensures refused { result ≡ Separation.Refused → AreAskable self.now.vertices x.bits y.bits given.bits → ⊥ }
    {
        let graph = self.graph();
        if !are_three_sets(&graph, x, y, given) || x.is_empty() || y.is_empty() {
            return Separation::Refused;
        }
        if separated(&graph, x, y, given) {
            Separation::Separated
        } else {
            Separation::Open
        }
    }

    /// Whether the effect of x on y has a formula without interventions (Shpitser and Pearl 2006).
    pub fn identification(&self, x: VSet, y: VSet) -> Identification
        ensures yes { result ≡ Identification.Identifiable → IsIdentifiable (graph_in self.now) x.bits y.bits }
        ensures no { result ≡ Identification.NotIdentifiable → IsNotIdentifiable (graph_in self.now) x.bits y.bits }
        ensures askable { (result ≡ Identification.Refused → ⊥) → AreEffectSets self.now.vertices x.bits y.bits }
        ensures refused { result ≡ Identification.Refused → AreEffectSets self.now.vertices x.bits y.bits → ⊥ }
    {
        let graph = self.graph();
        if !are_two_sets(&graph, x, y) || y.is_empty() {
            return Identification::Refused;
        }
        if is_identifiable(&graph, x, y) {
            Identification::Identifiable
        } else {
            Identification::NotIdentifiable
        }
    }

    /// Whether a set is admissible for the effect of x on y (Shpitser, VanderWeele and Robins, 2010).
    pub fn adjustment(&self, x: VSet, y: VSet, set: VSet) -> Adjustment
        ensures yes { result ≡ Adjustment.Admissible → IsAdmissible (graph_in self.now) (has x.bits) (has y.bits) (has set.bits) }
        ensures effect { result ≡ Adjustment.Admissible → EqualsEffect (graph_in self.now) (effect_on x.bits y.bits) (adjustment_formula x.bits y.bits set.bits) }
        ensures no { result ≡ Adjustment.NotAdmissible → FailsSomewhere (graph_in self.now) (effect_on x.bits y.bits) (adjustment_formula x.bits y.bits set.bits) }
        ensures askable { (result ≡ Adjustment.Refused → ⊥) → AreAskable self.now.vertices x.bits y.bits set.bits }
        ensures refused { result ≡ Adjustment.Refused → AreAskable self.now.vertices x.bits y.bits set.bits → ⊥ }
    {
        let graph = self.graph();
        if !are_three_sets(&graph, x, y, set) || x.is_empty() || y.is_empty() {
            return Adjustment::Refused;
        }
        match adjusts(&graph, x, y, set) {
            Ok(()) => Adjustment::Admissible,
            Err(_) => Adjustment::NotAdmissible,
        }
    }
}

/// Whether the sets are within the graph, without a common member.
fn are_two_sets(g: &Graph, x: VSet, y: VSet) -> bool
    ensures { IsTrue result ↔ Within g.now.n (has x.bits) × Within g.now.n (has y.bits) × Apart (has x.bits) (has y.bits) }
{
    g.covers(x) && g.covers(y) && are_apart(x, y)
}

/// Whether no vertex is in both sets.
fn are_apart(s: VSet, t: VSet) -> bool
    ensures { IsTrue result ↔ Apart (has s.bits) (has t.bits) }
{
    s.intersection(t).is_empty()
}
