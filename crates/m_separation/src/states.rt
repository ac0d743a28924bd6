//! The states of a walk: a vertex, and how the walk came to it.

ghost use Rattle.std.specs.Prelude.{◌≡◌, ℕ, ◌<◌, ◌&&◌, ◌||◌, ◌↔◌, not, false, IsTrue, Bool, IfSome, IfNone};
ghost use Rattle.mixed_graph.specs.Vocabulary.{has};
ghost use Rattle.m_separation.specs.States.{mask_of, lets_pass};

use mixed_graph::VSet;

/// A vertex that a walk has come to, and whether it came with an arrowhead there.
#[derive(Clone, Copy)]
pub struct State {
    pub vertex: u8,
    pub head: bool,
}

/// The vertices that walks come to without an arrowhead there, and with one.
#[derive(Clone, Copy)]
pub struct States {
    pub tails: VSet,
    pub heads: VSet,
}

impl States {
    /// Whether there is none.
    pub fn is_empty(self) -> bool
        ensures { IsTrue result ↔ ((self.tails.bits ≡ 0) × (self.heads.bits ≡ 0)) }
    {
        self.tails.is_empty() && self.heads.is_empty()
    }

    /// The vertices of all.
    pub fn vertices(self) -> VSet
        ensures { (v : ℕ) → has result.bits v ≡ (has self.tails.bits v || has self.heads.bits v) }
    {
        self.tails.union(self.heads)
    }

    /// Those of either.
    pub fn union(self, o: States) -> States
        ensures { (h : Bool) (v : ℕ) → has (mask_of result h) v ≡ (has (mask_of self h) v || has (mask_of o h) v) }
    {
        States {
            tails: self.tails.union(o.tails),
            heads: self.heads.union(o.heads),
        }
    }

    /// Those that the other doesn't have.
    pub fn difference(self, o: States) -> States
        ensures { (h : Bool) (v : ℕ) → has (mask_of result h) v ≡ (has (mask_of self h) v && not (has (mask_of o h) v)) }
    {
        States {
            tails: self.tails.difference(o.tails),
            heads: self.heads.difference(o.heads),
        }
    }

    /// Those that let a walk pass which leaves by an edge with an arrowhead at the vertex, or without one.
    pub fn passing(self, w: VSet, above: VSet, leaving: bool) -> States
        ensures { (h : Bool) (v : ℕ) → has (mask_of result h) v ≡ (has (mask_of self h) v && lets_pass (has w.bits) (has above.bits) v h leaving) }
    {
        States {
            tails: self.tails.difference(w),
            heads: if leaving {
                self.heads.intersection(above)
            } else {
                self.heads.difference(w)
            },
        }
    }

    /// One of those whose vertex is in the set.
    pub fn first_in(self, set: VSet) -> Option<State>
        ensures in_range { IfSome result (λ s. s.vertex < 64) }
        ensures member { IfSome result (λ s. IsTrue (has (mask_of self s.head) s.vertex)) }
        ensures inside { IfSome result (λ s. IsTrue (has set.bits s.vertex)) }
        ensures none { IfNone result ((h : Bool) (v : ℕ) → IsTrue (has (mask_of self h) v) → has set.bits v ≡ false) }
    {
        let tails = self.tails.intersection(set);
        if !tails.is_empty() {
            return Some(State {
                vertex: tails.lowest(),
                head: false,
            });
        }
        let heads = self.heads.intersection(set);
        if !heads.is_empty() {
            return Some(State {
                vertex: heads.lowest(),
                head: true,
            });
        }
        None
    }
}
