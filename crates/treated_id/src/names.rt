//! Names and primed names as sets.

ghost use Rattle.std.specs.Prelude.{◌≡◌, ◌≤◌, ◌↔◌, ℕ, IsTrue};
ghost use Rattle.mixed_graph.specs.Vocabulary.{has, Within};
ghost use Rattle.treated_models.specs.Vocabulary.{name_count, prime_of};
ghost use Rattle.treated_id.specs.Terms.{AreNames};

use mixed_graph::VSet;

/// The primed name of the member v of x: names below n are the vertices' own, and primed names follow in ascending order.
pub fn prime_of(n: u32, x: VSet, v: u8) -> u8
    requires few { name_count n x.bits ≤ 64 }
    requires within { Within n (has x.bits) }
    requires member { IsTrue (has x.bits v) }
    ensures { result ≡ prime_of n x.bits v }
{
    let before = x.intersection(VSet::below(v as u32));
    (n + before.count()) as u8
}

/// The primed names of some members of x.
fn primes_of(n: u32, x: VSet, set: VSet) -> VSet
    requires few { name_count n x.bits ≤ 64 }
    requires within { Within n (has x.bits) }
    requires inside { (v : ℕ) → IsTrue (has set.bits v) → IsTrue (has x.bits v) }
    ensures { (k : ℕ) → IsTrue (has result.bits k) ↔ ((u : ℕ) × IsTrue (has set.bits u) × (k ≡ prime_of n x.bits u)) }
{
    let mut all = VSet::empty();
    'each: for v in set.iter() {
        all = all.union(VSet::one(prime_of(n, x, v)));
    }
    all
}

/// The names of the members of a set, those of x in `seen` by their primed names.
pub fn names_of(n: u32, x: VSet, seen: VSet, set: VSet) -> VSet
    requires few { name_count n x.bits ≤ 64 }
    requires within { Within n (has x.bits) }
    ensures { AreNames n x.bits seen.bits set.bits result.bits }
{
    let observed = set.intersection(x).intersection(seen);
    set.difference(observed).union(primes_of(n, x, observed))
}
