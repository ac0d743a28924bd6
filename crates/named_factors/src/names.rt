//! Names as vertices.

ghost use Rattle.std.specs.Prelude.{ℕ, ◌≡◌, ◌≤◌};
ghost use Rattle.mixed_graph.specs.Vocabulary.{has, Within};
ghost use Rattle.treated_models.specs.Vocabulary.{name_count, primed_in};
ghost use Rattle.named_factors.specs.Named.{AreSeen, AreVertices};

use mixed_graph::VSet;
use treated_id::prime_of;

/// Whether v is a member of x whose primed name is among these names.
fn is_seen(n: u32, x: VSet, names: VSet, v: u8) -> bool
    requires few { name_count n x.bits ≤ 64 }
    requires within { Within n (has x.bits) }
    ensures { result ≡ primed_in n x.bits (has names.bits) v }
{
    x.has(v) && names.has(prime_of(n, x, v))
}

/// The members of x whose primed names are among these names.
pub fn seen_of(n: u32, x: VSet, names: VSet) -> VSet
    requires few { name_count n x.bits ≤ 64 }
    requires within { Within n (has x.bits) }
    ensures { AreSeen n x.bits (has names.bits) result.bits }
{
    let mut seen = VSet::EMPTY;
    for v in 0..64u8 {
        if is_seen(n, x, names, v) {
            seen = seen.union(VSet::one(v));
        }
    }
    seen
}

/// The vertices of these names: of own names, and of primed ones.
pub fn vertices_of(n: u32, x: VSet, names: VSet) -> VSet
    requires few { name_count n x.bits ≤ 64 }
    requires within { Within n (has x.bits) }
    ensures { AreVertices n x.bits (has names.bits) result.bits }
{
    names
        .intersection(VSet::below(n))
        .union(seen_of(n, x, names))
}
