//! The hidden causes of both models.

ghost use Rattle.std.specs.Prelude.{◌≡◌, ℕ, ◌+◌, ◌<◌, ◌==◌, [], ◌∷◌, IsTrue, IfOk, OnOk, length};
ghost use Rattle.mixed_graph.specs.Vocabulary.{has, Within};
ghost use Rattle.hedge.specs.Vocabulary.{size_of};
ghost use Rattle.finite_models.specs.Vocabulary.{weights_of, children_of};
ghost use Rattle.counter_models.specs.Pairs.{links_of, is_linked, before, HasLowLinks, IsCauseAt, AreCauses};

use finite_models::Cause;
use hedge::Hedge;
use mixed_graph::VSet;
use std::alloc::{AllocError, Global};

/// The number of links.
pub fn count_links(h: &Hedge) -> u32
    ensures { result ≡ links_of h.now }
{
    h.links.count.saturating_sub(1)
}

/// The causes of the links, in found order.
fn link_causes(alloc: Global, h: &Hedge) -> Result<Vec<Cause>, AllocError>
    requires { HasLowLinks h.now }
    ensures count { IfOk result (λ v. length v.items ≡ links_of h.now) }
    ensures links { IfOk result (λ v. (j : ℕ) → j < links_of h.now → IsCauseAt v.items j (1 ∷ 1 ∷ []) (is_linked h.now j)) }
{
    let mut causes = Vec::new(alloc);
    for j in 0..count_links(h) as usize {
        let entry = VSet::one(h.links.found[j + 1]);
        let partner = VSet::one(h.links.partner[j + 1]);
        causes.push(Cause {
            weights: vec![in alloc; 1, 1]?,
            children: entry.union(partner),
        })?;
    }
    Ok(causes)
}

/// Adds a cause of each member of the set, in index order.
fn add_causes(alloc: Global, causes: &mut Vec<Cause>, set: VSet) -> Result<(), AllocError>
    ensures count { OnOk result (length causes.new.items ≡ length causes.old.items + size_of set.bits) }
    ensures old { OnOk result ((j : ℕ) → j < length causes.old.items → (weights_of causes.new.items j ≡ weights_of causes.old.items j) × (children_of causes.new.items j ≡ children_of causes.old.items j)) }
    ensures fresh { OnOk result ((v : ℕ) → IsTrue (has set.bits v) → IsCauseAt causes.new.items (length causes.old.items + before set.bits v) (3 ∷ 1 ∷ []) (λ u. u == v)) }
{
    for v in 0..64u8 {
        if set.has(v) {
            causes.push(Cause {
                weights: vec![in alloc; 3, 1]?,
                children: VSet::one(v),
            })?;
        }
    }
    Ok(())
}

/// The causes of both models: of the links, of the members of small, and of the kept vertices.
pub fn causes(alloc: Global, h: &Hedge, kept: VSet) -> Result<Vec<Cause>, AllocError>
    requires { HasLowLinks h.now }
    ensures { IfOk result (λ v. AreCauses h.now kept.bits v.items) }
{
    let mut causes = link_causes(alloc, h)?;
    add_causes(alloc, &mut causes, h.small)?;
    add_causes(alloc, &mut causes, kept)?;
    Ok(causes)
}
