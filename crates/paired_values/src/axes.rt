//! The names at which levels vary.

ghost use Rattle.std.specs.Prelude.{◌≡◌, ◌≤◌, ◌++◌, IfOk, OnOk};
ghost use Rattle.mixed_graph.specs.Vocabulary.{has, Within};
ghost use Rattle.treated_models.specs.Vocabulary.{name_count};
ghost use Rattle.paired_values.specs.Cells.{own_axes, observed_axes, varied};

use mixed_graph::VSet;
use std::alloc::{AllocError, Global};
use targets::Sets;
use treated_id::prime_of;

/// A vertex, and the name at which a cell has a level of it: the vertex's own, or its primed name.
#[derive(Clone, Copy, Debug)]
pub struct Axis {
    pub vertex: u8,
    pub name: u8,
}

/// Appends each member of a set at its own name, in index order.
fn push_own(out: &mut Vec<Axis>, set: VSet) -> Result<(), AllocError>
    ensures { OnOk result (out.new.items ≡ out.old.items ++ own_axes set.bits) }
{
    for v in 0..64 {
        if set.has(v) {
            out.push(Axis { vertex: v, name: v })?;
        }
    }
    Ok(())
}

/// Appends each member of x at its primed name, in index order.
fn push_observed(out: &mut Vec<Axis>, n: u32, x: VSet) -> Result<(), AllocError>
    requires few { name_count n x.bits ≤ 64 }
    requires within { Within n (has x.bits) }
    ensures { OnOk result (out.new.items ≡ out.old.items ++ observed_axes n x.bits) }
{
    for v in 0..64 {
        if x.has(v) {
            let name = prime_of(n, x, v);
            out.push(Axis { vertex: v, name })?;
        }
    }
    Ok(())
}

/// Each member of x at its primed name, in index order.
pub fn observed_axes(alloc: Global, n: u32, x: VSet) -> Result<Vec<Axis>, AllocError>
    requires few { name_count n x.bits ≤ 64 }
    requires within { Within n (has x.bits) }
    ensures { IfOk result (λ v. v.items ≡ observed_axes n x.bits) }
{
    let mut axes = Vec::new(alloc);
    push_observed(&mut axes, n, x)?;
    Ok(axes)
}

/// x at its own names, then x at its primed names, what is given, and y, each in index order.
pub fn varied(alloc: Global, n: u32, sets: Sets) -> Result<Vec<Axis>, AllocError>
    requires few { name_count n sets.x.bits ≤ 64 }
    requires within { Within n (has sets.x.bits) }
    ensures { IfOk result (λ v. v.items ≡ varied n sets.x.bits sets.given.bits sets.y.bits) }
{
    let mut axes = Vec::new(alloc);
    push_own(&mut axes, sets.x)?;
    push_observed(&mut axes, n, sets.x)?;
    push_own(&mut axes, sets.given)?;
    push_own(&mut axes, sets.y)?;
    Ok(axes)
}
