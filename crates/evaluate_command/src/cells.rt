//! The cells that are printed, and the quantities there.

ghost use Rattle.std.specs.Prelude.{◌≡◌, ◌++◌, ◌∷◌, [], All, true, false, OnOk, IfOk, IfErr};
ghost use Rattle.mixed_graph.specs.Vocabulary.{has, members_below};
ghost use Rattle.count_eval.specs.Vocabulary.{is_used};
ghost use Rattle.count_eval.specs.Rules.{rule};
ghost use Rattle.table_cells.specs.Vocabulary.{cells_along, IsCell};
ghost use Rattle.evaluate_command.specs.Cells.{varied};
ghost use Rattle.evaluate_command.specs.Listed.{plain_in};
ghost use Rattle.evaluate_command.specs.Printing.{Appends, IsFaultAt};
ghost use Rattle.evaluate_command.specs.Stopped.{is_stop_memory};

use crate::answer::Valued;
use count_eval::EvalFault;
use count_eval::tables::Prepared;
use count_table::Counts;
use mixed_graph::VSet;
use quantity::Quantity;
use std::alloc::{AllocError, Global};

/// Appends a cell with its quantity.
pub fn push_valued<Q: Quantity>(
    alloc: Global,
    out: &mut Vec<Valued<Q>>,
    cell: &[u32],
    quantity: Q,
) -> Result<(), AllocError>
    ensures { OnOk result (plain_in Q.numbers out.new.items ≡ plain_in Q.numbers out.old.items ++ (record { cell = cell.now; quantity = Q.numbers quantity } ∷ [])) }
{
    let cell = Vec::from_slice(alloc, cell)?;
    out.push(Valued { cell, quantity })?;
    Ok(())
}

/// Appends the value at a cell.
fn push_cell<Q: Quantity>(
    alloc: Global,
    out: &mut Vec<Valued<Q>>,
    prepared: &Prepared<Q>,
    cell: &[u32],
) -> Result<(), EvalFault>
    requires { IsCell prepared.now.vertices prepared.now.counts cell.now }
    ensures values { OnOk result (Appends (rule Q.kind prepared.now.zero) Q.covers prepared.now (cell.now ∷ []) (plain_in Q.numbers out.old.items) (plain_in Q.numbers out.new.items)) }
    ensures fault { IfErr result (λ f. is_stop_memory f ≡ false → IsFaultAt (rule Q.kind prepared.now.zero) prepared.now (cell.now ∷ []) f) }
{
    let quantity: Q = match prepared.value(cell) {
        Ok(quantity) => quantity,
        Err(fault) => return Err(fault),
    };
    match push_valued(alloc, out, cell, quantity) {
        Ok(()) => Ok(()),
        Err(_) => Err(EvalFault::NoMemory),
    }
}

/// Appends the values at all cells that differ from `cell` at most in these vertices, those of the first vertex slowest.
pub fn push_cells<Q: Quantity>(
    alloc: Global,
    out: &mut Vec<Valued<Q>>,
    counts: &Counts,
    prepared: &Prepared<Q>,
    vertices: &[u8],
    cell: &mut [u32],
) -> Result<(), EvalFault>
    requires counts { prepared.now.counts ≡ counts.now }
    requires vertices { All (λ v. is_used counts.now v ≡ true) vertices.now }
    requires cell { IsCell prepared.now.vertices counts.now cell.old }
    ensures values { OnOk result (Appends (rule Q.kind prepared.now.zero) Q.covers prepared.now (cells_along counts.now cell.old vertices.now) (plain_in Q.numbers out.old.items) (plain_in Q.numbers out.new.items)) }
    ensures cell { OnOk result (cell.new ≡ cell.old) }
    ensures fault { IfErr result (λ f. is_stop_memory f ≡ false → IsFaultAt (rule Q.kind prepared.now.zero) prepared.now (cells_along counts.now cell.old vertices.now) f) }
{
    let [v, rest @ ..] = vertices else {
        return push_cell(alloc, out, prepared, cell);
    };
    let place = *v as usize;
    let before = cell[place];
    for k in 0..counts.levels(*v) {
        cell[place] = k;
        match push_cells(alloc, out, counts, prepared, rest, cell) {
            Ok(()) => {}
            Err(fault) => return Err(fault),
        }
    }
    cell[place] = before;
    Ok(())
}

/// The members of x, then those of what is given, then those of y, each in index order.
pub fn varied(alloc: Global, x: VSet, given: VSet, y: VSet) -> Result<Vec<u8>, AllocError>
    ensures { IfOk result (λ v. v.items ≡ varied x.bits given.bits y.bits) }
{
    let mut vertices = Vec::new(alloc);
    push_members(&mut vertices, x)?;
    push_members(&mut vertices, given)?;
    push_members(&mut vertices, y)?;
    Ok(vertices)
}

/// Appends the members of a set, in index order.
fn push_members(out: &mut Vec<u8>, set: VSet) -> Result<(), AllocError>
    ensures { OnOk result (out.new.items ≡ out.old.items ++ members_below (has set.bits) 64) }
{
    for v in 0..64 {
        if set.has(v) {
            out.push(v)?;
        }
    }
    Ok(())
}
