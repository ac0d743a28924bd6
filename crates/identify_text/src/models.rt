//! The texts of causes, weights and sizes.

ghost use Rattle.std.specs.Prelude.{◌≡◌, ◌++◌, codes, decimal, OnOk};
ghost use Rattle.answer_text.specs.Vocabulary.{set_text};
ghost use Rattle.identify_text.specs.ModelLines.{weights_text, cause_line, cause_lines, vertex_lines};

use crate::parts::push_mechanism;
use answer_text::push_set;
use finite_models::{Cause, Mechanism};
use mixed_graph::Names;
use std::alloc::{AllocError, Global};

/// Appends a weight behind a space.
fn push_weight(alloc: Global, out: &mut Vec<u8>, weight: u32) -> Result<(), AllocError>
    ensures { OnOk result (out.new.items ≡ out.old.items ++ (codes " " ++ decimal weight)) }
{
    let text = format!(in alloc; " {weight}")?;
    out.extend_from_slice(text.as_bytes())?;
    Ok(())
}

/// Appends each weight behind a space.
fn push_weights(alloc: Global, out: &mut Vec<u8>, weights: &[u32]) -> Result<(), AllocError>
    ensures { OnOk result (out.new.items ≡ out.old.items ++ weights_text weights.now) }
{
    for weight in weights {
        push_weight(alloc, out, *weight)?;
    }
    Ok(())
}

/// Appends what stands before the set of cause j.
fn push_number(alloc: Global, out: &mut Vec<u8>, j: usize) -> Result<(), AllocError>
    ensures { OnOk result (out.new.items ≡ out.old.items ++ (codes "cause " ++ (decimal j ++ codes " on "))) }
{
    let text = format!(in alloc; "cause {j} on ")?;
    out.extend_from_slice(text.as_bytes())?;
    Ok(())
}

/// Appends the line of cause j.
fn push_cause(
    alloc: Global,
    out: &mut Vec<u8>,
    names: &Names,
    j: usize,
    cause: &Cause,
) -> Result<(), AllocError>
    ensures { OnOk result (out.new.items ≡ out.old.items ++ cause_line names.now j cause.now) }
{
    push_number(alloc, out, j)?;
    push_set(out, names, cause.children)?;
    out.extend_from_slice(b" with weights")?;
    push_weights(alloc, out, cause.weights.as_slice())?;
    out.push(b'\n')?;
    Ok(())
}

/// Appends the line of each cause.
pub fn push_causes(
    alloc: Global,
    out: &mut Vec<u8>,
    names: &Names,
    causes: &[Cause],
) -> Result<(), AllocError>
    ensures { OnOk result (out.new.items ≡ out.old.items ++ cause_lines names.now 0 causes.now) }
{
    let mut j = 0;
    for cause in causes {
        push_cause(alloc, out, names, j, cause)?;
        j += 1;
    }
    Ok(())
}

/// Appends the lines of each vertex of a model.
pub fn push_vertices(
    alloc: Global,
    out: &mut Vec<u8>,
    names: &Names,
    model: &[u8],
    mechanisms: &[Mechanism],
) -> Result<(), AllocError>
    ensures { OnOk result (out.new.items ≡ out.old.items ++ vertex_lines names.now model.now 0 mechanisms.now) }
{
    for (v, mechanism) in mechanisms.iter().enumerate() {
        push_mechanism(alloc, out, names, model, v, mechanism)?;
    }
    Ok(())
}
