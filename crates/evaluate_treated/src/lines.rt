//! The texts over counts.

ghost use Rattle.std.specs.Prelude.{◌≡◌, ◌++◌, OnOk, IfOk};
ghost use Rattle.mixed_graph.specs.Vocabulary.{union};
ghost use Rattle.prob_expr.specs.Vocabulary.{target_view};
ghost use Rattle.count_eval.specs.Vocabulary.{cell_of};
ghost use Rattle.primed_names.specs.Vocabulary.{primed_names};
ghost use Rattle.treated_command.specs.Sentences.{joint_of};
ghost use Rattle.evaluate_treated.specs.Lines.{effect_text, joint_text, no_model_text, shown_text, target_of, values_lines};

use crate::answer::{AmongValues, NoModel};
use count_answers::push_assignments;
use count_table::Counts;
use evaluate_command::{pinned_lines, push_doing, push_given};
use mixed_graph::{Names, VSet};
use paired_values::{Axis, push_axes_text, push_values_text};
use prob_expr::Target;
use std::alloc::{AllocError, Global};
use treated_command::Asked;

/// The sets of the effect.
pub fn target_of(asked: Asked) -> Target
    ensures { target_view result ≡ target_of asked }
{
    let sets = asked.sets;
    Target {
        x: sets.x,
        y: sets.y,
        given: sets.given,
    }
}

/// Appends the effect at a cell, as `P(Y=level|do(X=level),Z=level,X'=level)`.
pub fn push_effect(
    out: &mut Vec<u8>,
    names: &Names,
    all: &Names,
    asked: Asked,
    observed: &[Axis],
    counts: &Counts,
    cell: &[u32],
) -> Result<(), AllocError>
    ensures { all.now ≡ primed_names names.now asked.sets.x.bits
        → OnOk result (out.new.items ≡ out.old.items ++ effect_text names.now asked observed.now counts.now (cell_of cell.now)) }
{
    let target = target_of(asked);
    out.extend_from_slice(b"P(")?;
    push_assignments(out, names, counts, target.y, cell)?;
    push_doing(out, names, &target, counts, cell)?;
    push_given(out, names, &target, counts, cell)?;
    push_axes_text(out, all, counts, cell, observed)?;
    out.push(b')')?;
    Ok(())
}

/// The lines of what is pinned, and those of the values.
pub fn values_text(
    alloc: Global,
    names: &Names,
    values: &AmongValues,
) -> Result<Vec<u8>, AllocError>
    ensures { IfOk result (λ v. v.items ≡ values_lines names.now values.now) }
{
    let mut text = pinned_lines(alloc, names, &values.counts, values.pinned)?;
    push_values_text(alloc, &mut text, names, values, &values.values)?;
    Ok(text)
}

/// The outcomes of the joint effect: y and what is given.
fn joint_of(asked: Asked) -> VSet
    ensures { result.bits ≡ joint_of asked }
{
    asked.sets.y.union(asked.sets.given)
}

/// Appends the joint effect at a cell, as `P(Y=level,Z=level|do(X=level))`.
fn push_joint(
    out: &mut Vec<u8>,
    names: &Names,
    asked: Asked,
    counts: &Counts,
    cell: &[u32],
) -> Result<(), AllocError>
    ensures { OnOk result (out.new.items ≡ out.old.items ++ joint_text names.now asked counts.now (cell_of cell.now)) }
{
    out.extend_from_slice(b"P(")?;
    push_assignments(out, names, counts, joint_of(asked), cell)?;
    push_doing(out, names, &target_of(asked), counts, cell)?;
    out.extend_from_slice(b")")?;
    Ok(())
}

/// Appends what of it those have who show the levels that are set, as `P(X=level,Y=level,Z=level)`.
fn push_shown(
    out: &mut Vec<u8>,
    names: &Names,
    asked: Asked,
    counts: &Counts,
    cell: &[u32],
) -> Result<(), AllocError>
    ensures { OnOk result (out.new.items ≡ out.old.items ++ shown_text names.now asked counts.now (cell_of cell.now)) }
{
    let all = asked.sets.x.union(joint_of(asked));
    out.extend_from_slice(b"P(")?;
    push_assignments(out, names, counts, all, cell)?;
    out.extend_from_slice(b")")?;
    Ok(())
}

/// That no model of the diagram has the counts, and at which cell the joint effect is less than what of it was observed.
pub fn no_model_text(alloc: Global, names: &Names, none: &NoModel) -> Result<Vec<u8>, AllocError>
    ensures { IfOk result (λ v. v.items ≡ no_model_text names.now none.now) }
{
    let cell = none.cell.as_slice();
    let mut text = Vec::new(alloc);
    text.extend_from_slice(b"no model of this diagram has these counts\n")?;
    push_joint(&mut text, names, none.asked, &none.counts, cell)?;
    text.extend_from_slice(b" is less than ")?;
    push_shown(&mut text, names, none.asked, &none.counts, cell)?;
    text.extend_from_slice(b"\n")?;
    Ok(text)
}
