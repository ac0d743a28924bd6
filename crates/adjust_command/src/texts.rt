//! The texts of `adjust`: a set that is admissible, and what breaks a criterion.

ghost use Rattle.std.specs.Prelude.{◌≡◌, ◌++◌, IfOk, OnOk};
ghost use Rattle.adjust_command.specs.Lines.{set_line, admissible_text, forbidden_line, fault_line, not_admissible_text};

use adjustment::{AdjFault, formula_for};
use answer_text::{Notation, push_set, push_vertex};
use identify_text::answer_in;
use mixed_graph::{Names, VSet};
use prob_expr::Target;
use replies::push_open;
use std::alloc::{AllocError, Global};
use targets::Sets;

/// Appends a set and a line feed.
fn push_line(out: &mut Vec<u8>, names: &Names, set: VSet) -> Result<(), AllocError>
    ensures { OnOk result (out.new.items ≡ out.old.items ++ set_line names.now set.bits) }
{
    push_set(out, names, set)?;
    out.push(b'\n')?;
    Ok(())
}

/// The text of a set that may be adjusted for.
pub fn admissible_text(alloc: Global, names: &Names, sets: Sets) -> Result<Vec<u8>, AllocError>
    ensures { IfOk result (λ v. v.items ≡ admissible_text names.now sets.x.bits sets.y.bits sets.given.bits) }
{
    let formula = formula_for(alloc, sets.x, sets.y, sets.given)?;
    let effect = Target {
        x: sets.x,
        y: sets.y,
        given: VSet::EMPTY,
    };
    let answer = answer_in(alloc, Notation::Plain, &formula, &effect, names)?;
    let mut text = Vec::from_slice(alloc, b"admissible: ")?;
    push_line(&mut text, names, sets.given)?;
    text.extend_from_slice(answer.as_slice())?;
    Ok(text)
}

/// Appends the line of a member that is forbidden.
fn push_forbidden(out: &mut Vec<u8>, names: &Names, v: u8) -> Result<(), AllocError>
    ensures { OnOk result (out.new.items ≡ out.old.items ++ forbidden_line names.now v) }
{
    out.extend_from_slice(b"forbidden: ")?;
    push_vertex(out, names, v)?;
    out.push(b'\n')?;
    Ok(())
}

/// Appends what breaks a criterion.
fn push_fault(out: &mut Vec<u8>, names: &Names, fault: &AdjFault) -> Result<(), AllocError>
    ensures { OnOk result (out.new.items ≡ out.old.items ++ fault_line names.now fault.now) }
{
    match fault {
        AdjFault::Forbidden(v) => push_forbidden(out, names, *v),
        AdjFault::Unblocked(path) => push_open(out, names, path),
    }
}

/// The text of a set that a criterion doesn't allow.
pub fn not_admissible_text(
    alloc: Global,
    names: &Names,
    set: VSet,
    fault: &AdjFault,
) -> Result<Vec<u8>, AllocError>
    ensures { IfOk result (λ v. v.items ≡ not_admissible_text names.now set.bits fault.now) }
{
    let mut text = Vec::from_slice(alloc, b"not admissible: ")?;
    push_line(&mut text, names, set)?;
    push_fault(&mut text, names, fault)?;
    Ok(text)
}
