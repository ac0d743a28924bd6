//! The text of the two models of a hedge.

ghost use Rattle.std.specs.Prelude.{◌≡◌, ◌+◌, ◌++◌, decimal, OnOk, IfOk};
ghost use Rattle.prob_expr.specs.Vocabulary.{target_view};
ghost use Rattle.identify_text.specs.PairLines.{event_line, models_text, hedge_answer, joint_answer};

use crate::bits::{Bit, add_bits, push_sum};
use crate::hedges::{hedge_heading, push_choices, push_links};
use crate::models::{push_causes, push_vertices};
use counter_models::CounterPair;
use expr_text::target_text;
use hedge::Hedge;
use mixed_graph::{Names, VSet};
use prob_expr::Target;
use std::alloc::{AllocError, Global};

/// Appends the exponent of the second model's gain: one more than the noise.
fn push_exponent(alloc: Global, out: &mut Vec<u8>, noise: u32) -> Result<(), AllocError>
    ensures { OnOk result (out.new.items ≡ out.old.items ++ decimal (noise + 1)) }
{
    let exponent = u64::from(noise) + 1;
    let text = format!(in alloc; "{exponent}")?;
    out.extend_from_slice(text.as_bytes())?;
    Ok(())
}

/// Appends the line of the event, with its probability in each model.
fn push_event(
    alloc: Global,
    out: &mut Vec<u8>,
    names: &Names,
    pair: &CounterPair,
) -> Result<(), AllocError>
    ensures { OnOk result (out.new.items ≡ out.old.items ++ event_line names.now pair.now) }
{
    let mut terms = Vec::new(alloc);
    add_bits(&mut terms, names, Bit::Carried, pair.event)?;
    out.extend_from_slice(b"event ")?;
    push_sum(out, terms.as_slice())?;
    out.extend_from_slice(b" even: 1/2 in the first, 1/2 + 1/2^")?;
    push_exponent(alloc, out, pair.noise)?;
    out.extend_from_slice(b" in the second\n")?;
    Ok(())
}

/// Appends the choices and links of a hedge, and the two models by which the effect differs though all observations agree.
///
/// Each line ends with a line feed.
pub fn push_models(
    alloc: Global,
    out: &mut Vec<u8>,
    names: &Names,
    h: &Hedge,
    pair: &CounterPair,
) -> Result<(), AllocError>
    ensures { OnOk result (out.new.items ≡ out.old.items ++ models_text names.now h.now pair.now) }
{
    push_choices(out, names, h)?;
    push_links(out, names, h)?;
    push_causes(alloc, out, names, pair.first.causes.as_slice())?;
    push_vertices(
        alloc,
        out,
        names,
        b"first",
        pair.first.mechanisms.as_slice(),
    )?;
    push_vertices(
        alloc,
        out,
        names,
        b"second",
        pair.second.mechanisms.as_slice(),
    )?;
    push_event(alloc, out, names, pair)?;
    Ok(())
}

/// The text of a hedge: its heading, its choices and links, and the two models by which the effect differs though all observations agree.
///
/// Each line ends with a line feed.
pub fn hedge_answer(
    alloc: Global,
    x: VSet,
    y: VSet,
    h: &Hedge,
    pair: &CounterPair,
    names: &Names,
) -> Result<Vec<u8>, AllocError>
    ensures { IfOk result (λ v. v.items ≡ hedge_answer names.now x.bits y.bits h.now pair.now) }
{
    let mut text = hedge_heading(alloc, x, y, h, names)?;
    push_models(alloc, &mut text, names, h, pair)?;
    Ok(text)
}

/// The text of a target with a given whose joint effect, that of x on y, has a hedge: the first line says that the target isn't identified, and
/// names the joint effect; the other lines are those of its hedge.
///
/// Each line ends with a line feed.
pub fn joint_answer(
    alloc: Global,
    target: &Target,
    x: VSet,
    y: VSet,
    h: &Hedge,
    pair: &CounterPair,
    names: &Names,
) -> Result<Vec<u8>, AllocError>
    ensures { IfOk result (λ v. v.items ≡ joint_answer names.now (target_view target.now) x.bits y.bits h.now pair.now) }
{
    let mut text = target_text(alloc, target, names)?;
    text.extend_from_slice(b" not identified; ")?;
    let joint = hedge_answer(alloc, x, y, h, pair, names)?;
    text.extend_from_slice(joint.as_slice())?;
    Ok(text)
}
