//! A derivation done anew, with lemmas put in where they are cited, and its expressions made shorter by moves.

ghost use Rattle.std.specs.Prelude.{◌≡◌, length, IfOk, IfSome};

use crate::candidate::Candidate;
use crate::citing::{PutIn, expanded, is_marked, put_in_marks};
use crate::held::Held;
use crate::leaves::{Cited, Placed, push_leaves};
use crate::moves::improve;
use do_derivation::{Derivation, Lemma, Step};
use mixed_graph::{Graph, VSet};
use prob_expr::{Expr, Formula, Target, cap};
use std::alloc::{AllocError, Global};

/// Does the moves in turn: whether none is refused.
fn play(alloc: Global, g: &Graph, held: &mut Held, moves: Vec<Placed>) -> Result<bool, AllocError> {
    for placed in moves {
        let Placed { place, done } = placed;
        if !held.try_move(alloc, g, place.as_slice(), done)? {
            return Ok(false);
        }
    }
    Ok(true)
}

/// The definitions that stay, with their lemmas, and what stands in place of each citation.
#[derive(Drop)]
struct Parts {
    defs: Vec<Expr>,
    lemmas: Vec<Lemma>,
    sets: Vec<VSet>,
    cited: Vec<Cited>,
}

impl Parts {
    fn none(alloc: Global) -> Parts
        ensures { length result.defs.items ≡ length result.lemmas.items }
    {
        Parts {
            defs: Vec::new(alloc),
            lemmas: Vec::new(alloc),
            sets: Vec::new(alloc),
            cited: Vec::new(alloc),
        }
    }
}

/// A lemma that stays: its definition, made shorter, where no step is refused.
fn keep_lemma(
    alloc: Global,
    g: &Graph,
    parts: &mut Parts,
    set: VSet,
    steps: Vec<Placed>,
) -> Result<bool, AllocError>
    ensures { IfOk result (λ _. length parts.old.defs.items ≡ length parts.old.lemmas.items → length parts.new.defs.items ≡ length parts.new.lemmas.items) }
{
    let others = VSet::below(g.n).difference(set);
    let sets = Vec::from_slice(alloc, parts.sets.as_slice())?;
    let mut held = Held::start(alloc, set, others, VSet::EMPTY);
    held.cite(sets);
    if !play(alloc, g, &mut held, steps)? {
        return Ok(false);
    }
    improve(alloc, g, &mut held)?;
    let (def, steps) = held.into_parts();
    let number = cap(parts.defs.len());
    parts.defs.push(def)?;
    parts.lemmas.push(Lemma {
        set,
        step: Step::Then(steps),
    })?;
    parts.sets.push(set)?;
    parts.cited.push(Cited::Number(number))?;
    Ok(true)
}

/// A lemma, put in where it is cited or kept: whether no step is refused.
fn settle(
    alloc: Global,
    g: &Graph,
    parts: &mut Parts,
    put_in: bool,
    set: VSet,
    steps: Vec<Placed>,
) -> Result<bool, AllocError>
    ensures { IfOk result (λ _. length parts.old.defs.items ≡ length parts.old.lemmas.items → length parts.new.defs.items ≡ length parts.new.lemmas.items) }
{
    if put_in {
        parts.cited.push(Cited::Moves(steps))?;
        return Ok(true);
    }
    keep_lemma(alloc, g, parts, set, steps)
}

/// The lemmas that stay; none where a step is refused.
fn parts_of(
    alloc: Global,
    g: &Graph,
    d: &Derivation,
    put_in: &Vec<bool>,
    kept: VSet,
) -> Result<Option<Parts>, AllocError>
    ensures { IfOk result (λ found. IfSome found (λ parts. length parts.defs.items ≡ length parts.lemmas.items)) }
{
    let mut parts = Parts::none(alloc);
    for (k, lemma) in d.lemmas.iter().enumerate() {
        let mut steps = Vec::new(alloc);
        push_leaves(alloc, &lemma.step, &[], &parts.cited, kept, &mut steps)?;
        let is_put_in = is_marked(put_in, k);
        if !settle(alloc, g, &mut parts, is_put_in, lemma.set, steps)? {
            return Ok(None);
        }
    }
    Ok(Some(parts))
}

/// The derivation done for the target, with the kept vertices alone in its sets, the lemmas that are to be
/// put in where they are cited, and moves; none where a step is refused, or where more than 12 lemmas would be put in.
pub fn replayed(
    alloc: Global,
    g: &Graph,
    t: &Target,
    d: &Derivation,
    put_in: PutIn,
    kept: VSet,
) -> Result<Option<Candidate>, AllocError>
    ensures a_lemma_each { IfOk result (λ found. IfSome found (λ c. length c.formula.defs.items ≡ length c.derivation.lemmas.items)) }
{
    let marks = put_in_marks(alloc, d, put_in)?;
    if expanded(alloc, d, &marks)? > 12 {
        return Ok(None);
    }
    let Some(parts) = parts_of(alloc, g, d, &marks, kept)? else {
        return Ok(None);
    };
    let Parts {
        defs,
        lemmas,
        sets,
        cited,
    } = parts;
    let mut steps = Vec::new(alloc);
    push_leaves(alloc, &d.main, &[], &cited, kept, &mut steps)?;
    let mut held = Held::start(alloc, t.y, t.x, t.given);
    held.cite(sets);
    if !play(alloc, g, &mut held, steps)? {
        return Ok(None);
    }
    improve(alloc, g, &mut held)?;
    let (main, steps) = held.into_parts();
    Ok(Some(Candidate {
        formula: Formula { defs, main },
        derivation: Derivation {
            lemmas,
            main: Step::Then(steps),
        },
    }))
}
