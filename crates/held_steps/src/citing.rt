//! How often lemmas are cited.

use do_derivation::{Derivation, Lemma, Move, Step};
use std::alloc::{AllocError, Global};

/// Which lemmas are put in where they are cited.
#[derive(Clone, Copy)]
pub enum PutIn {
    /// Those that are cited once.
    CitedOnce,
    /// All.
    All,
}

/// Adds one for each citation, at its lemma's number.
#[cycle(citations)]
fn count_citations(step: &Step, counts: &mut Vec<u32>) {
    match step {
        Step::At(_, inner) => count_citations(inner, counts),
        Step::Then(steps) => count_each(steps, counts),
        Step::Make(Move::Cite(k)) => add_one(counts, *k),
        _ => {}
    }
}

/// The same for each step.
#[cycle(citations)]
fn count_each(steps: &Vec<Step>, counts: &mut Vec<u32>) {
    for step in steps {
        count_citations(step, counts);
    }
}

/// Adds one at a place.
fn add_one(counts: &mut Vec<u32>, k: u32) {
    let k = k as usize;
    if k < counts.len() {
        counts[k] = counts[k].saturating_add(1);
    }
}

/// Zeros, one for each lemma.
fn zeros(alloc: Global, count: usize) -> Result<Vec<u32>, AllocError> {
    let mut zeros = Vec::with_capacity(alloc, count)?;
    for _ in 0..count {
        zeros.push(0)?;
    }
    Ok(zeros)
}

/// How often each lemma is cited.
fn citations(alloc: Global, d: &Derivation) -> Result<Vec<u32>, AllocError> {
    let mut counts = zeros(alloc, d.lemmas.len())?;
    for lemma in &d.lemmas {
        count_citations(&lemma.step, &mut counts);
    }
    count_citations(&d.main, &mut counts);
    Ok(counts)
}

/// A mark for each lemma, that it's put in.
fn all_put_in(alloc: Global, d: &Derivation) -> Result<Vec<bool>, AllocError> {
    let mut marks = Vec::new(alloc);
    for _ in 0..d.lemmas.len() {
        marks.push(true)?;
    }
    Ok(marks)
}

/// A mark for each lemma, whether it's cited once.
fn cited_once(alloc: Global, d: &Derivation) -> Result<Vec<bool>, AllocError> {
    let counts = citations(alloc, d)?;
    let mut marks = Vec::new(alloc);
    for count in &counts {
        marks.push(*count == 1)?;
    }
    Ok(marks)
}

/// A mark for each lemma, whether it's put in.
pub(crate) fn put_in_marks(
    alloc: Global,
    d: &Derivation,
    put_in: PutIn,
) -> Result<Vec<bool>, AllocError> {
    match put_in {
        PutIn::CitedOnce => cited_once(alloc, d),
        PutIn::All => all_put_in(alloc, d),
    }
}

/// Whether a lemma has a mark.
pub(crate) fn is_marked(marks: &Vec<bool>, k: usize) -> bool {
    match marks.get(k) {
        Some(mark) => *mark,
        None => false,
    }
}

/// The weight of a lemma: 0 where there is none.
fn weight_at(weights: &Vec<u32>, k: u32) -> u32 {
    match weights.get(k as usize) {
        Some(weight) => *weight,
        None => 0,
    }
}

/// The weight of a step: the sum of the weights of the lemmas that it cites.
#[cycle(weights)]
fn weigh(step: &Step, weights: &Vec<u32>) -> u32 {
    match step {
        Step::At(_, inner) => weigh(inner, weights),
        Step::Then(steps) => weigh_each(steps, weights),
        Step::Make(Move::Cite(k)) => weight_at(weights, *k),
        _ => 0,
    }
}

/// The sum of the weights of the steps.
#[cycle(weights)]
fn weigh_each(steps: &Vec<Step>, weights: &Vec<u32>) -> u32 {
    let mut sum = 0u32;
    for step in steps {
        sum = sum.saturating_add(weigh(step, weights));
    }
    sum
}

/// The weight of each lemma: one and the weights of those that it cites and that are put in, or 0 where it isn't put in itself.
fn lemma_weights(
    alloc: Global,
    lemmas: &Vec<Lemma>,
    put_in: &Vec<bool>,
) -> Result<Vec<u32>, AllocError> {
    let mut weights = Vec::new(alloc);
    for (k, lemma) in lemmas.iter().enumerate() {
        let weight = if is_marked(put_in, k) {
            weigh(&lemma.step, &weights).saturating_add(1)
        } else {
            0
        };
        weights.push(weight)?;
    }
    Ok(weights)
}

/// How many lemmas stand in main once those that are to be are put in, main counted too.
pub(crate) fn expanded(
    alloc: Global,
    d: &Derivation,
    put_in: &Vec<bool>,
) -> Result<u32, AllocError> {
    let weights = lemma_weights(alloc, &d.lemmas, put_in)?;
    Ok(weigh(&d.main, &weights).saturating_add(1))
}
