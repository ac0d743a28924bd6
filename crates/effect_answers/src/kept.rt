//! What the types of a derivation keep, which is what reading back its certificate asks of it.

ghost use Rattle.std.specs.Prelude.{◌≡◌, ◌^◌, true, ltb, leb, length, map};
ghost use Rattle.do_derivation.specs.Vocabulary.{move_view, step_view, steps_view, lemma_view, derivation_view, listed, numbers_of};
ghost use Rattle.certificate_json.specs.Vocabulary.{are_below, groups_below, is_move_short, is_short, are_short, are_steps_short, IsShort};

use do_derivation::{Derivation, Lemma, Move, Step};
use mixed_graph::Order;

/// A number has 32 bits.
fn number_kept(k: u32)
    ensures { ltb k (2 ^ 32) ≡ true }
{}

fn numbers_kept(list: &Vec<u32>)
    ensures { are_below (2 ^ 32) list.now.items ≡ true }
{
    for k in list {
        number_kept(*k);
    }
}

fn groups_kept(list: &Vec<Vec<u32>>)
    ensures { groups_below (2 ^ 32) (numbers_of list.now.items) ≡ true }
{
    for group in list {
        numbers_kept(group);
    }
}

/// An order has 64 vertices at most.
fn order_kept(order: &Order)
    ensures { leb (length (listed order.now)) 64 ≡ true }
{}

#[cycle(keep)]
fn steps_kept(steps: &Vec<Step>)
    ensures { are_short (steps_view steps.now.items) ≡ true }
{
    for step in steps {
        step_kept(step);
    }
}

fn move_kept(done: &Move)
    ensures { is_move_short (move_view done.now) ≡ true }
{
    match done {
        Move::Chain(order) => order_kept(order),
        Move::Group(list) => groups_kept(list),
        Move::Cite(k) => number_kept(*k),
        Move::WithSet(_, _) | Move::Bare(_) => {}
    }
}

#[cycle(keep)]
fn step_kept(step: &Step)
    ensures { is_short (step_view step.now) ≡ true }
{
    match step {
        Step::Make(done) => move_kept(done),
        Step::At(child, inner) => {
            number_kept(*child);
            step_kept(inner);
        }
        Step::Then(steps) => steps_kept(steps),
    }
}

fn lemmas_kept(lemmas: &Vec<Lemma>)
    ensures { are_steps_short (map lemma_view lemmas.now.items) ≡ true }
{
    for lemma in lemmas {
        step_kept(&lemma.step);
    }
}

/// Brings into a proof what the types alone keep: the numbers of steps have 32 bits, and orders 64 vertices at most.
pub fn has_short_steps(derivation: &Derivation)
    ensures { IsShort (derivation_view derivation.now) }
{
    lemmas_kept(&derivation.lemmas);
    step_kept(&derivation.main);
}
