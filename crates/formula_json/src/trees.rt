//! The tree of an expression.

ghost use Rattle.std.specs.Prelude.{◌≡◌, map, OnOk, codes};
ghost use Rattle.prob_expr.specs.View.{view};
ghost use Rattle.prob_expr.specs.Vocabulary.{views, formula_view};
ghost use Rattle.answer_json.specs.Vocabulary.{with_value, with_values, with_member, set_json};
ghost use Rattle.formula_json.specs.Trees.{term_json, named_json, product_json, tree_json, trees_json, definitions_json};

use answer_json::Object;
use mixed_graph::{Names, VSet};
use prob_expr::{Expr, Formula};
use std::alloc::AllocError;

/// A term.
fn push_term(
    object: &mut Object,
    names: &Names,
    of: VSet,
    doing: VSet,
    given: VSet,
) -> Result<(), AllocError>
    ensures { OnOk result (object.new ≡ with_value (term_json names.now of.bits doing.bits given.bits) object.old) }
{
    object.begin_object()?;
    object.set_at("term", names, of)?;
    object.set_at("do", names, doing)?;
    object.set_at("given", names, given)?;
    object.end_object()?;
    Ok(())
}

/// The member that says over which vertices a sum is.
fn push_over(object: &mut Object, names: &Names, over: VSet) -> Result<(), AllocError>
    ensures { OnOk result (object.new ≡ with_member (codes "sum") (set_json names.now over.bits) object.old) }
{
    object.set_at("sum", names, over)
}

/// A definition, by its number.
fn push_named(object: &mut Object, k: u32) -> Result<(), AllocError>
    ensures { OnOk result (object.new ≡ with_value (named_json k) object.old) }
{
    object.begin_object()?;
    object.number_at("definition", u64::from(k))?;
    object.end_object()?;
    Ok(())
}

/// An expression as a value.
#[cycle(push)]
pub fn push_tree(object: &mut Object, names: &Names, e: &Expr) -> Result<(), AllocError>
    ensures { OnOk result (object.new ≡ with_value (tree_json names.now (view e.now)) object.old) }
{
    match e {
        Expr::Prob { of, doing, given } => push_term(object, names, *of, *doing, *given),
        Expr::Sum { over, body } => {
            object.begin_object()?;
            push_over(object, names, *over)?;
            object.key("of")?;
            push_tree(object, names, body)?;
            object.end_object()?;
            Ok(())
        }
        Expr::Product(factors) => push_product(object, names, factors),
        Expr::Quotient { top, bottom } => {
            object.begin_object()?;
            object.key("quotient")?;
            object.begin_array()?;
            push_tree(object, names, top)?;
            push_tree(object, names, bottom)?;
            object.end_array()?;
            object.end_object()?;
            Ok(())
        }
        Expr::Named(k) => push_named(object, *k),
    }
}

/// A product.
#[cycle(push)]
#[tactic(auto, using(answer_json::proofs::Arrays::array_written))]
fn push_product(object: &mut Object, names: &Names, factors: &Vec<Expr>) -> Result<(), AllocError>
    ensures { OnOk result (object.new ≡ with_value (product_json names.now (views factors.now.items)) object.old) }
{
    object.begin_object()?;
    object.key("product")?;
    object.begin_array()?;
    push_factors(object, names, factors)?;
    object.end_array()?;
    object.end_object()?;
    Ok(())
}

/// The factors of a product as values, in their order.
#[cycle(push)]
fn push_factors(object: &mut Object, names: &Names, factors: &Vec<Expr>) -> Result<(), AllocError>
    ensures { OnOk result (object.new ≡ with_values (trees_json names.now (views factors.now.items)) object.old) }
{
    for factor in factors {
        push_tree(object, names, factor)?;
    }
    Ok(())
}

/// Expressions as values, in their order.
fn push_trees(object: &mut Object, names: &Names, list: &Vec<Expr>) -> Result<(), AllocError>
    ensures { OnOk result (object.new ≡ with_values (map (tree_json names.now) (map view list.now.items)) object.old) }
{
    for e in list {
        push_tree(object, names, e)?;
    }
    Ok(())
}

/// The main expression of a formula.
pub fn push_main(object: &mut Object, names: &Names, f: &Formula) -> Result<(), AllocError>
    ensures { OnOk result (object.new ≡ with_value (tree_json names.now (view f.now.main)) object.old) }
{
    push_tree(object, names, &f.main)
}

/// The list of the definitions of a formula.
#[tactic(auto, using(answer_json::proofs::Arrays::array_written))]
pub fn push_definitions(object: &mut Object, names: &Names, f: &Formula) -> Result<(), AllocError>
    ensures { OnOk result (object.new ≡ with_value (definitions_json names.now (formula_view f.now)) object.old) }
{
    object.begin_array()?;
    push_trees(object, names, &f.defs)?;
    object.end_array()?;
    Ok(())
}
