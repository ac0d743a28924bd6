//! The parts of what is told of a rule.

ghost use Rattle.std.specs.Prelude.{◌≡◌, ◌++◌, IfOk, OnOk, length, codes, decimal};
ghost use Rattle.mixed_graph.specs.Vocabulary.{has, graph_of};
ghost use Rattle.json.specs.Json.{number};
ghost use Rattle.do_rules.specs.Vocabulary.{number_of};
ghost use Rattle.answer_json.specs.Vocabulary.{with_member, with_members, text_json};
ghost use Rattle.graph_json.specs.Vocabulary.{graph_json};
ghost use Rattle.separation_commands.specs.RuleLines.{equation_text, side_text, side_of};
ghost use Rattle.separation_commands.specs.RuleObjects.{rule_members, side_members};
ghost use Rattle.separation_commands.specs.RuleSentences.{rule_sentence, asked_members};

use crate::rule::sides::{left_of, push_side, right_of};
use answer_json::Object;
use answer_text::Term;
use answer_text::names::with_number;
use do_rules::Rule;
use graph_json::push_graph;
use mixed_graph::{Graph, Names};
use std::alloc::{AllocError, Global};
use targets::RuleSets;

/// The rule's number and its equation, with these words between them, as a line.
pub fn sentence(
    alloc: Global,
    verb: &[u8],
    names: &Names,
    rule: Rule,
    sets: RuleSets,
) -> Result<Vec<u8>, AllocError>
    ensures { IfOk result (λ v. v.items ≡ rule_sentence verb.now names.now rule sets) }
{
    let mut text = with_number(alloc, "rule ", u64::from(rule.number()))?;
    text.extend_from_slice(verb)?;
    push_equation(&mut text, names, rule, sets)?;
    text.push(b'\n')?;
    Ok(text)
}

/// Appends both sides of a rule.
fn push_equation(
    out: &mut Vec<u8>,
    names: &Names,
    rule: Rule,
    sets: RuleSets,
) -> Result<(), AllocError>
    ensures { OnOk result (out.new.items ≡ out.old.items ++ equation_text rule names.now (has sets.x.bits) (has sets.y.bits) (has sets.z.bits) (has sets.given.bits)) }
{
    push_side(out, names, left_of(rule, sets))?;
    out.extend_from_slice(b" = ")?;
    push_side(out, names, right_of(rule, sets))?;
    Ok(())
}

/// Adds the answer's word, the rule, its sets and both its sides.
pub fn push_asked(
    object: &mut Object,
    word: &str,
    names: &Names,
    rule: Rule,
    sets: RuleSets,
) -> Result<(), AllocError>
    ensures { OnOk result (object.new ≡ with_members (asked_members word.now names.now rule sets) object.old) }
{
    object.word_at("answer", word)?;
    push_rule(object, names, rule, sets)?;
    push_sides(object, names, rule, sets)
}

/// Adds the graph in which the rule asks for separation.
pub fn push_cut(object: &mut Object, names: &Names, cut: &Graph) -> Result<(), AllocError>
    ensures { OnOk result (object.new ≡ with_member (codes "graph") (graph_json names.now (graph_of cut.now)) object.old) }
{
    object.key("graph")?;
    push_graph(object, names, cut)
}

/// The rule and its sets.
fn push_rule(
    object: &mut Object,
    names: &Names,
    rule: Rule,
    sets: RuleSets,
) -> Result<(), AllocError>
    ensures { OnOk result (object.new ≡ with_members (rule_members rule names.now sets.y.bits sets.x.bits sets.z.bits sets.given.bits) object.old) }
{
    push_number(object, rule)?;
    object.set_at("y", names, sets.y)?;
    object.set_at("do", names, sets.x)?;
    object.set_at("z", names, sets.z)?;
    object.set_at("given", names, sets.given)?;
    Ok(())
}

/// The rule's number.
fn push_number(object: &mut Object, rule: Rule) -> Result<(), AllocError>
    ensures { OnOk result (object.new ≡ with_member (codes "rule") (number (decimal (number_of rule))) object.old) }
{
    let number = u64::from(rule.number());
    object.number_at("rule", number)
}

/// Both sides of a rule.
fn push_sides(
    object: &mut Object,
    names: &Names,
    rule: Rule,
    sets: RuleSets,
) -> Result<(), AllocError>
    ensures { OnOk result (object.new ≡ with_members (side_members rule names.now sets.y.bits sets.x.bits sets.z.bits sets.given.bits) object.old) }
{
    push_side_at(object, "left", names, left_of(rule, sets))?;
    push_side_at(object, "right", names, right_of(rule, sets))?;
    Ok(())
}

/// A member whose value is a side of a rule.
fn push_side_at(object: &mut Object, key: &str, names: &Names, side: Term) -> Result<(), AllocError>
    ensures { OnOk result (object.new ≡ with_member key.now (text_json (side_text names.now (side_of side))) object.old) }
{
    let mut text = Vec::new(object.alloc());
    push_side(&mut text, names, side)?;
    object.text_at(key, text.as_slice())
}
