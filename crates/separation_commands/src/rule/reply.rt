//! The answer of `rule`.

ghost use Rattle.std.specs.Prelude.{◌<◌, IfOk, IfErr};
ghost use Rattle.mixed_graph.specs.Vocabulary.{has, graph_of};
ghost use Rattle.do_rules.specs.Vocabulary.{AreFourSets};
ghost use Rattle.targets.specs.Vocabulary.{OrMemory, IsRuleFault};
ghost use Rattle.diagram.specs.Vocabulary.{rule_lists};
ghost use Rattle.replies.specs.Vocabulary.{told_of};
ghost use Rattle.told.specs.Vocabulary.{plain_form, target_refusal, Tells};
ghost use Rattle.separation_commands.specs.RuleRight.{Decides, IsForLists, IsRuleAnswer};
ghost use Rattle.separation_commands.specs.RuleTelling.{rule_telling};
ghost use Rattle.separation_commands.specs.RuleRequests.{request_of};

use crate::rule::answer::Answer;
use crate::rule::request::Request;
use diagram::{Diagram, asked_rule};
use do_rules::Rule;
use mixed_graph::Graph;
use replies::Reply;
use std::alloc::{AllocError, Global};
use targets::{RuleSets, TargetFault};
use told::{Form, reply};

/// What is told of a rule.
pub fn rule_reply(
    alloc: Global,
    diagram: &Diagram,
    asked: &Request<'_>,
) -> Result<Reply, AllocError>
    ensures { let q = request_of asked.now in IfOk result (λ r. Tells rule_telling target_refusal (IsRuleAnswer q.rule diagram.now q.y q.x q.z q.given)
        (plain_form q.format) diagram.now.observed.names r.outcome (told_of r)) }
{
    let answer = rule_answer(alloc, diagram, asked);
    reply(
        alloc,
        Form::plain(asked.format),
        &diagram.observed.names,
        &answer,
    )
}

/// Whether a rule of the do-calculus holds for the listed names, in the observed graph.
pub fn rule_answer(
    alloc: Global,
    diagram: &Diagram,
    asked: &Request<'_>,
) -> Result<Answer, TargetFault>
    ensures answer { let q = request_of asked.now in
        IfOk result (IsForLists q.rule (graph_of diagram.now.observed.graph) (rule_lists diagram.now.read diagram.now.observed.names q.y q.x q.z q.given)) }
    ensures fault { let q = request_of asked.now in
        IfErr result (OrMemory (IsRuleFault (rule_lists diagram.now.read diagram.now.observed.names q.y q.x q.z q.given))) }
{
    let sets = asked_rule(alloc, diagram, &asked.y, &asked.x, &asked.z, &asked.given)?;
    Ok(decide(&diagram.observed.graph, asked.rule, sets))
}

/// The answer for sets of a graph.
fn decide(g: &Graph, rule: Rule, sets: RuleSets) -> Answer
    requires sets { AreFourSets g.now.n (has sets.x.bits) (has sets.y.bits) (has sets.z.bits) (has sets.given.bits) }
    requires some { 0 < sets.y.bits }
    ensures { Decides rule (graph_of g.now) sets result }
{
    let cut = rule.graph(g, sets.x, sets.z, sets.given);
    match rule.applies(g, sets.x, sets.y, sets.z, sets.given) {
        Ok(()) => Answer::Holds(rule, sets, cut),
        Err(path) => Answer::Fails(rule, sets, cut, path),
    }
}
