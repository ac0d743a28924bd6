//! The answer of `surrogate`.

ghost use Rattle.std.specs.Prelude.{◌≡◌, ◌<◌, ◌≤◌, true, IfOk, IfErr, IfSome, length};
ghost use Rattle.mixed_graph.specs.Vocabulary.{has, Within, Apart, graph_of};
ghost use Rattle.prob_expr.specs.Vocabulary.{masks_of};
ghost use Rattle.do_derivation.specs.Vocabulary.{are_sets};
ghost use Rattle.targets.specs.Vocabulary.{OrMemory};
ghost use Rattle.replies.specs.Vocabulary.{told_of};
ghost use Rattle.told.specs.Vocabulary.{target_refusal, Tells};
ghost use Rattle.effect_answers.specs.Vocabulary.{HasArrays};
ghost use Rattle.surrogate_command.specs.Forms.{wants_common, told_form};
ghost use Rattle.surrogate_command.specs.Requests.{request_of};
ghost use Rattle.surrogate_command.specs.Right.{stop_shown, Decides, IsForLists, IsSurrogateAnswer};
ghost use Rattle.surrogate_command.specs.Sets.{surrogate_lists, IsSurrogateFault};
ghost use Rattle.surrogate_command.specs.Telling.{surrogate_telling};

use crate::answer::Answer;
use crate::parts::effect_of;
use crate::request::Request;
use crate::sets::{SurrogateSets, asked_sets};
use diagram::Diagram;
use effect_answers::{EffectFormula, EffectHedge, has_arrays, has_short_steps};
use hedge::Hedge;
use mixed_graph::{Graph, VSet};
use replies::Reply;
use std::alloc::{AllocError, Global};
use surrogates::{CommonHedge, Surrogate, identify_with};
use targets::{EffectSets, TargetFault};
use told::reply;

/// What is told of an effect over experiments.
pub fn surrogate_reply(
    alloc: Global,
    diagram: &Diagram,
    asked: &Request<'_>,
) -> Result<Reply, AllocError>
    ensures { let q = request_of asked.now in IfOk result (λ r. Tells surrogate_telling target_refusal
        (IsSurrogateAnswer (wants_common q.form.writing) diagram.now q.x q.y q.experiments) (told_form q.form) diagram.now.observed.names r.outcome (told_of r)) }
{
    let answer = surrogate_answer(alloc, diagram, asked);
    reply(alloc, asked.form.told(), &diagram.observed.names, &answer)
}

/// Whether the effect of x on y can be computed from observations and from experiments, in the observed graph: a formula for
/// P(y | do(x)), or the first district that no experiment frees (Bareinboim and Pearl 2012).
///
/// Where models or the certificate are asked for, and the district stops under all experiments that leave it alone at once,
/// the answer has the hedge at which it does, and its two models.
///
/// A list that is missing is that of the exposures or of the outcomes.
pub fn surrogate_answer(
    alloc: Global,
    diagram: &Diagram,
    asked: &Request<'_>,
) -> Result<Answer, TargetFault>
    ensures answer { let q = request_of asked.now in
        IfOk result (IsForLists (wants_common q.form.writing) (graph_of diagram.now.observed.graph) (surrogate_lists diagram.now.read diagram.now.observed.names q.x q.y q.experiments)) }
    ensures fault { let q = request_of asked.now in
        IfErr result (OrMemory (IsSurrogateFault (surrogate_lists diagram.now.read diagram.now.observed.names q.x q.y q.experiments))) }
{
    let (x, y) = (asked.x.as_deref(), asked.y.as_deref());
    let sets = asked_sets(alloc, diagram, x, y, &asked.experiments)?;
    let g = &diagram.observed.graph;
    let Ok(answer) = decide(alloc, g, sets, asked.form.wants_common()) else {
        return Err(TargetFault::NoMemory);
    };
    Ok(answer)
}

/// The answer for sets of a graph.
fn decide(alloc: Global, g: &Graph, sets: SurrogateSets, wanted: bool) -> Result<Answer, AllocError>
    requires x { Within g.now.n (has sets.x.bits) }
    requires y { Within g.now.n (has sets.y.bits) }
    requires apart { Apart (has sets.x.bits) (has sets.y.bits) }
    requires some { 0 < sets.y.bits }
    requires few { length sets.experiments.items ≤ 8 }
    requires experiments { are_sets g.now.n (masks_of sets.experiments.items) ≡ true }
    ensures { IfOk result (Decides wanted (graph_of g.now) sets) }
{
    let experiments = sets.experiments.as_slice();
    match identify_with(alloc, g, sets.x, sets.y, experiments)? {
        Surrogate::Formula(formula, derivation) => {
            has_short_steps(&derivation);
            let target = effect_of(&sets);
            let shown = EffectFormula {
                target,
                formula,
                derivation: Some(derivation),
            };
            Ok(Answer::Formula(sets, shown))
        }
        Surrogate::Stopped {
            district,
            hedge,
            common,
            ..
        } => Ok(stopped(sets, district, hedge, common, wanted)),
    }
}

/// The answer of a stop: the common hedge, where that is asked for and there is one.
fn stopped(
    sets: SurrogateSets,
    district: VSet,
    hedge: Hedge,
    common: Option<CommonHedge>,
    wanted: bool,
) -> Answer
    ensures is { result ≡ stop_shown wanted sets district hedge common }
    ensures arrays { IfSome common (λ k. HasArrays k.hedge) }
{
    let Some(shared) = common else {
        return Answer::Unfound(sets, district, hedge);
    };
    has_arrays(&shared.hedge);
    if !wanted {
        return Answer::Unfound(sets, district, hedge);
    }
    let effect = EffectSets {
        x: sets.x,
        y: sets.y,
    };
    let shown = EffectHedge {
        sets: effect,
        hedge: shared.hedge,
        pair: shared.pair,
    };
    Answer::Blocked(sets, district, shown)
}
