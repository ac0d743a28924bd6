//! The law that steps keep the value, whoever wrote them.

ghost use Rattle.do_derivation.specs.Sound.{StepKeepsValue, StepKeepsTerms, AcceptedIsEffect, StepsAreExact, AcceptsOrNot};

/// What steps and derivations promise, whoever wrote them.
///
/// Each accepted step keeps the value of an expression at each assignment in each positive model
/// that fits the graph; the formula of an accepted derivation has the value of the effect there; and
/// a step, or a derivation, is accepted or has a first fault, never both.
pub fn laws()
    ensures keeps_value { StepKeepsValue }
    ensures keeps_terms { StepKeepsTerms }
    ensures accepted_is_effect { AcceptedIsEffect }
    ensures exact { StepsAreExact }
    ensures accepted_or_not { AcceptsOrNot }
{}
