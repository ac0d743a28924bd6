//! What separation and the rules say of models, and models of them.

ghost use Rattle.do_rules.specs.Rules.{IndependenceIsSeparation, PositiveIndependenceIsSeparation, RuleIsSeparation, OpenRulesFail};

/// What separation and the rules say of models, and what models say of them.
pub fn laws()
    ensures independence { IndependenceIsSeparation }
    ensures positive { PositiveIndependenceIsSeparation }
    ensures rules { RuleIsSeparation }
    ensures open { OpenRulesFail }
{}
