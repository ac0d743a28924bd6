//! The two sides of a rule.

ghost use Rattle.std.specs.Prelude.{◌≡◌, ◌++◌, ℕ, OnOk, length};
ghost use Rattle.mixed_graph.specs.Vocabulary.{has, Within};
ghost use Rattle.do_rules.specs.Vocabulary.{left_of, right_of};
ghost use Rattle.separation_commands.specs.RuleLines.{side_text, side_of};

use answer_text::{Term, push_term};
use do_rules::Rule;
use mixed_graph::Names;
use std::alloc::AllocError;
use targets::RuleSets;

/// The left side of a rule.
pub fn left_of(rule: Rule, sets: RuleSets) -> Term
    ensures { side_of result ≡ left_of rule (has sets.x.bits) (has sets.y.bits) (has sets.z.bits) (has sets.given.bits) }
{
    match rule {
        Rule::One => Term {
            of: sets.y,
            doing: sets.x,
            given: sets.z.union(sets.given),
        },
        Rule::Two => Term {
            of: sets.y,
            doing: sets.x.union(sets.z),
            given: sets.given,
        },
        Rule::Three => Term {
            of: sets.y,
            doing: sets.x.union(sets.z),
            given: sets.given,
        },
    }
}

/// The right side of a rule.
pub fn right_of(rule: Rule, sets: RuleSets) -> Term
    ensures { side_of result ≡ right_of rule (has sets.x.bits) (has sets.y.bits) (has sets.z.bits) (has sets.given.bits) }
{
    match rule {
        Rule::One => Term {
            of: sets.y,
            doing: sets.x,
            given: sets.given,
        },
        Rule::Two => Term {
            of: sets.y,
            doing: sets.x,
            given: sets.z.union(sets.given),
        },
        Rule::Three => Term {
            of: sets.y,
            doing: sets.x,
            given: sets.given,
        },
    }
}

/// Appends a side.
pub fn push_side(out: &mut Vec<u8>, names: &Names, side: Term) -> Result<(), AllocError>
    ensures { OnOk result (out.new.items ≡ out.old.items ++ side_text names.now (side_of side)) }
{
    push_term(out, names, side)
}
