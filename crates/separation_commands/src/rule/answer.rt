//! What is answered of a rule.

use crate::rule::parts::{push_asked, push_cut, sentence};
use answer_json::Object;
use do_rules::Rule;
use m_separation::OpenPath;
use mixed_graph::{Graph, Names};
use replies::{Outcome, push_open};
use std::alloc::{AllocError, Global};
use targets::RuleSets;
use told::{Told, Writing};

/// What is answered of a rule, with the graph in which it asks for separation.
#[derive(Drop)]
pub enum Answer {
    /// What the rule asks is so.
    Holds(Rule, RuleSets, Graph),
    /// A path is open in its graph.
    Fails(Rule, RuleSets, Graph, OpenPath),
}

impl Told for Answer {
    ghost use Rattle.separation_commands.specs.RuleTelling.{rule_telling};

    ghost telling = { rule_telling };

    fn outcome(&self) -> Outcome {
        match self {
            Answer::Holds(..) => Outcome::Yes,
            Answer::Fails(..) => Outcome::No,
        }
    }

    fn text(&self, alloc: Global, names: &Names, _: Writing) -> Result<Vec<u8>, AllocError> {
        match self {
            Answer::Holds(rule, sets, _) => sentence(alloc, b" holds: ", names, *rule, *sets),
            Answer::Fails(rule, sets, _, path) => {
                let mut text = sentence(alloc, b" does not hold: ", names, *rule, *sets)?;
                push_open(&mut text, names, path)?;
                Ok(text)
            }
        }
    }

    fn push_members(
        &self,
        object: &mut Object,
        names: &Names,
        _: Writing,
    ) -> Result<(), AllocError> {
        match self {
            Answer::Holds(rule, sets, cut) => {
                push_asked(object, "holds", names, *rule, *sets)?;
                push_cut(object, names, cut)
            }
            Answer::Fails(rule, sets, cut, path) => {
                push_asked(object, "does not hold", names, *rule, *sets)?;
                object.path_at("open", names, path)?;
                push_cut(object, names, cut)
            }
        }
    }
}
