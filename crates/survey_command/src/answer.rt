//! What is answered of a survey.

ghost use Rattle.std.specs.Prelude.{◌≡◌, OnOk};
ghost use Rattle.answer_json.specs.Vocabulary.{with_members};
ghost use Rattle.survey_command.specs.Objects.{graph_members, tally_members};

use crate::tally::Tally;
use answer_json::Object;
use mixed_graph::Names;
use replies::Outcome;
use std::alloc::{AllocError, Global};
use told::{Told, Writing};

/// A survey: the graph that a seed draws, and of how many of its effects there is a formula, and of how many a hedge.
#[derive(Clone, Copy)]
pub struct Survey {
    pub seed: u64,
    pub vertices: u32,
    pub directed: u32,
    pub bidirected: u32,
    pub tally: Tally,
}

impl Survey {
    /// Adds how many vertices and edges the graph has.
    fn push_graph(&self, object: &mut Object) -> Result<(), AllocError>
        ensures { OnOk result (object.new ≡ with_members (graph_members self.now.vertices self.now.directed self.now.bidirected) object.old) }
    {
        object.number_at("vertices", u64::from(self.vertices))?;
        object.number_at("directed", u64::from(self.directed))?;
        object.number_at("bidirected", u64::from(self.bidirected))?;
        Ok(())
    }

    /// Adds how many effects have a formula, and how many a hedge.
    fn push_tally(&self, object: &mut Object) -> Result<(), AllocError>
        ensures { OnOk result (object.new ≡ with_members (tally_members self.now.tally.formulas self.now.tally.hedges) object.old) }
    {
        object.number_at("formulas", u64::from(self.tally.formulas))?;
        object.number_at("hedges", u64::from(self.tally.hedges))?;
        Ok(())
    }
}

impl Told for Survey {
    ghost use Rattle.survey_command.specs.Telling.{survey_telling};

    ghost telling = { survey_telling };

    fn outcome(&self) -> Outcome {
        Outcome::Yes
    }

    fn text(&self, alloc: Global, _: &Names, _: Writing) -> Result<Vec<u8>, AllocError> {
        let (vertices, directed, bidirected) = (self.vertices, self.directed, self.bidirected);
        let (formulas, hedges) = (self.tally.formulas, self.tally.hedges);
        let text = format!(in alloc;
            "vertices {vertices}\ndirected {directed}\nbidirected {bidirected}\nformulas {formulas}\nhedges {hedges}\n"
        )?;
        Ok(text.into_bytes())
    }

    fn push_members(&self, object: &mut Object, _: &Names, _: Writing) -> Result<(), AllocError> {
        object.word_at("answer", "survey")?;
        object.key("seed")?;
        object.digits(self.seed)?;
        self.push_graph(object)?;
        self.push_tally(object)
    }
}
