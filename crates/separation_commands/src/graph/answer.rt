//! What is answered of a graph: the graph itself.

use crate::graph::objects::push_graph;
use answer_json::Object;
use dag_reader::{ReadGraph, write_graph};
use mixed_graph::Names;
use replies::Outcome;
use std::alloc::{AllocError, Global};
use told::{Told, Writing};

/// What is answered of a graph: the graph itself.
#[derive(Drop)]
pub struct Answer<'a> {
    pub graph: &'a ReadGraph,
}

impl<'a> Told for Answer<'a> {
    ghost use Rattle.separation_commands.specs.GraphTelling.{graph_telling};

    ghost telling = { graph_telling };

    fn outcome(&self) -> Outcome {
        Outcome::Yes
    }

    fn text(&self, alloc: Global, _: &Names, _: Writing) -> Result<Vec<u8>, AllocError> {
        write_graph(alloc, self.graph)
    }

    fn push_members(&self, object: &mut Object, _: &Names, _: Writing) -> Result<(), AllocError> {
        push_graph(object, self.graph)
    }
}
