//! The law that what is written is read back.

ghost use Rattle.std.specs.Prelude.{Ok, Result};
ghost use Rattle.dag_reader.specs.declared.graph.ReadGraph.{ReadGraph};
ghost use Rattle.dag_reader.specs.declared.faults.GraphFault.{GraphFault};
ghost use Rattle.dag_reader.specs.Reads.{Reads};
ghost use Rattle.dag_reader.specs.Written.{drawn_of, written};
ghost use Rattle.dag_reader.specs.RoundTrip.{IsReadBack};

/// The text that is written of a graph is read as that graph, and as nothing else.
pub fn the_written_text()
    ensures read { (g : ReadGraph) → Reads (written (drawn_of g)) (Ok g) }
    ensures back { (g : ReadGraph) (r : Result ReadGraph GraphFault) → Reads (written (drawn_of g)) r → IsReadBack g r }
{}
