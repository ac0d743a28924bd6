// The diagram that a file holds, and the reply on what was read of a second input.

ghost use Rattle.std.specs.Prelude.{◌≤◌, ◌<◌, ℕ, List, ◌≡◌, IfOk, IfErr, length};
ghost use Rattle.replies.specs.Vocabulary.{HoldsDiagram};
ghost use Rattle.command_run.specs.Answers.{GivesSecond, RefusesBytes};
ghost use Rattle.command_run.specs.Ends.{GivesOnRead, IsMade};

use crate::request::SecondInput;
use causal_io::ReadError;
use dag_reader::read_graph;
use diagram::Diagram;
use replies::{Outcome, Reply, refuse_graph};
use std::alloc::{AllocError, Global};

/// The diagram that the bytes hold, of which there are at most 1,048,576; or the reply where they hold none.
pub fn read_diagram(alloc: Global, bytes: &[u8]) -> Result<Diagram, Reply>
    requires { length bytes.now ≤ 1048576 }
    ensures holds { IfOk result (HoldsDiagram bytes.now) }
    ensures refused { IfErr result (RefusesBytes bytes.now) }
{
    match read_graph(alloc, bytes) {
        Ok(read) => match Diagram::of(alloc, read) {
            Ok(diagram) => Ok(diagram),
            Err(_) => Err(Reply::bare(alloc, Outcome::Memory)),
        },
        Err(fault) => Err(or_memory(alloc, refuse_graph(alloc, &fault, bytes))),
    }
}

/// The reply on what was read of the second input.
pub fn reply_on_second<S: SecondInput>(
    alloc: Global,
    diagram: &Diagram,
    input: &S,
    read: Result<Vec<u8>, ReadError>,
) -> Result<Reply, AllocError>
    requires limit { IfOk read (λ other. length other.items ≤ (S.left diagram.now input.now).limit) }
    requires accepted { (S.left diagram.now input.now).known }
    ensures { IfOk result (GivesOnRead (S.left diagram.now input.now) read) }
{
    match read {
        Ok(other) => input.reply(alloc, diagram, &other),
        Err(ReadError::TooLong { limit: _ }) => input.long_reply(alloc, diagram),
        Err(ReadError::Fault) => Ok(Reply::bare(alloc, Outcome::Read)),
        Err(ReadError::NoMemory) => Err(AllocError),
    }
}

/// The reply, or that memory was refused for it.
pub fn or_memory(alloc: Global, reply: Result<Reply, AllocError>) -> Reply
    ensures { IsMade reply result }
{
    match reply {
        Ok(made) => made,
        Err(_) => Reply::bare(alloc, Outcome::Memory),
    }
}
