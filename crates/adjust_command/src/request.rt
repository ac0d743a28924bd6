//! What `adjust` is asked for, read from its words.

ghost use Rattle.std.specs.Prelude.{List, IfOk, IsErrOf};
ghost use Rattle.command_words.specs.Vocabulary.{Use, HoldsCall};
ghost use Rattle.adjust_command.specs.Queries.{query_of, HasRange};

use crate::choosing::{has_most, query_from};
use crate::query::Query;
use command_words::forms::Entry;
use command_words::typed::{RequestFault, Subject, listed_names, number_or};
use command_words::values::Values;
use replies::Format;
use std::alloc::Global;

/// `adjust FILE [--x L] [--y L] [--set L [--back-door] | --most N] [--json]`
pub const ROW: Entry = Entry {
    name: "adjust",
    positionals: &["file"],
    optional: &[],
    required: &[],
    options: &["x", "y", "set", "most"],
    flags: &["back-door", "json"],
};

/// What is asked for.
#[derive(Drop)]
pub struct Request<'a> {
    pub file: &'a str,
    pub x: Option<Vec<Vec<u8>>>,
    pub y: Option<Vec<Vec<u8>>>,
    pub query: Query,
    pub format: Format,
    pub ghost range: { HasRange (query_of query) },
}

impl<'a> Request<'a> {
    ghost use Rattle.replies.specs.Command.{AsksNothing};
    ghost use Rattle.adjust_command.specs.Command.{adjust_command};
    ghost use Rattle.adjust_command.specs.Requests.{adjust_row, request_of, IsRequest};

    /// What the words ask for, exactly where their values are what they have to be.
    pub fn read(alloc: Global, values: &Values<'a>) -> Result<Self, RequestFault>
        ensures ok { (uses : List Use) → HoldsCall adjust_row uses values.now → IfOk result (λ r. IsRequest uses (request_of r)) }
        ensures none { (uses : List Use) → HoldsCall adjust_row uses values.now → IsErrOf result RequestFault.NotUnderstood → AsksNothing adjust_command uses }
    {
        let Subject { file, x, y } = Subject::read(alloc, values)?;
        let most = number_or(values, "most", 100, 1, 10_000)?;
        let back_door = values.flag("back-door");
        let set = listed_names(alloc, values, "set")?;
        let counted = has_most(values);
        let Some(query) = query_from(set, back_door, counted, most as u32) else {
            return Err(RequestFault::NotUnderstood);
        };
        let json = values.flag("json");
        let format = Format::of(json);
        Ok(Request {
            file,
            x,
            y,
            query,
            format,
        })
    }
}
