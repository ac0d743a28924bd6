//! What `instruments` is asked.

ghost use Rattle.std.specs.Prelude.{◌≡◌, ◌≤◌, List, IfOk, IsErrOf};
ghost use Rattle.command_words.specs.Vocabulary.{Use, HoldsCall};

use command_words::forms::Entry;
use command_words::typed::{RequestFault, Subject, number_or};
use command_words::values::Values;
use replies::Format;
use std::alloc::Global;

/// `instruments FILE [--x L] [--y L] [--most N] [--json]`
pub const ROW: Entry = Entry {
    name: "instruments",
    positionals: &["file"],
    optional: &[],
    required: &[],
    options: &["x", "y", "most"],
    flags: &["json"],
};

/// What is asked for.
#[derive(Drop)]
pub struct Request<'a> {
    pub file: &'a str,
    pub x: Option<Vec<Vec<u8>>>,
    pub y: Option<Vec<Vec<u8>>>,
    /// At most so many sets of a vertex, from 1 to 10,000.
    pub most: u32,
    pub format: Format,
    pub ghost some: { 1 ≤ most },
}

impl<'a> Request<'a> {
    ghost use Rattle.replies.specs.Command.{AsksNothing};
    ghost use Rattle.instruments_command.specs.Command.{instruments_command};
    ghost use Rattle.instruments_command.specs.Requests.{instruments_row, request_of, IsRequest};

    /// What the words ask for, exactly where their values are what they have to be.
    pub fn read(alloc: Global, values: &Values<'a>) -> Result<Self, RequestFault>
        ensures ok { (uses : List Use) → HoldsCall instruments_row uses values.now → IfOk result (λ r. IsRequest uses (request_of r)) }
        ensures none { (uses : List Use) → HoldsCall instruments_row uses values.now → IsErrOf result RequestFault.NotUnderstood → AsksNothing instruments_command uses }
    {
        let Subject { file, x, y } = Subject::read(alloc, values)?;
        let most = number_or(values, "most", 100, 1, 10_000)?;
        let json = values.flag("json");
        let format = Format::of(json);
        Ok(Request {
            file,
            x,
            y,
            most: most as u32,
            format,
        })
    }
}
