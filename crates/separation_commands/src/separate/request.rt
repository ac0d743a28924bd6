//! What `separate` is asked.

ghost use Rattle.std.specs.Prelude.{◌≡◌, List, IfOk, IsErrOf};
ghost use Rattle.command_words.specs.Vocabulary.{Use, HoldsCall};

use command_words::forms::Entry;
use command_words::typed::{RequestFault, Subject, listed_names};
use command_words::values::Values;
use replies::Format;
use std::alloc::Global;

/// `separate FILE [--x L] [--y L] [--given L] [--json]`
pub const ROW: Entry = Entry {
    name: "separate",
    positionals: &["file"],
    optional: &[],
    required: &[],
    options: &["x", "y", "given"],
    flags: &["json"],
};

/// What is asked for.
#[derive(Drop)]
pub struct Request<'a> {
    pub file: &'a str,
    pub x: Option<Vec<Vec<u8>>>,
    pub y: Option<Vec<Vec<u8>>>,
    pub given: Option<Vec<Vec<u8>>>,
    pub format: Format,
}

impl<'a> Request<'a> {
    ghost use Rattle.replies.specs.Command.{AsksNothing};
    ghost use Rattle.separation_commands.specs.SeparateCommand.{separate_command};
    ghost use Rattle.separation_commands.specs.SeparateRequests.{separate_row, request_of, IsRequest};

    /// What the words ask for, exactly where their values are what they have to be.
    pub fn read(alloc: Global, values: &Values<'a>) -> Result<Self, RequestFault>
        ensures ok { (uses : List Use) → HoldsCall separate_row uses values.now → IfOk result (λ r. IsRequest uses (request_of r)) }
        ensures none { (uses : List Use) → HoldsCall separate_row uses values.now → IsErrOf result RequestFault.NotUnderstood → AsksNothing separate_command uses }
    {
        let Subject { file, x, y } = Subject::read(alloc, values)?;
        let given = listed_names(alloc, values, "given")?;
        let json = values.flag("json");
        let format = Format::of(json);
        Ok(Request {
            file,
            x,
            y,
            given,
            format,
        })
    }
}
