//! What `graph` is asked.

ghost use Rattle.std.specs.Prelude.{◌≡◌, List, IfOk, IsErrOf};
ghost use Rattle.command_words.specs.Vocabulary.{Use, HoldsCall};

use command_words::forms::Entry;
use command_words::typed::{RequestFault, required_word};
use command_words::values::Values;
use replies::Format;

/// `graph FILE [--project] [--json]`
pub const ROW: Entry = Entry {
    name: "graph",
    positionals: &["file"],
    optional: &[],
    required: &[],
    options: &[],
    flags: &["project", "json"],
};

/// What is asked for.
#[derive(Clone, Copy, Debug, PartialEq, Eq)]
pub struct Request<'a> {
    pub file: &'a str,
    pub project: bool,
    pub format: Format,
}

impl<'a> Request<'a> {
    ghost use Rattle.replies.specs.Command.{AsksNothing};
    ghost use Rattle.separation_commands.specs.GraphCommand.{graph_command};
    ghost use Rattle.separation_commands.specs.GraphRequests.{graph_row, request_of, IsRequest};

    /// What the words ask for, exactly where their values are what they have to be.
    pub fn read(values: &Values<'a>) -> Result<Self, RequestFault>
        ensures ok { (uses : List Use) → HoldsCall graph_row uses values.now → IfOk result (λ r. IsRequest uses (request_of r)) }
        ensures none { (uses : List Use) → HoldsCall graph_row uses values.now → IsErrOf result RequestFault.NotUnderstood → AsksNothing graph_command uses }
    {
        let file = required_word(values, "file")?;
        let project = values.flag("project");
        let json = values.flag("json");
        let format = Format::of(json);
        Ok(Request {
            file,
            project,
            format,
        })
    }
}
