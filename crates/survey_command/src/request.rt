//! What `survey` is asked.

ghost use Rattle.std.specs.Prelude.{◌≡◌, List, IfOk, IsErrOf};
ghost use Rattle.command_words.specs.Vocabulary.{Use, HoldsCall};

use command_words::forms::Entry;
use command_words::typed::{RequestFault, number_word};
use command_words::values::Values;
use replies::Format;

/// `survey N [--json]`
pub const ROW: Entry = Entry {
    name: "survey",
    positionals: &["number"],
    optional: &[],
    required: &[],
    options: &[],
    flags: &["json"],
};

/// What is asked for.
#[derive(Clone, Copy, Debug, PartialEq, Eq)]
pub struct Request {
    pub seed: u64,
    pub format: Format,
}

impl Request {
    ghost use Rattle.replies.specs.Command.{AsksNothing};
    ghost use Rattle.survey_command.specs.Command.{survey_command};
    ghost use Rattle.survey_command.specs.Requests.{survey_row, request_of, IsRequest};

    /// What the words ask for, exactly where their values are what they have to be.
    pub fn read(values: &Values<'_>) -> Result<Self, RequestFault>
        ensures ok { (uses : List Use) → HoldsCall survey_row uses values.now → IfOk result (λ r. IsRequest uses (request_of r)) }
        ensures none { (uses : List Use) → HoldsCall survey_row uses values.now → IsErrOf result RequestFault.NotUnderstood → AsksNothing survey_command uses }
    {
        let seed = number_word(values, "number", 0, u64::MAX)?;
        let json = values.flag("json");
        let format = Format::of(json);
        Ok(Request { seed, format })
    }
}
