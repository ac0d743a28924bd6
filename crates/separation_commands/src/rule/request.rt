//! What `rule` is asked.

ghost use Rattle.std.specs.Prelude.{◌≡◌, List, IfOk, IsErrOf};
ghost use Rattle.command_words.specs.Vocabulary.{Use, HoldsCall};

use command_words::forms::Entry;
use command_words::typed::{
    RequestFault, names_or_empty, required_names, required_number, required_word,
};
use command_words::values::Values;
use do_rules::Rule;
use replies::Format;
use std::alloc::Global;

/// `rule FILE --rule N --y L --z L [--do L] [--given L] [--json]`
pub const ROW: Entry = Entry {
    name: "rule",
    positionals: &["file"],
    optional: &[],
    required: &["rule", "y", "z"],
    options: &["do", "given"],
    flags: &["json"],
};

/// What is asked for.
#[derive(Drop)]
pub struct Request<'a> {
    pub file: &'a str,
    pub rule: Rule,
    pub y: Vec<Vec<u8>>,
    pub x: Vec<Vec<u8>>,
    pub z: Vec<Vec<u8>>,
    pub given: Vec<Vec<u8>>,
    pub format: Format,
}

impl<'a> Request<'a> {
    ghost use Rattle.replies.specs.Command.{AsksNothing};
    ghost use Rattle.separation_commands.specs.RuleCommand.{rule_command};
    ghost use Rattle.separation_commands.specs.RuleRequests.{rule_row, request_of, IsRequest};

    /// What the words ask for, exactly where their values are what they have to be.
    pub fn read(alloc: Global, values: &Values<'a>) -> Result<Self, RequestFault>
        ensures ok { (uses : List Use) → HoldsCall rule_row uses values.now → IfOk result (λ r. IsRequest uses (request_of r)) }
        ensures none { (uses : List Use) → HoldsCall rule_row uses values.now → IsErrOf result RequestFault.NotUnderstood → AsksNothing rule_command uses }
    {
        let file = required_word(values, "file")?;
        let number = required_number(values, "rule", 1, 3)?;
        let y = required_names(alloc, values, "y")?;
        let x = names_or_empty(alloc, values, "do")?;
        let z = required_names(alloc, values, "z")?;
        let given = names_or_empty(alloc, values, "given")?;
        let json = values.flag("json");
        let format = Format::of(json);
        Ok(Request {
            file,
            rule: Rule::of(number),
            y,
            x,
            z,
            given,
            format,
        })
    }
}
