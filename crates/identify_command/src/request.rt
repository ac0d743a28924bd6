//! What `identify` is asked.

ghost use Rattle.std.specs.Prelude.{◌≡◌, List, IfOk, IsErrOf};
ghost use Rattle.command_words.specs.Vocabulary.{Use, HoldsCall};

use crate::form::Form;
use command_words::forms::Entry;
use command_words::typed::{RequestFault, Subject, listed_names};
use command_words::values::Values;
use std::alloc::Global;

/// `identify FILE [--x L] [--y L] [--given L] [--certificate] [--latex] [--short] [--json]`
pub const ROW: Entry = Entry {
    name: "identify",
    positionals: &["file"],
    optional: &[],
    required: &[],
    options: &["x", "y", "given"],
    flags: &["certificate", "latex", "short", "json"],
};

/// What is asked for.
#[derive(Drop)]
pub struct Request<'a> {
    pub file: &'a str,
    pub x: Option<Vec<Vec<u8>>>,
    pub y: Option<Vec<Vec<u8>>>,
    pub given: Option<Vec<Vec<u8>>>,
    pub form: Form,
}

impl<'a> Request<'a> {
    ghost use Rattle.replies.specs.Command.{AsksNothing};
    ghost use Rattle.identify_command.specs.Command.{identify_command};
    ghost use Rattle.identify_command.specs.Requests.{identify_row, request_of, IsRequest};

    /// What the words ask for, exactly where their values are what they have to be.
    pub fn read(alloc: Global, values: &Values<'a>) -> Result<Self, RequestFault>
        ensures ok { (uses : List Use) → HoldsCall identify_row uses values.now → IfOk result (λ r. IsRequest uses (request_of r)) }
        ensures none { (uses : List Use) → HoldsCall identify_row uses values.now → IsErrOf result RequestFault.NotUnderstood → AsksNothing identify_command uses }
    {
        let certificate = values.flag("certificate");
        let latex = values.flag("latex");
        let short = values.flag("short");
        let json = values.flag("json");
        let Some(form) = Form::read(certificate, latex, short, json) else {
            return Err(RequestFault::NotUnderstood);
        };
        let Subject { file, x, y } = Subject::read(alloc, values)?;
        let given = listed_names(alloc, values, "given")?;
        Ok(Request {
            file,
            x,
            y,
            given,
            form,
        })
    }
}
