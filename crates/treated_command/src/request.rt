//! What `treated` is asked.

ghost use Rattle.std.specs.Prelude.{◌≡◌, List, IfOk, IsErrOf};
ghost use Rattle.command_words.specs.Vocabulary.{Use, HoldsCall};

use command_words::forms::Entry;
use command_words::typed::{RequestFault, Subject, names_or_empty};
use command_words::values::Values;
use derived_certificates::certified_form;
use std::alloc::Global;
use told::Form;

/// `treated FILE [--x L] [--y L] [--given L] [--certificate] [--latex] [--json]`
pub const ROW: Entry = Entry {
    name: "treated",
    positionals: &["file"],
    optional: &[],
    required: &[],
    options: &["x", "y", "given"],
    flags: &["certificate", "latex", "json"],
};

/// What is asked for.
#[derive(Drop)]
pub struct Request<'a> {
    pub file: &'a str,
    pub x: Option<Vec<Vec<u8>>>,
    pub y: Option<Vec<Vec<u8>>>,
    pub given: Vec<Vec<u8>>,
    pub form: Form,
}

impl<'a> Request<'a> {
    ghost use Rattle.replies.specs.Command.{AsksNothing};
    ghost use Rattle.treated_command.specs.Command.{treated_command};
    ghost use Rattle.treated_command.specs.Requests.{treated_row, request_of, IsRequest};

    /// What the words ask for, exactly where their values are what they have to be.
    pub fn read(alloc: Global, values: &Values<'a>) -> Result<Self, RequestFault>
        ensures ok { (uses : List Use) → HoldsCall treated_row uses values.now → IfOk result (λ r. IsRequest uses (request_of r)) }
        ensures none { (uses : List Use) → HoldsCall treated_row uses values.now → IsErrOf result RequestFault.NotUnderstood → AsksNothing treated_command uses }
    {
        let certificate = values.flag("certificate");
        let latex = values.flag("latex");
        let json = values.flag("json");
        let Some(form) = certified_form(certificate, latex, json) else {
            return Err(RequestFault::NotUnderstood);
        };
        let Subject { file, x, y } = Subject::read(alloc, values)?;
        let given = names_or_empty(alloc, values, "given")?;
        Ok(Request {
            file,
            x,
            y,
            given,
            form,
        })
    }
}
