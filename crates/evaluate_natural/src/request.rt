//! What `evaluate --natural` is asked.

ghost use Rattle.std.specs.Prelude.{◌≡◌, List, IfOk, IsErrOf};
ghost use Rattle.command_words.specs.Vocabulary.{Use, HoldsCall};

use crate::others::is_alone;
use command_words::typed::{
    RequestFault, Subject, names_or_empty, required_names, second_input, value_bytes,
};
use command_words::values::Values;
use replies::Format;
use std::alloc::Global;
use told::Form;

/// What is asked for: what `natural` is asked for, and over which counts.
#[derive(Drop)]
pub struct Request<'a> {
    pub effect: natural_command::Request<'a>,
    pub counts: &'a str,
    pub count: Option<&'a [u8]>,
    pub exact: bool,
}

impl<'a> Request<'a> {
    ghost use Rattle.replies.specs.Command.{AsksNothing};
    ghost use Rattle.evaluate_command.specs.Vocabulary.{evaluate_row};
    ghost use Rattle.evaluate_natural.specs.Command.{evaluate_natural_command};
    ghost use Rattle.evaluate_natural.specs.Requests.{request_of, IsRequest};

    /// What the words ask for, exactly where their values are what they have to be.
    pub fn read(alloc: Global, values: &Values<'a>) -> Result<Self, RequestFault>
        ensures ok { (uses : List Use) → HoldsCall evaluate_row uses values.now → IfOk result (λ r. IsRequest uses (request_of r)) }
        ensures none { (uses : List Use) → HoldsCall evaluate_row uses values.now → IsErrOf result RequestFault.NotUnderstood
            → AsksNothing evaluate_natural_command uses }
    {
        if !values.flag("natural") {
            return Err(RequestFault::NotUnderstood);
        }
        if !is_alone(values) {
            return Err(RequestFault::NotUnderstood);
        }
        let Subject { file, x, y } = Subject::read(alloc, values)?;
        let counts = second_input(values, file, "counts")?;
        let through = required_names(alloc, values, "through")?;
        let given = names_or_empty(alloc, values, "given")?;
        let count = value_bytes(values, "count");
        let exact = values.flag("exact");
        let format = Format::of(values.flag("json"));
        let form = Form::plain(format);
        Ok(Request {
            effect: natural_command::Request {
                file,
                x,
                y,
                through,
                given,
                form,
            },
            counts,
            count,
            exact,
        })
    }
}
