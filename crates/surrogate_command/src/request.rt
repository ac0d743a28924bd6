//! What `surrogate` is asked.

ghost use Rattle.std.specs.Prelude.{◌≡◌, ℕ, List, true, IfOk, IsErrOf};
ghost use Rattle.command_words.specs.Vocabulary.{Row, Use, is_among, value_names, value_of, HoldsCall};
ghost use Rattle.experiment_lists.specs.Vocabulary.{AreFilled, AreNeededExperiments, Lists, lists_in};

use crate::form::Form;
use command_words::forms::Entry;
use command_words::typed::{RequestFault, Subject};
use command_words::values::Values;
use experiment_lists::read_experiments;
use std::alloc::Global;

/// `surrogate FILE [--x L] [--y L] --experiments E [--models] [--certificate] [--json]`
pub const ROW: Entry = Entry {
    name: "surrogate",
    positionals: &["file"],
    optional: &[],
    required: &["experiments"],
    options: &["x", "y"],
    flags: &["models", "certificate", "json"],
};

/// What is asked for.
#[derive(Drop)]
pub struct Request<'a> {
    pub file: &'a str,
    pub x: Option<Vec<Vec<u8>>>,
    pub y: Option<Vec<Vec<u8>>>,
    pub experiments: Vec<Vec<Vec<u8>>>,
    pub form: Form,
    pub ghost filled: { AreFilled (lists_in experiments) },
}

impl<'a> Request<'a> {
    ghost use Rattle.replies.specs.Command.{AsksNothing};
    ghost use Rattle.surrogate_command.specs.Command.{surrogate_command};
    ghost use Rattle.surrogate_command.specs.Requests.{surrogate_row, request_of, IsRequest};

    /// What the words ask for, exactly where their values are what they have to be.
    pub fn read(alloc: Global, values: &Values<'a>) -> Result<Self, RequestFault>
        ensures ok { (uses : List Use) → HoldsCall surrogate_row uses values.now → IfOk result (λ r. IsRequest uses (request_of r)) }
        ensures none { (uses : List Use) → HoldsCall surrogate_row uses values.now → IsErrOf result RequestFault.NotUnderstood → AsksNothing surrogate_command uses }
    {
        let models = values.flag("models");
        let certificate = values.flag("certificate");
        let json = values.flag("json");
        let Some(form) = Form::read(models, certificate, json) else {
            return Err(RequestFault::NotUnderstood);
        };
        let Subject { file, x, y } = Subject::read(alloc, values)?;
        let experiments = needed_experiments(alloc, values, "experiments")?;
        Ok(Request {
            file,
            x,
            y,
            experiments,
            form,
        })
    }
}

/// The experiments that the value of an option lists.
fn needed_experiments(
    alloc: Global,
    values: &Values<'_>,
    name: &str,
) -> Result<Vec<Vec<Vec<u8>>>, RequestFault>
    ensures ok { (row : Row) (uses : List Use) → HoldsCall row uses values.now → is_among (value_names row) name.now ≡ true → IfOk result (λ v. AreNeededExperiments (value_of uses name.now) (lists_in v)) }
    ensures none { (row : Row) (uses : List Use) → HoldsCall row uses values.now → is_among (value_names row) name.now ≡ true → IsErrOf result RequestFault.NotUnderstood
        → (lists : Lists) → AreNeededExperiments (value_of uses name.now) lists → ⊥ }
    ensures filled { IfOk result (λ v. AreFilled (lists_in v)) }
{
    match values.option(name) {
        None => Err(RequestFault::NotUnderstood),
        Some(text) => match read_experiments(alloc, text) {
            Ok(Some(experiments)) => Ok(experiments),
            Ok(None) => Err(RequestFault::NotUnderstood),
            Err(_) => Err(RequestFault::NoMemory),
        },
    }
}
