//! What `check` is asked.

ghost use Rattle.std.specs.Prelude.{◌≡◌, ℕ, List, true, IfOk, IsErrOf};
ghost use Rattle.command_words.specs.Vocabulary.{Row, Text, Use, is_among, value_names, value_of, HoldsCall};
ghost use Rattle.experiment_lists.specs.Vocabulary.{lists_in, AreOptionalExperiments, Lists};

use command_words::forms::Entry;
use command_words::typed::{RequestFault, required_word, second_input};
use command_words::values::Values;
use experiment_lists::read_experiments;
use replies::Format;
use std::alloc::Global;

/// `check FILE CERTIFICATE [--experiments E] [--json]`
pub const ROW: Entry = Entry {
    name: "check",
    positionals: &["file", "certificate"],
    optional: &[],
    required: &[],
    options: &["experiments"],
    flags: &["json"],
};

/// What is asked for.
#[derive(Drop)]
pub struct Request<'a> {
    pub file: &'a str,
    pub certificate: &'a str,
    pub experiments: Vec<Vec<Vec<u8>>>,
    pub format: Format,
}

impl<'a> Request<'a> {
    ghost use Rattle.check_command.specs.Requests.{Request as Asked, certificate_row, request_of, IsRequest};

    /// What the words ask for of a command of any name, exactly where their values are what they have to be.
    pub fn read_named(alloc: Global, values: &Values<'a>) -> Result<Self, RequestFault>
        ensures ok { (name : Text) (uses : List Use) → HoldsCall (certificate_row name) uses values.now → IfOk result (λ r. IsRequest uses (request_of r)) }
        ensures none { (name : Text) (uses : List Use) → HoldsCall (certificate_row name) uses values.now → IsErrOf result RequestFault.NotUnderstood
            → (q : Asked) → IsRequest uses q → ⊥ }
    {
        let file = required_word(values, "file")?;
        let certificate = second_input(values, file, "certificate")?;
        let experiments = optional_experiments(alloc, values, "experiments")?;
        let format = Format::of(values.flag("json"));
        Ok(Request {
            file,
            certificate,
            experiments,
            format,
        })
    }
}

/// The experiments that the value of an option lists; none where it is missing.
pub fn optional_experiments(
    alloc: Global,
    values: &Values<'_>,
    name: &str,
) -> Result<Vec<Vec<Vec<u8>>>, RequestFault>
    ensures ok { (row : Row) (uses : List Use) → HoldsCall row uses values.now → is_among (value_names row) name.now ≡ true → IfOk result (λ v. AreOptionalExperiments (value_of uses name.now) (lists_in v)) }
    ensures none { (row : Row) (uses : List Use) → HoldsCall row uses values.now → is_among (value_names row) name.now ≡ true → IsErrOf result RequestFault.NotUnderstood
        → (lists : Lists) → AreOptionalExperiments (value_of uses name.now) lists → ⊥ }
{
    match values.option(name) {
        None => Ok(Vec::new(alloc)),
        Some(text) => match read_experiments(alloc, text) {
            Ok(Some(experiments)) => Ok(experiments),
            Ok(None) => Err(RequestFault::NotUnderstood),
            Err(_) => Err(RequestFault::NoMemory),
        },
    }
}
