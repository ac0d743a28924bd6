//! What `implications` is asked.

ghost use Rattle.std.specs.Prelude.{◌≡◌, false, List, IfOk, IsErrOf, IsTrue, option_map};
ghost use Rattle.command_words.specs.Vocabulary.{Use, HoldsCall};
ghost use Rattle.implications_command.specs.Requests.{AreInputs};

use command_words::forms::Entry;
use command_words::typed::{RequestFault, are_both_standard, required_word, value_bytes};
use command_words::values::Values;
use replies::Format;

/// `implications FILE [COUNTS] [--count NAME] [--json]`
pub const ROW: Entry = Entry {
    name: "implications",
    positionals: &["file"],
    optional: &["counts"],
    required: &[],
    options: &["count"],
    flags: &["json"],
};

/// What is asked for.
#[derive(Drop)]
pub struct Request<'a> {
    pub file: &'a str,
    pub counts: Option<&'a str>,
    pub count: Option<&'a [u8]>,
    pub format: Format,
}

impl<'a> Request<'a> {
    ghost use Rattle.replies.specs.Command.{AsksNothing};
    ghost use Rattle.implications_command.specs.Command.{implications_command};
    ghost use Rattle.implications_command.specs.Requests.{implications_row, request_of, IsRequest};

    /// What the words ask for, exactly where their values are what they have to be.
    pub fn read(values: &Values<'a>) -> Result<Self, RequestFault>
        ensures ok { (uses : List Use) → HoldsCall implications_row uses values.now → IfOk result (λ r. IsRequest uses (request_of r)) }
        ensures none { (uses : List Use) → HoldsCall implications_row uses values.now → IsErrOf result RequestFault.NotUnderstood → AsksNothing implications_command uses }
    {
        let file = required_word(values, "file")?;
        let counts = values.word("counts");
        let count = value_bytes(values, "count");
        if !are_inputs(file, counts, count) {
            return Err(RequestFault::NotUnderstood);
        }
        let json = values.flag("json");
        let format = Format::of(json);
        Ok(Request {
            file,
            counts,
            count,
            format,
        })
    }
}

/// Whether the inputs go together: counts aren't standard input where the file is, and no column is named without counts.
fn are_inputs(file: &str, counts: Option<&str>, count: Option<&[u8]>) -> bool
    ensures yes { IsTrue result → AreInputs file.now (option_map (λ s. s.now) counts.entry) (option_map (λ s. s.now) count.entry) }
    ensures no { result ≡ false → AreInputs file.now (option_map (λ s. s.now) counts.entry) (option_map (λ s. s.now) count.entry) → ⊥ }
{
    match counts {
        Some(counts) => !are_both_standard(file, counts),
        None => count.is_none(),
    }
}
