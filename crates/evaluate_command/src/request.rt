//! What `evaluate` is asked.

ghost use Rattle.std.specs.Prelude.{◌≡◌, List, IfOk, IsErrOf};
ghost use Rattle.command_words.specs.Vocabulary.{Use, HoldsCall, names_in};
ghost use Rattle.std.specs.Prelude.{option_map};
ghost use Rattle.evaluate_command.specs.Ways.{way_of, way_for};

use crate::plain::is_plain;
use crate::way::Way;
use command_words::forms::Entry;
use command_words::typed::{
    RequestFault, Subject, listed_names, names_or_empty, second_input, value_bytes,
};
use command_words::values::Values;
use replies::Format;
use std::alloc::Global;

/// `evaluate FILE COUNTS [--x L] [--y L] [--given L] [--set L] [--back-door] [--count NAME] [--exact] [--zero] [--matched] [--short] [--treated] [--natural]
/// [--through L] [--json]`
pub const ROW: Entry = Entry {
    name: "evaluate",
    positionals: &["file", "counts"],
    optional: &[],
    required: &[],
    options: &["x", "y", "given", "set", "count", "through"],
    flags: &[
        "back-door",
        "exact",
        "zero",
        "matched",
        "short",
        "treated",
        "natural",
        "json",
    ],
};

/// What is asked for.
#[derive(Drop)]
pub struct Request<'a> {
    pub file: &'a str,
    pub counts: &'a str,
    pub x: Option<Vec<Vec<u8>>>,
    pub y: Option<Vec<Vec<u8>>>,
    pub way: Way,
    pub count: Option<&'a [u8]>,
    pub exact: bool,
    pub zero: bool,
    pub matched: bool,
    pub format: Format,
}

impl<'a> Request<'a> {
    ghost use Rattle.replies.specs.Command.{AsksNothing};
    ghost use Rattle.evaluate_command.specs.Command.{evaluate_command};
    ghost use Rattle.evaluate_command.specs.Requests.{evaluate_row, request_of, IsRequest};

    /// What the words ask for, exactly where their values are what they have to be.
    pub fn read(alloc: Global, values: &Values<'a>) -> Result<Self, RequestFault>
        ensures ok { (uses : List Use) → HoldsCall evaluate_row uses values.now → IfOk result (λ r. IsRequest uses (request_of r)) }
        ensures none { (uses : List Use) → HoldsCall evaluate_row uses values.now → IsErrOf result RequestFault.NotUnderstood → AsksNothing evaluate_command uses }
    {
        if !is_plain(values) {
            return Err(RequestFault::NotUnderstood);
        }
        let Subject { file, x, y } = Subject::read(alloc, values)?;
        let counts = second_input(values, file, "counts")?;
        let count = value_bytes(values, "count");
        let exact = values.flag("exact");
        let zero = values.flag("zero");
        let matched = values.flag("matched");
        let format = Format::of(values.flag("json"));
        let set = listed_names(alloc, values, "set")?;
        let given = names_or_empty(alloc, values, "given")?;
        let back_door = values.flag("back-door");
        let short = values.flag("short");
        let Some(way) = way_from(set, given, back_door, short) else {
            return Err(RequestFault::NotUnderstood);
        };
        Ok(Request {
            file,
            counts,
            x,
            y,
            way,
            count,
            exact,
            zero,
            matched,
            format,
        })
    }
}

/// The way that is asked for: a set excludes a condition and a short formula, and the back-door criterion needs a set.
fn way_from(
    set: Option<Vec<Vec<u8>>>,
    given: Vec<Vec<u8>>,
    back_door: bool,
    short: bool,
) -> Option<Way>
    ensures { option_map way_of result ≡ way_for (option_map names_in set) (names_in given) back_door short }
{
    let bare = given.is_empty();
    match set {
        Some(_) if !bare => None,
        Some(_) if short => None,
        Some(set) => Some(Way::Adjusting { set, back_door }),
        None if back_door => None,
        None if bare => Some(Way::Procedure { short }),
        None => Some(Way::Given {
            names: given,
            short,
        }),
    }
}
