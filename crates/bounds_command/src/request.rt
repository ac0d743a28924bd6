//! What `bounds` is asked.

ghost use Rattle.std.specs.Prelude.{ℕ, ◌≡◌, List, IfOk, IsErrOf, option_map};
ghost use Rattle.command_words.specs.Vocabulary.{Use, HoldsCall, names_in};
ghost use Rattle.bounds_command.specs.Ways.{way_of, way_for};

use crate::way::Way;
use command_words::forms::Entry;
use command_words::typed::{
    RequestFault, Subject, listed_names, names_or_empty, second_input, value_bytes,
};
use command_words::values::Values;
use replies::Format;
use std::alloc::Global;

/// `bounds FILE COUNTS [--x L] [--y L] [[--given L] [--instrument L [--strata L]] | --set L] [--count NAME] [--exact] [--json]`
pub const ROW: Entry = Entry {
    name: "bounds",
    positionals: &["file", "counts"],
    optional: &[],
    required: &[],
    options: &["x", "y", "given", "instrument", "strata", "set", "count"],
    flags: &["exact", "json"],
};

/// What is asked for.
#[derive(Drop)]
pub struct Request<'a> {
    pub file: &'a str,
    pub counts: &'a str,
    pub x: Option<Vec<Vec<u8>>>,
    pub y: Option<Vec<Vec<u8>>>,
    pub way: Way,
    pub count: Option<&'a [u8]>,
    pub exact: bool,
    pub format: Format,
}

impl<'a> Request<'a> {
    ghost use Rattle.replies.specs.Command.{AsksNothing};
    ghost use Rattle.bounds_command.specs.Command.{bounds_command};
    ghost use Rattle.bounds_command.specs.Requests.{bounds_row, request_of, IsRequest};

    /// What the words ask for, exactly where their values are what they have to be.
    pub fn read(alloc: Global, values: &Values<'a>) -> Result<Self, RequestFault>
        ensures ok { (uses : List Use) → HoldsCall bounds_row uses values.now → IfOk result (λ r. IsRequest uses (request_of r)) }
        ensures none { (uses : List Use) → HoldsCall bounds_row uses values.now → IsErrOf result RequestFault.NotUnderstood → AsksNothing bounds_command uses }
    {
        let Subject { file, x, y } = Subject::read(alloc, values)?;
        let counts = second_input(values, file, "counts")?;
        let count = value_bytes(values, "count");
        let exact = values.flag("exact");
        let format = Format::of(values.flag("json"));
        let set = listed_names(alloc, values, "set")?;
        let given = names_or_empty(alloc, values, "given")?;
        let instruments = names_or_empty(alloc, values, "instrument")?;
        let strata = names_or_empty(alloc, values, "strata")?;
        let Some(way) = way_from(set, given, instruments, strata) else {
            return Err(RequestFault::NotUnderstood);
        };
        Ok(Request {
            file,
            counts,
            x,
            y,
            way,
            count,
            exact,
            format,
        })
    }
}

/// The way that is asked for: strata are named only where instruments are, and a set excludes a condition, instruments and strata.
fn way_from(
    set: Option<Vec<Vec<u8>>>,
    given: Vec<Vec<u8>>,
    instruments: Vec<Vec<u8>>,
    strata: Vec<Vec<u8>>,
) -> Option<Way>
    ensures { option_map way_of result ≡ way_for (option_map names_in set) (names_in given) (names_in instruments) (names_in strata) }
{
    let (bare, without, unstratified) = (
        given.is_empty(),
        instruments.is_empty(),
        strata.is_empty(),
    );
    match set {
        Some(_) if !bare => None,
        Some(_) if !without => None,
        Some(_) if !unstratified => None,
        Some(set) => Some(Way::Adjusting { set }),
        None if without && !unstratified => None,
        None => Some(Way::Instruments {
            given,
            instruments,
            strata,
        }),
    }
}
