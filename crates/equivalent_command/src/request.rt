//! What `equivalent` is asked.

ghost use Rattle.std.specs.Prelude.{◌≡◌, true, false, IsTrue, List, Option, None, IfOk, IsErrOf, codes, option_map};
ghost use Rattle.command_words.specs.Vocabulary.{Use, is_among, value_names, value_of, HoldsCall};
ghost use Rattle.equivalent_command.specs.Requests.{Query as AskedQuery, equivalent_row, query_of, IsQuery};

use command_words::forms::Entry;
use command_words::typed::{
    RequestFault, names_or_empty, required_names, required_word, second_input,
};
use command_words::values::Values;
use replies::Format;
use std::alloc::Global;

/// `equivalent FILE FILE2 [--x L] [--y L] [--given L] [--json]`
pub const ROW: Entry = Entry {
    name: "equivalent",
    positionals: &["file", "second"],
    optional: &[],
    required: &[],
    options: &["x", "y", "given"],
    flags: &["json"],
};

/// The lists of a separation that is asked about, with names of the first graph.
#[derive(Drop)]
pub struct Query {
    pub x: Vec<Vec<u8>>,
    pub y: Vec<Vec<u8>>,
    pub given: Vec<Vec<u8>>,
}

/// What is asked for.
#[derive(Drop)]
pub struct Request<'a> {
    pub file: &'a str,
    pub second: &'a str,
    pub query: Option<Query>,
    pub format: Format,
}

/// Whether the option is given.
fn is_given(values: &Values<'_>, name: &str) -> bool
    ensures yes { (uses : List Use) → HoldsCall equivalent_row uses values.now → is_among (value_names equivalent_row) name.now ≡ true → result ≡ true → value_of uses name.now ≡ None → ⊥ }
    ensures no { (uses : List Use) → HoldsCall equivalent_row uses values.now → is_among (value_names equivalent_row) name.now ≡ true → result ≡ false → value_of uses name.now ≡ None }
{
    match values.option(name) {
        Some(_) => true,
        None => false,
    }
}

/// Whether none of the three lists is given.
fn has_no_list(values: &Values<'_>) -> bool
    ensures yes { (uses : List Use) → HoldsCall equivalent_row uses values.now → IsTrue result
        → IsQuery (value_of uses (codes "x")) (value_of uses (codes "y")) (value_of uses (codes "given")) None }
    ensures no { (uses : List Use) → HoldsCall equivalent_row uses values.now → result ≡ false
        → IsQuery (value_of uses (codes "x")) (value_of uses (codes "y")) (value_of uses (codes "given")) None → ⊥ }
{
    if is_given(values, "x") {
        return false;
    }
    if is_given(values, "y") {
        return false;
    }
    if is_given(values, "given") {
        return false;
    }
    true
}

/// The lists, where x and y are both given; without any of the three options there are none.
fn read_query(alloc: Global, values: &Values<'_>) -> Result<Option<Query>, RequestFault>
    ensures ok { (uses : List Use) → HoldsCall equivalent_row uses values.now
        → IfOk result (λ q. IsQuery (value_of uses (codes "x")) (value_of uses (codes "y")) (value_of uses (codes "given")) (option_map query_of q)) }
    ensures none { (uses : List Use) → HoldsCall equivalent_row uses values.now → IsErrOf result RequestFault.NotUnderstood
        → (q : Option AskedQuery) → IsQuery (value_of uses (codes "x")) (value_of uses (codes "y")) (value_of uses (codes "given")) q → ⊥ }
{
    if has_no_list(values) {
        return Ok(None);
    }
    let x = required_names(alloc, values, "x")?;
    let y = required_names(alloc, values, "y")?;
    let given = names_or_empty(alloc, values, "given")?;
    Ok(Some(Query { x, y, given }))
}

impl<'a> Request<'a> {
    ghost use Rattle.replies.specs.Command.{AsksNothing};
    ghost use Rattle.equivalent_command.specs.Command.{equivalent_command};
    ghost use Rattle.equivalent_command.specs.Requests.{request_of, IsRequest};

    /// What the words ask for, exactly where their values are what they have to be.
    pub fn read(alloc: Global, values: &Values<'a>) -> Result<Self, RequestFault>
        ensures ok { (uses : List Use) → HoldsCall equivalent_row uses values.now → IfOk result (λ r. IsRequest uses (request_of r)) }
        ensures none { (uses : List Use) → HoldsCall equivalent_row uses values.now → IsErrOf result RequestFault.NotUnderstood → AsksNothing equivalent_command uses }
    {
        let file = required_word(values, "file")?;
        let second = second_input(values, file, "second")?;
        let query = read_query(alloc, values)?;
        let json = values.flag("json");
        let format = Format::of(json);
        Ok(Request {
            file,
            second,
            query,
            format,
        })
    }
}
