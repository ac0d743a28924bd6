//! The values of requests: words, lists of names and numbers, each exactly where the words have it.
ghost use Rattle.std.specs.Prelude.{◌≡◌, ◌≤◌, ℕ, List, Option, Some, true, false, IfOk, IsErrOf, IsTrue, option_map};
ghost use Rattle.command_words.specs.Form.{Text, Row, Use, is_among, value_names, positional_names, value_of, word_of};
ghost use Rattle.command_words.specs.Gives.{HoldsCall};
ghost use Rattle.command_words.specs.Lists.{IsList};
ghost use Rattle.command_words.specs.ListViews.{names_in};
ghost use Rattle.command_words.specs.Values.{IsListed, IsListedOrEmpty, IsRequiredList, IsRequiredNumber, IsNumberOr, AreTwoInputs, HasSubject, IsSubject};

use crate::lists::{read_list, read_number};
use crate::values::Values;
use std::alloc::Global;

/// Why words of the form ask for nothing.
#[derive(Clone, Copy, Debug, PartialEq, Eq)]
pub enum RequestFault {
    /// A value isn't what it has to be.
    NotUnderstood,
    /// Memory was refused.
    NoMemory,
}

/// The word of a positional.
pub fn required_word<'a>(values: &Values<'a>, name: &str) -> Result<&'a str, RequestFault>
    ensures ok { (row : Row) (uses : List Use) → HoldsCall row uses values.now → is_among (positional_names row) name.now ≡ true → IfOk result (λ s. word_of row uses name.now ≡ Some s.now) }
    ensures none { (row : Row) (uses : List Use) → HoldsCall row uses values.now → is_among (positional_names row) name.now ≡ true → IsErrOf result RequestFault.NotUnderstood
        → (text : Text) → word_of row uses name.now ≡ Some text → ⊥ }
    ensures memory { IsErrOf result RequestFault.NoMemory → ⊥ }
{
    match values.word(name) {
        Some(word) => Ok(word),
        None => Err(RequestFault::NotUnderstood),
    }
}

/// The names that a text lists.
fn names_of(alloc: Global, text: &str) -> Result<Vec<Vec<u8>>, RequestFault>
    ensures ok { IfOk result (λ names. IsList text.now (names_in names)) }
    ensures none { IsErrOf result RequestFault.NotUnderstood → (names : List (List ℕ)) → IsList text.now names → ⊥ }
{
    match read_list(alloc, text) {
        Ok(Some(names)) => Ok(names),
        Ok(None) => Err(RequestFault::NotUnderstood),
        Err(_) => Err(RequestFault::NoMemory),
    }
}

/// The names that the value of an option lists, where it is given.
pub fn listed_names(
    alloc: Global,
    values: &Values<'_>,
    name: &str,
) -> Result<Option<Vec<Vec<u8>>>, RequestFault>
    ensures ok { (row : Row) (uses : List Use) → HoldsCall row uses values.now → is_among (value_names row) name.now ≡ true → IfOk result (λ names. IsListed (value_of uses name.now) (option_map names_in names)) }
    ensures none { (row : Row) (uses : List Use) → HoldsCall row uses values.now → is_among (value_names row) name.now ≡ true → IsErrOf result RequestFault.NotUnderstood
        → (names : Option (List (List ℕ))) → IsListed (value_of uses name.now) names → ⊥ }
{
    let Some(text) = values.option(name) else {
        return Ok(None);
    };
    let names = names_of(alloc, text)?;
    Ok(Some(names))
}

/// The names that the value of an option lists; none where it isn't given.
pub fn names_or_empty(
    alloc: Global,
    values: &Values<'_>,
    name: &str,
) -> Result<Vec<Vec<u8>>, RequestFault>
    ensures ok { (row : Row) (uses : List Use) → HoldsCall row uses values.now → is_among (value_names row) name.now ≡ true → IfOk result (λ names. IsListedOrEmpty (value_of uses name.now) (names_in names)) }
    ensures none { (row : Row) (uses : List Use) → HoldsCall row uses values.now → is_among (value_names row) name.now ≡ true → IsErrOf result RequestFault.NotUnderstood
        → (names : List (List ℕ)) → IsListedOrEmpty (value_of uses name.now) names → ⊥ }
{
    match values.option(name) {
        None => Ok(Vec::new(alloc)),
        Some(text) => names_of(alloc, text),
    }
}

/// The names that the value of an option lists.
pub fn required_names(
    alloc: Global,
    values: &Values<'_>,
    name: &str,
) -> Result<Vec<Vec<u8>>, RequestFault>
    ensures ok { (row : Row) (uses : List Use) → HoldsCall row uses values.now → is_among (value_names row) name.now ≡ true → IfOk result (λ names. IsRequiredList (value_of uses name.now) (names_in names)) }
    ensures none { (row : Row) (uses : List Use) → HoldsCall row uses values.now → is_among (value_names row) name.now ≡ true → IsErrOf result RequestFault.NotUnderstood
        → (names : List (List ℕ)) → IsRequiredList (value_of uses name.now) names → ⊥ }
{
    match values.option(name) {
        None => Err(RequestFault::NotUnderstood),
        Some(text) => names_of(alloc, text),
    }
}

/// The number that a text is, in its range, where there is a text.
fn number_of(text: Option<&str>, low: u64, high: u64) -> Result<u64, RequestFault>
    ensures ok { IfOk result (λ n. IsRequiredNumber (option_map (λ s. s.now) text.entry) low high n) }
    ensures none { IsErrOf result RequestFault.NotUnderstood → (n : ℕ) → IsRequiredNumber (option_map (λ s. s.now) text.entry) low high n → ⊥ }
    ensures low { IfOk result (λ n. low ≤ n) }
    ensures high { IfOk result (λ n. n ≤ high) }
    ensures memory { IsErrOf result RequestFault.NoMemory → ⊥ }
{
    match text {
        None => Err(RequestFault::NotUnderstood),
        Some(text) => match read_number(text, low, high) {
            Some(number) => Ok(number),
            None => Err(RequestFault::NotUnderstood),
        },
    }
}

/// The number that the value of an option is, in its range.
pub fn required_number(
    values: &Values<'_>,
    name: &str,
    low: u64,
    high: u64,
) -> Result<u64, RequestFault>
    ensures ok { (row : Row) (uses : List Use) → HoldsCall row uses values.now → is_among (value_names row) name.now ≡ true → IfOk result (λ n. IsRequiredNumber (value_of uses name.now) low high n) }
    ensures none { (row : Row) (uses : List Use) → HoldsCall row uses values.now → is_among (value_names row) name.now ≡ true → IsErrOf result RequestFault.NotUnderstood
        → (n : ℕ) → IsRequiredNumber (value_of uses name.now) low high n → ⊥ }
    ensures low { IfOk result (λ n. low ≤ n) }
    ensures high { IfOk result (λ n. n ≤ high) }
{
    number_of(values.option(name), low, high)
}

/// The number that the word of a positional is, in its range.
pub fn number_word(
    values: &Values<'_>,
    name: &str,
    low: u64,
    high: u64,
) -> Result<u64, RequestFault>
    ensures ok { (row : Row) (uses : List Use) → HoldsCall row uses values.now → is_among (positional_names row) name.now ≡ true → IfOk result (λ n. IsRequiredNumber (word_of row uses name.now) low high n) }
    ensures none { (row : Row) (uses : List Use) → HoldsCall row uses values.now → is_among (positional_names row) name.now ≡ true → IsErrOf result RequestFault.NotUnderstood
        → (n : ℕ) → IsRequiredNumber (word_of row uses name.now) low high n → ⊥ }
    ensures memory { IsErrOf result RequestFault.NoMemory → ⊥ }
{
    number_of(values.word(name), low, high)
}

/// The number that the value of an option is, in its range; the default where it isn't given.
pub fn number_or(
    values: &Values<'_>,
    name: &str,
    default: u64,
    low: u64,
    high: u64,
) -> Result<u64, RequestFault>
    requires low { low ≤ default }
    requires high { default ≤ high }
    ensures ok { (row : Row) (uses : List Use) → HoldsCall row uses values.now → is_among (value_names row) name.now ≡ true → IfOk result (λ n. IsNumberOr default (value_of uses name.now) low high n) }
    ensures none { (row : Row) (uses : List Use) → HoldsCall row uses values.now → is_among (value_names row) name.now ≡ true → IsErrOf result RequestFault.NotUnderstood
        → (n : ℕ) → IsNumberOr default (value_of uses name.now) low high n → ⊥ }
    ensures low { IfOk result (λ n. low ≤ n) }
    ensures high { IfOk result (λ n. n ≤ high) }
{
    match values.option(name) {
        None => Ok(default),
        Some(text) => number_of(Some(text), low, high),
    }
}

/// Whether both inputs are standard input.
pub fn are_both_standard(file: &str, second: &str) -> bool
    ensures yes { IsTrue result → AreTwoInputs file.now second.now → ⊥ }
    ensures no { result ≡ false → AreTwoInputs file.now second.now }
{
    file == "-" && second == "-"
}

/// The word of a second input, which isn't standard input where the file is.
pub fn second_input<'a>(
    values: &Values<'a>,
    file: &str,
    name: &str,
) -> Result<&'a str, RequestFault>
    ensures ok { (row : Row) (uses : List Use) → HoldsCall row uses values.now → is_among (positional_names row) name.now ≡ true → IfOk result (λ s. word_of row uses name.now ≡ Some s.now) }
    ensures inputs { IfOk result (λ s. AreTwoInputs file.now s.now) }
    ensures none { (row : Row) (uses : List Use) → HoldsCall row uses values.now → is_among (positional_names row) name.now ≡ true → IsErrOf result RequestFault.NotUnderstood
        → (text : Text) → word_of row uses name.now ≡ Some text → AreTwoInputs file.now text → ⊥ }
    ensures memory { IsErrOf result RequestFault.NoMemory → ⊥ }
{
    let second = required_word(values, name)?;
    if are_both_standard(file, second) {
        return Err(RequestFault::NotUnderstood);
    }
    Ok(second)
}

/// The bytes of the value of an option, where it is given.
pub fn value_bytes<'a>(values: &Values<'a>, name: &str) -> Option<&'a [u8]>
    ensures { (row : Row) (uses : List Use) → HoldsCall row uses values.now → is_among (value_names row) name.now ≡ true → option_map (λ s. s.now) result ≡ value_of uses name.now }
{
    match values.option(name) {
        Some(text) => Some(text.as_bytes()),
        None => None,
    }
}

/// What a question is about: the file, and the lists x and y where they are given.
#[derive(Drop)]
pub struct Subject<'a> {
    pub file: &'a str,
    pub x: Option<Vec<Vec<u8>>>,
    pub y: Option<Vec<Vec<u8>>>,
}

impl<'a> Subject<'a> {
    /// The subject that the words name, exactly where their values are what they have to be.
    pub fn read(alloc: Global, values: &Values<'a>) -> Result<Self, RequestFault>
        ensures ok { (row : Row) (uses : List Use) → HoldsCall row uses values.now → HasSubject row → IfOk result (λ s. IsSubject row uses s.file.now (option_map names_in s.x) (option_map names_in s.y)) }
        ensures none { (row : Row) (uses : List Use) → HoldsCall row uses values.now → HasSubject row → IsErrOf result RequestFault.NotUnderstood
            → (file : Text) (x y : Option (List (List ℕ))) → IsSubject row uses file x y → ⊥ }
    {
        let file = required_word(values, "file")?;
        let x = listed_names(alloc, values, "x")?;
        let y = listed_names(alloc, values, "y")?;
        Ok(Subject { file, x, y })
    }
}
