//! The form of the words of a command line, by a table of commands: the first word names a command, and
//! the others are its positionals in order and, anywhere among them, its options and flags, each as often
//! as the table allows. The words spell one call at most, and it is found exactly where there is one.
ghost use Rattle.std.specs.Prelude.{◌≡◌, ◌==◌, ◌&&◌, ◌||◌, ◌+◌, ◌<◌, ◌≤◌, ℕ, List, length, IfOk, IfSome, IfNone, Some, None, true, false, option_map, map, nat_le};
ghost use Rattle.std.specs.List.{list_all};
ghost use Rattle.clap.specs.Lexer.{strip_byte, name_and_value, long_of};
ghost use Rattle.command_words.specs.Form.{is_value, is_positional, is_among, value_names, row_named, times, words_in, is_of, is_complete, IsCall, IsOnlyCall, HasForm, is_clear};
ghost use Rattle.command_words.specs.Step.{step_word, step_long, uses_of};
ghost use Rattle.command_words.specs.Views.{texts, texts_of, row_of, use_of, uses_in, step_of, waiting_of, call_of};

use std::alloc::{AllocError, Global};

/// A command of the table: the names of its positionals, and after these of those that may be left out;
/// of the options that have to stand, and of those that may be left out; and of its flags. Names stand
/// without their hyphens.
#[derive(Clone, Copy)]
pub struct Entry {
    pub name: &'static str,
    pub positionals: &'static [&'static str],
    pub optional: &'static [&'static str],
    pub required: &'static [&'static str],
    pub options: &'static [&'static str],
    pub flags: &'static [&'static str],
}

/// What one or two words after the command do: a positional; an option and its value, in two words or
/// in one; a flag.
#[derive(Clone, Copy, Debug, PartialEq)]
pub enum Used<'a> {
    Positional(&'a str),
    Apart(&'a str, &'a str),
    Joined(&'a str, &'a str),
    Flag(&'a str),
}

// What a word does: it ends a use, it is an option that waits for its value, or it has no place.
#[derive(Clone, Copy)]
enum Reading<'a> {
    Done(Used<'a>),
    Waits(&'a str),
    Bad,
}

// What follows a first hyphen.
fn strip_dash(word: &str) -> Option<&str>
    ensures { option_map (λ s. s.now) result ≡ strip_byte 45 word.now }
{
    word.strip_prefix('-')
}

// What stands before the first `=`, and what stands after it if there is one.
fn split_value(text: &str) -> (&str, Option<&str>)
    ensures { (result.0.now, option_map (λ s. s.now) result.1) ≡ name_and_value text.now }
{
    match text.split_once('=') {
        Some((name, value)) => (name, Some(value)),
        None => (text, None),
    }
}

// `--name` or `--name=value`, as the name and the value.
fn to_long(word: &str) -> Option<(&str, Option<&str>)>
    ensures { option_map (λ p. (p.0.now, option_map (λ s. s.now) p.1)) result ≡ long_of word.now }
{
    let rest = strip_dash(strip_dash(word)?)?;
    if rest.is_empty() {
        return None;
    }
    Some(split_value(rest))
}

// Not empty, and not one that begins with a hyphen.
fn is_value(word: &str) -> bool
    ensures { result ≡ is_value word.now }
{
    match word.as_bytes() {
        [] => false,
        [first, ..] => *first != b'-',
    }
}

// A value, or `-`.
fn is_positional(word: &str) -> bool
    ensures { result ≡ is_positional word.now }
{
    is_value(word) || word == "-"
}

// Whether the word is one of the names.
fn is_among(names: &[&str], word: &str) -> bool
    ensures { result ≡ is_among (texts names.now) word.now }
{
    for name in names {
        if *name == word {
            return true;
        }
    }
    false
}

// Whether the option or flag `name` is an option.
#[tactic(auto, using(crate::proofs::Names::among_append))]
fn takes_value(row: &Entry, name: &str) -> bool
    ensures { result ≡ is_among (value_names (row_of row.now)) name.now }
{
    is_among(row.required, name) || is_among(row.options, name)
}

// `--name` alone, or with a value.
fn read_long<'a>(row: &Entry, name: &'a str, value: Option<&'a str>) -> Reading<'a>
    ensures { step_of result ≡ step_long (row_of row.now) name.now (waiting_of value.entry) }
{
    match value {
        None => {
            if takes_value(row, name) {
                return Reading::Waits(name);
            }
            if is_among(row.flags, name) {
                return Reading::Done(Used::Flag(name));
            }
            Reading::Bad
        }
        Some(value) => {
            if takes_value(row, name) && is_value(value) {
                return Reading::Done(Used::Joined(name, value));
            }
            Reading::Bad
        }
    }
}

// What a word does, where an option waits for its value or none does.
fn read_word<'a>(row: &Entry, waiting: Option<&'a str>, word: &'a str) -> Reading<'a>
    ensures { step_of result ≡ step_word (row_of row.now) (waiting_of waiting.entry) word.now }
{
    if let Some(name) = waiting {
        if is_value(word) {
            return Reading::Done(Used::Apart(name, word));
        }
        return Reading::Bad;
    }
    if is_positional(word) {
        return Reading::Done(Used::Positional(word));
    }
    match to_long(word) {
        Some((name, value)) => read_long(row, name, value),
        None => Reading::Bad,
    }
}

// The uses of the words, where they are read to the end.
fn read_uses<'a>(
    alloc: Global,
    row: &Entry,
    words: &'a [String],
) -> Result<Option<Vec<Used<'a>>>, AllocError>
    ensures { IfOk result (λ o. option_map uses_in o
        ≡ uses_of (row_of row.now) None (texts_of words.now)) }
{
    let mut uses = Vec::new(alloc);
    let mut waiting: Option<&'a str> = None;
    for word in words {
        match read_word(row, waiting, word.as_str()) {
            Reading::Done(used) => {
                uses.push(used)?;
                waiting = None;
            }
            Reading::Waits(name) => {
                waiting = Some(name);
            }
            Reading::Bad => {
                return Ok(None);
            }
        }
    }
    if waiting.is_some() {
        return Ok(None);
    }
    Ok(Some(uses))
}

// Whether the use is of the option or flag `name`.
fn is_of(name: &str, used: Used<'_>) -> bool
    ensures { result ≡ is_of name.now (use_of used.entry) }
{
    match used {
        Used::Positional(_) => false,
        Used::Apart(own, _) | Used::Joined(own, _) | Used::Flag(own) => own == name,
    }
}

// How often the option or flag `name` is used.
fn times(uses: &[Used<'_>], name: &str) -> usize
    ensures { result ≡ times (map use_of uses.now) name.now }
{
    let mut count: usize = 0;
    for used in uses {
        if is_of(name, *used) {
            count += 1;
        }
    }
    count
}

// How many positionals there are.
fn positionals(uses: &[Used<'_>]) -> usize
    ensures { result ≡ length (words_in (map use_of uses.now)) }
{
    let mut count: usize = 0;
    for used in uses {
        if let Used::Positional(_) = used {
            count += 1;
        }
    }
    count
}

// Whether each is used once.
fn all_once(uses: &[Used<'_>], names: &[&str]) -> bool
    ensures { result ≡ list_all (λ x. times (map use_of uses.now) x == 1) (texts names.now) }
{
    for name in names {
        if times(uses, name) != 1 {
            return false;
        }
    }
    true
}

// Whether each is used once at most.
fn none_twice(uses: &[Used<'_>], names: &[&str]) -> bool
    ensures { result ≡ list_all (λ x. nat_le (times (map use_of uses.now) x) 1) (texts names.now) }
{
    for name in names {
        if times(uses, name) > 1 {
            return false;
        }
    }
    true
}

// As many positionals as there are to be, and each option and flag as often as it may stand.
fn is_complete(row: &Entry, uses: &[Used<'_>]) -> bool
    ensures { result ≡ is_complete (row_of row.now) (map use_of uses.now) }
{
    let count = positionals(uses);
    let least = row.positionals.len();
    least <= count
        && count - least <= row.optional.len()
        && all_once(uses, row.required)
        && none_twice(uses, row.options)
        && none_twice(uses, row.flags)
}

// The command of this name.
fn find_row<'a>(table: &'a [Entry], name: &str) -> Option<&'a Entry>
    ensures { option_map (λ r. row_of r.now) result ≡ row_named (map row_of table.now) name.now }
{
    for row in table {
        if row.name == name {
            return Some(row);
        }
    }
    None
}

/// Words of the form: their command, and what they use.
#[derive(Drop)]
pub struct Call<'a> {
    pub row: &'a Entry,
    pub uses: Vec<Used<'a>>,
}

// The words' command and uses, by the steps of the test.
fn find_call<'a>(
    alloc: Global,
    table: &'a [Entry],
    words: &'a [String],
) -> Result<Option<Call<'a>>, AllocError>
    ensures { IfOk result (λ o. option_map (λ c. (row_of c.row.now, uses_in c.uses)) o
        ≡ call_of (map row_of table.now) (texts_of words.now)) }
{
    let [name, rest @ ..] = words else {
        return Ok(None);
    };
    let Some(row) = find_row(table, name.as_str()) else {
        return Ok(None);
    };
    let Some(uses) = read_uses(alloc, row, rest)? else {
        return Ok(None);
    };
    if !is_complete(row, &uses) {
        return Ok(None);
    }
    Ok(Some(Call { row, uses }))
}

/// The words' command and uses, exactly where the words have the form. There is one such reading at most.
pub fn read_call<'a>(
    alloc: Global,
    table: &'a [Entry],
    words: &'a [String],
) -> Result<Option<Call<'a>>, AllocError>
    requires { list_all is_clear (map row_of table.now) ≡ true }
    ensures call { IfOk result (λ o. IfSome o (λ c.
        IsCall (map row_of table.now) (texts_of words.now) (row_of c.row.now) (uses_in c.uses))) }
    ensures only { IfOk result (λ o. IfSome o (λ c.
        IsOnlyCall (map row_of table.now) (texts_of words.now) (row_of c.row.now) (uses_in c.uses))) }
    ensures none { IfOk result (λ o. IfNone o (HasForm (map row_of table.now) (texts_of words.now) → ⊥)) }
{
    find_call(alloc, table, words)
}
