//! Lists of names and numbers, as they stand in the values of options. A list is `{}` for none, or names
//! joined by commas, with braces around them or without; a name that holds a comma stands between quotes.
//! Nothing is trimmed. A number is one or more decimal digits.

ghost use Rattle.std.specs.Prelude.{◌≡◌, ℕ, List, [], length, IfOk, IfSome, IfNone, true, option_map, MatchOption, ◌<◌, ◌≤◌, ◌^◌};
ghost use Rattle.std.specs.Str.{all_ascii_digits};
ghost use Rattle.std.specs.Str.Parse.{digits_value};
ghost use Rattle.command_words.specs.Lists.{unbraced, IsList};
ghost use Rattle.command_words.specs.Numbers.{IsNumber};
ghost use Rattle.command_words.specs.Walk.{next_of, names_of, list_of, is_none, can_end};
ghost use Rattle.command_words.specs.ListViews.{names_in};

use std::alloc::{AllocError, Global};

// Where the reader of a list stands: an item is due, in an item, between quotes, or after quotes.
#[derive(Clone, Copy)]
enum Position {
    Due,
    Plain,
    Inside,
    Closed,
}

// What a byte does: it is one more of the item, it only moves, it ends the item, or it has no place.
#[derive(Clone, Copy)]
enum Next {
    Take(Position),
    Pass(Position),
    End,
    Bad,
}

// What a byte does at a place, where there is nothing of an item yet or something.
fn step(place: Position, is_none: bool, byte: u8) -> Next
    ensures { result ≡ next_of place is_none byte }
{
    match place {
        Position::Due => match byte {
            b'"' => Next::Pass(Position::Inside),
            b',' => Next::Bad,
            _ => Next::Take(Position::Plain),
        },
        Position::Plain => match byte {
            b',' => Next::End,
            b'"' => Next::Bad,
            _ => Next::Take(Position::Plain),
        },
        Position::Inside => {
            if byte != b'"' {
                return Next::Take(Position::Inside);
            }
            if is_none {
                return Next::Bad;
            }
            Next::Pass(Position::Closed)
        }
        Position::Closed => {
            if byte == b',' {
                return Next::End;
            }
            Next::Bad
        }
    }
}

// Whether there is nothing of an item.
fn lacks(name: &[u8]) -> bool
    ensures { result ≡ is_none name.now }
{
    match name {
        [] => true,
        [_, ..] => false,
    }
}

// Whether an item may end here.
fn ends(place: Position) -> bool
    ensures { result ≡ can_end place }
{
    match place {
        Position::Due | Position::Inside => false,
        Position::Plain | Position::Closed => true,
    }
}

// The names of items joined by commas, where the text is such.
fn read_names(alloc: Global, text: &[u8]) -> Result<Option<Vec<Vec<u8>>>, AllocError>
    ensures { IfOk result (λ o. option_map names_in o ≡ names_of Position.Due [] text.now) }
{
    let mut names: Vec<Vec<u8>> = Vec::new(alloc);
    let mut name: Vec<u8> = Vec::new(alloc);
    let mut place = Position::Due;
    for byte in text {
        match step(place, lacks(&name), *byte) {
            Next::Take(after) => {
                name.push(*byte)?;
                place = after;
            }
            Next::Pass(after) => {
                place = after;
            }
            Next::End => {
                names.push(name)?;
                name = Vec::new(alloc);
                place = Position::Due;
            }
            Next::Bad => {
                return Ok(None);
            }
        }
    }
    if !ends(place) {
        return Ok(None);
    }
    names.push(name)?;
    Ok(Some(names))
}

// What stands between the braces around a text, or the text where there are none.
fn unbraced(text: &[u8]) -> &[u8]
    ensures { result.now ≡ unbraced text.now }
{
    match text {
        [b'{', inside @ .., b'}'] => inside,
        _ => text,
    }
}

// The names of a list, where the text is one.
fn find_list(alloc: Global, text: &str) -> Result<Option<Vec<Vec<u8>>>, AllocError>
    ensures { IfOk result (λ o. option_map names_in o ≡ list_of text.now) }
{
    if text == "{}" {
        return Ok(Some(Vec::new(alloc)));
    }
    read_names(alloc, unbraced(text.as_bytes()))
}

/// The names of a list, exactly where the text is one.
pub fn read_list(alloc: Global, text: &str) -> Result<Option<Vec<Vec<u8>>>, AllocError>
    ensures list { IfOk result (λ o. IfSome o (λ v. IsList text.now (names_in v))) }
    ensures only { IfOk result (λ o. IfSome o (λ v. (names : List (List ℕ)) → IsList text.now names → names ≡ names_in v)) }
    ensures none { IfOk result (λ o. IfNone o ((names : List (List ℕ)) → IsList text.now names → ⊥)) }
{
    find_list(alloc, text)
}

// Whether all bytes are digits.
fn are_digits(text: &[u8]) -> bool
    ensures { result ≡ all_ascii_digits text.now }
{
    for byte in text {
        if !byte.is_ascii_digit() {
            return false;
        }
    }
    true
}

// The number that digits are, where there are some and it isn't too wide.
fn parse_digits(text: &str) -> Option<u64>
    requires { all_ascii_digits text.now ≡ true }
    ensures { MatchOption result (0 < length text.now → 2 ^ 64 ≤ digits_value 10 text.now) (λ n. (0 < length text.now) × (digits_value 10 text.now ≡ n)) }
{
    match text.parse::<u64>() {
        Ok(number) => Some(number),
        Err(_) => None,
    }
}

/// The number that the text is, exactly where it is one in the range from `low` to `high`.
pub fn read_number(text: &str, low: u64, high: u64) -> Option<u64>
    ensures number { IfSome result (λ n. IsNumber text.now low high n) }
    ensures none { IfNone result ((n : ℕ) → IsNumber text.now low high n → ⊥) }
{
    if !are_digits(text.as_bytes()) {
        return None;
    }
    match parse_digits(text) {
        Some(number) if low <= number && number <= high => Some(number),
        _ => None,
    }
}
