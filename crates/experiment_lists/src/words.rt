//! Experiments in a word: one to eight lists joined by `;`. A `;` between quotes belongs to a name.

ghost use Rattle.std.specs.Prelude.{◌≡◌, ◌==◌, ◌&&◌, ◌≤◌, ◌<◌, ◌∷◌, ◌++◌, ℕ, Bool, List, Some, None, true, length, take, get_or, option_map, IfOk, IfSome, IfNone};
ghost use Rattle.command_words.specs.Vocabulary.{names_in};
ghost use Rattle.experiment_lists.specs.Words.{IsExperiment, AreExperiments, Lists};
ghost use Rattle.experiment_lists.specs.Parts.{outside_after, after_byte, IsCut};
ghost use Rattle.experiment_lists.specs.Views.{lists_in};

use command_words::lists::read_list;
use std::alloc::{AllocError, Global};

/// Whether what stands behind a byte is outside quotes.
fn outside_behind(outside: bool, byte: u8) -> bool
    ensures { result ≡ after_byte outside byte }
{
    if byte == b'"' { !outside } else { outside }
}

/// Whether a byte is a `;` outside quotes.
fn is_end(outside: bool, byte: u8) -> bool
    ensures { result ≡ (outside && byte == 59) }
{
    outside && byte == b';'
}

/// Where the first part ends: at the first `;` outside quotes, or at the end.
fn part_end(text: &[u8]) -> usize
    ensures within { result ≤ length text.now }
    ensures whole { (outside : Bool) × (outside_after true (take result text.now) ≡ Some outside) }
    ensures cut { result < length text.now → (get_or text.now result 0 ≡ 59) × (outside_after true (take result text.now) ≡ Some true) }
{
    let mut outside = true;
    for i in 0..text.len() {
        if is_end(outside, text[i]) {
            return i;
        }
        outside = outside_behind(outside, text[i]);
    }
    text.len()
}

/// A text up to its first `;` outside quotes, and what stands behind it, where there is one.
#[derive(Clone, Copy)]
struct Cut<'a> {
    part: &'a str,
    rest: Option<&'a str>,
}

/// Cuts a text at its first `;` outside quotes.
fn first_part(text: &str) -> Cut<'_>
    ensures { IsCut text.now result.part.now (option_map (λ s. s.now) result.rest) }
{
    let end = part_end(text.as_bytes());
    if end == text.len() {
        return Cut {
            part: text,
            rest: None,
        };
    }
    Cut {
        part: &text[..end],
        rest: Some(&text[end + 1..]),
    }
}

/// The names of an experiment, exactly where the text is one.
fn read_experiment(alloc: Global, text: &str) -> Result<Option<Vec<Vec<u8>>>, AllocError>
    requires { (outside : Bool) × (outside_after true text.now ≡ Some outside) }
    ensures some { IfOk result (λ o. IfSome o (λ v. IsExperiment text.now (names_in v))) }
    ensures only { IfOk result (λ o. IfSome o (λ v. (names : List (List ℕ)) → IsExperiment text.now names → names ≡ names_in v)) }
    ensures none { IfOk result (λ o. IfNone o ((names : List (List ℕ)) → IsExperiment text.now names → ⊥)) }
{
    if text == "{}" {
        return Ok(None);
    }
    read_list(alloc, text)
}

/// The names of each of one to eight experiments, exactly where the text is such.
pub fn read_experiments(alloc: Global, text: &str) -> Result<Option<Vec<Vec<Vec<u8>>>>, AllocError>
    ensures some { IfOk result (λ o. IfSome o (λ v. AreExperiments text.now (lists_in v))) }
    ensures only { IfOk result (λ o. IfSome o (λ v. (lists : Lists) → AreExperiments text.now lists → lists ≡ lists_in v)) }
    ensures none { IfOk result (λ o. IfNone o ((lists : Lists) → AreExperiments text.now lists → ⊥)) }
{
    let mut experiments: Vec<Vec<Vec<u8>>> = Vec::new(alloc);
    let mut left = text;
    for _ in 0..8u8 {
        let Cut { part, rest } = first_part(left);
        let Some(names) = read_experiment(alloc, part)? else {
            return Ok(None);
        };
        experiments.push(names)?;
        match rest {
            None => return Ok(Some(experiments)),
            Some(rest) => left = rest,
        }
    }
    Ok(None)
}
