// Words that stand in some bytes.
ghost use Rattle.std.specs.Prelude.{◌≡◌, List, ℕ, map, string_bytes, IfOk, OnOk, IsErrOf};
ghost use Rattle.std.specs.Str.{IsUtf8};
ghost use Rattle.caller_memory.specs.Parts.{part};
ghost use Rattle.caller_memory.specs.Words.{texts, AreTexts, IsNoText};

use crate::spans::{Span, part_of};
use std::alloc::Global;
use std::str;

/// Why words weren't made.
#[derive(Clone, Copy, Debug, PartialEq, Eq)]
pub enum WordsFault {
    NotText,
    NoMemory,
}

// The word of a span.
fn word_in(alloc: Global, bytes: &[u8], span: Span) -> Result<String, WordsFault>
    ensures word { IfOk result (λ w. string_bytes w ≡ part bytes.now span) }
    ensures is_text { OnOk result (IsUtf8 (part bytes.now span)) }
    ensures not_text { IsErrOf result WordsFault.NotText → IsUtf8 (part bytes.now span) → ⊥ }
{
    let Ok(text) = str::from_utf8(part_of(bytes, span)) else {
        return Err(WordsFault::NotText);
    };
    match String::from_str(alloc, text) {
        Ok(word) => Ok(word),
        Err(_) => Err(WordsFault::NoMemory),
    }
}

/// The words that stand in some bytes. At `NotText` one isn't UTF-8.
pub fn words_in(alloc: Global, bytes: &[u8], spans: &[Span]) -> Result<Vec<String>, WordsFault>
    ensures words { IfOk result (λ v. map string_bytes v.items ≡ texts bytes.now spans.now) }
    ensures are_texts { OnOk result (AreTexts bytes.now spans.now) }
    ensures not_text { IsErrOf result WordsFault.NotText → IsNoText bytes.now spans.now }
{
    let mut words = Vec::new(alloc);
    for span in spans {
        let word = match word_in(alloc, bytes, *span) {
            Ok(word) => word,
            Err(fault) => return Err(fault),
        };
        if words.push(word).is_err() {
            return Err(WordsFault::NoMemory);
        }
    }
    Ok(words)
}
