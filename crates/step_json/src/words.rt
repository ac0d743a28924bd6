//! The words of steps.

ghost use Rattle.std.specs.Prelude.{◌≡◌};
ghost use Rattle.std.specs.Str.{bytes_eq};
ghost use Rattle.step_json.specs.Words.{other_word_of, word_of};

use do_derivation::{BareMove, SetMove};

// The words of steps.
#[derive(Clone, Copy, Debug, PartialEq, Eq)]
pub enum Word {
    WithSet(SetMove),
    Bare(BareMove),
    Chain,
    Group,
    Cite,
    At,
    Then,
}

fn is_word(text: &[u8], word: &[u8]) -> bool
    ensures { result ≡ bytes_eq text.now word.now }
{
    text == word
}

#[tactic(auto, unfolding(crate::specs::Words::other_word_of))]
fn other_word_of(text: &[u8]) -> Option<Word>
    ensures { result ≡ other_word_of text.now }
{
    if is_word(text, b"chain") {
        return Some(Word::Chain);
    }
    if is_word(text, b"group") {
        return Some(Word::Group);
    }
    if is_word(text, b"cite") {
        return Some(Word::Cite);
    }
    if is_word(text, b"at") {
        return Some(Word::At);
    }
    if is_word(text, b"then") {
        return Some(Word::Then);
    }
    None
}

/// The word of a step, where the text is one.
#[tactic(auto, unfolding(crate::specs::Words::word_of))]
pub fn word_of(text: &[u8]) -> Option<Word>
    ensures { result ≡ word_of text.now }
{
    if let Some(kind) = SetMove::of(text) {
        return Some(Word::WithSet(kind));
    }
    if let Some(kind) = BareMove::of(text) {
        return Some(Word::Bare(kind));
    }
    other_word_of(text)
}
