//! Moves: what is done to an expression itself, and their words.

ghost use Rattle.std.specs.Prelude.{◌≡◌};
ghost use Rattle.std.specs.Str.{bytes_eq};
ghost use Rattle.do_derivation.specs.View.{move_view};
ghost use Rattle.do_derivation.specs.Words.{set_word, bare_word, move_word, set_move_of, bare_move_of};

use mixed_graph::{Order, VSet};

/// The moves with a set Z of vertices.
///
/// P(A | do(B), C) stands for the term on which a move works.
#[derive(Clone, Copy, Debug, PartialEq, Eq)]
pub enum SetMove {
    /// Rule 1: P(A | do(B), C) becomes P(A | do(B), C + Z).
    Rule1In,
    /// Rule 1 backwards: Z leaves C.
    Rule1Out,
    /// Rule 2: Z leaves B and comes into C.
    Rule2See,
    /// Rule 2 backwards: Z leaves C and comes into B.
    Rule2Do,
    /// Rule 3 backwards: Z comes into B.
    Rule3In,
    /// Rule 3: Z leaves B.
    Rule3Out,
    /// P(A | do(B), C) becomes the sum over Z of P(A + Z | do(B), C).
    Widen,
}

/// The moves without an argument.
#[derive(Clone, Copy, Debug, PartialEq, Eq)]
pub enum BareMove {
    /// The chain rule backwards.
    Unchain,
    /// The sum over S of a term becomes the term without S.
    Narrow,
    /// P(A | do(B), C) becomes P(A + C | do(B)) / P(C | do(B)).
    Split,
    /// Factors that are products are opened.
    Unwrap,
}

/// What is done to an expression itself, which keeps its value. V is all vertices.
#[derive(Drop)]
pub enum Move {
    /// A move with a set.
    WithSet(SetMove, VSet),
    /// A move without an argument.
    Bare(BareMove),
    /// The chain rule over the vertices of A in that order.
    Chain(Order),
    /// The factors of a product in groups, each by its factors' numbers.
    Group(Vec<Vec<u32>>),
    /// The term P(L | do(V - L)) of that lemma becomes its definition.
    Cite(u32),
}

fn is_word(text: &[u8], word: &[u8]) -> bool
    ensures { result ≡ bytes_eq text.now word.now }
{
    text == word
}

impl SetMove {
    /// The word for it in certificates.
    pub fn word(self) -> &'static str
        ensures { result.now ≡ set_word self }
    {
        match self {
            SetMove::Rule1In => "rule1in",
            SetMove::Rule1Out => "rule1out",
            SetMove::Rule2See => "rule2see",
            SetMove::Rule2Do => "rule2do",
            SetMove::Rule3In => "rule3in",
            SetMove::Rule3Out => "rule3out",
            SetMove::Widen => "widen",
        }
    }

    /// The move with a set of which a text is the word.
    #[tactic(auto, unfolding(crate::specs::Words::set_move_of))]
    pub fn of(text: &[u8]) -> Option<SetMove>
        ensures { result ≡ set_move_of text.now }
    {
        if is_word(text, b"rule1in") {
            return Some(SetMove::Rule1In);
        }
        if is_word(text, b"rule1out") {
            return Some(SetMove::Rule1Out);
        }
        if is_word(text, b"rule2see") {
            return Some(SetMove::Rule2See);
        }
        if is_word(text, b"rule2do") {
            return Some(SetMove::Rule2Do);
        }
        if is_word(text, b"rule3in") {
            return Some(SetMove::Rule3In);
        }
        if is_word(text, b"rule3out") {
            return Some(SetMove::Rule3Out);
        }
        if is_word(text, b"widen") {
            return Some(SetMove::Widen);
        }
        None
    }
}

impl BareMove {
    /// The word for it in certificates.
    pub fn word(self) -> &'static str
        ensures { result.now ≡ bare_word self }
    {
        match self {
            BareMove::Unchain => "unchain",
            BareMove::Narrow => "narrow",
            BareMove::Split => "split",
            BareMove::Unwrap => "unwrap",
        }
    }

    /// The move without an argument of which a text is the word.
    #[tactic(auto, unfolding(crate::specs::Words::bare_move_of))]
    pub fn of(text: &[u8]) -> Option<BareMove>
        ensures { result ≡ bare_move_of text.now }
    {
        if is_word(text, b"unchain") {
            return Some(BareMove::Unchain);
        }
        if is_word(text, b"narrow") {
            return Some(BareMove::Narrow);
        }
        if is_word(text, b"split") {
            return Some(BareMove::Split);
        }
        if is_word(text, b"unwrap") {
            return Some(BareMove::Unwrap);
        }
        None
    }
}

impl Move {
    /// The word for it in certificates.
    pub fn word(&self) -> &'static str
        ensures { result.now ≡ move_word (move_view self.now) }
    {
        match self {
            Move::WithSet(kind, _) => kind.word(),
            Move::Bare(kind) => kind.word(),
            Move::Chain(_) => "chain",
            Move::Group(_) => "group",
            Move::Cite(_) => "cite",
        }
    }
}
