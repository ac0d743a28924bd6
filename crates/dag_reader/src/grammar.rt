//! The automaton of the grammar: where a reader is between two tokens.

ghost use Rattle.std.specs.Prelude.{◌≡◌, List, ℕ, [], ◌∷◌, Some, None, option_map};
ghost use Rattle.dag_reader.specs.Tokens.{Tok};
ghost use Rattle.dag_reader.specs.Grammar.{next_statement, next_in_chain, next_after_name, behind_braces, next_in_group, next_in_attrs, next_after_attr, next};
ghost use Rattle.dag_reader.specs.Links.{begins_statement};
ghost use Rattle.dag_reader.specs.Views.{view};
ghost use Rattle.dag_reader.specs.PlaceView.{place_view, name_view};

use crate::tokens::{Token, is_droppable};
use crate::words::Word;

/// Braces of a statement.
#[derive(Clone, Copy, Debug)]
pub enum Braces {
    /// Those that begin the statement.
    First,
    /// Those behind an edge.
    Later,
}

/// Where a reader is between two tokens.
#[derive(Clone, Copy, Debug)]
pub enum Position<'a> {
    Start,
    /// Behind `dag`.
    Dag,
    /// Behind the graph's name.
    Title,
    Statement,
    /// Behind the first name of a statement.
    AfterName(Word<'a>),
    KeyValue,
    InGroup(Braces),
    GroupName(Braces, Word<'a>),
    /// Behind the braces that begin a statement.
    AfterFirst,
    AfterEdge,
    ChainName(Word<'a>),
    /// Behind the braces of a group of a chain.
    AfterGroup,
    /// Behind `[`, of a vertex or of a chain.
    Attrs(Option<Word<'a>>),
    /// Behind an attribute's name, which stands there.
    AttrName(Option<Word<'a>>, usize, Word<'a>),
    AttrValue(Option<Word<'a>>),
    AfterAttr(Option<Word<'a>>),
    AfterComma(Option<Word<'a>>),
    End,
}

fn next_statement<'a>(token: Token<'a>) -> Option<Position<'a>>
    ensures { option_map place_view result ≡ next_statement (view token.entry) }
{
    match token {
        Token::Semicolon => Some(Position::Statement),
        Token::Name(_, name) => Some(Position::AfterName(name)),
        Token::OpenBrace => Some(Position::InGroup(Braces::First)),
        Token::CloseBrace => Some(Position::End),
        _ => None,
    }
}

fn next_in_chain<'a>(token: Token<'a>) -> Option<Position<'a>>
    ensures { option_map place_view result ≡ next_in_chain (view token.entry) }
{
    match token {
        Token::Edge(_) => Some(Position::AfterEdge),
        Token::OpenBracket => Some(Position::Attrs(None)),
        _ => next_statement(token),
    }
}

fn next_after_name<'a>(name: Word<'a>, token: Token<'a>) -> Option<Position<'a>>
    ensures { option_map place_view result ≡ next_after_name name.entry.bytes.now (view token.entry) }
{
    match token {
        Token::Equals => Some(Position::KeyValue),
        Token::Edge(_) => Some(Position::AfterEdge),
        Token::OpenBracket => Some(Position::Attrs(Some(name))),
        _ => next_statement(token),
    }
}

/// The place behind braces.
fn behind_braces<'a>(braces: Braces) -> Position<'a>
    ensures { place_view result ≡ behind_braces braces }
{
    match braces {
        Braces::First => Position::AfterFirst,
        Braces::Later => Position::AfterGroup,
    }
}

fn next_in_group<'a>(braces: Braces, token: Token<'a>) -> Option<Position<'a>>
    ensures { option_map place_view result ≡ next_in_group braces (view token.entry) }
{
    match token {
        Token::Semicolon => Some(Position::InGroup(braces)),
        Token::Name(_, name) => Some(Position::GroupName(braces, name)),
        Token::CloseBrace => Some(behind_braces(braces)),
        _ => None,
    }
}

fn next_in_attrs<'a>(of: Option<Word<'a>>, at: usize, token: Token<'a>) -> Option<Position<'a>>
    ensures { option_map place_view result ≡ next_in_attrs (name_view of.entry) at (view token.entry) }
{
    match token {
        Token::Name(_, name) => Some(Position::AttrName(of, at, name)),
        Token::CloseBracket => Some(Position::Statement),
        _ => None,
    }
}

fn next_after_attr<'a>(of: Option<Word<'a>>, at: usize, token: Token<'a>) -> Option<Position<'a>>
    ensures { option_map place_view result ≡ next_after_attr (name_view of.entry) at (view token.entry) }
{
    match token {
        Token::Comma => Some(Position::AfterComma(of)),
        _ => next_in_attrs(of, at, token),
    }
}

/// The place behind a token that stands at `at`, where it fits.
pub fn next<'a>(place: Position<'a>, at: usize, token: Token<'a>) -> Option<Position<'a>>
    ensures { option_map place_view result ≡ next (place_view place.entry) at (view token.entry) }
{
    match place {
        Position::Start => match token {
            Token::Name(false, name) => if name.bytes == b"dag".as_slice() {
                Some(Position::Dag)
            } else {
                None
            },
            _ => None,
        },
        Position::Dag => match token {
            Token::Name(_, _) => Some(Position::Title),
            Token::OpenBrace => Some(Position::Statement),
            _ => None,
        },
        Position::Title => match token {
            Token::OpenBrace => Some(Position::Statement),
            _ => None,
        },
        Position::Statement => next_statement(token),
        Position::AfterName(name) => next_after_name(name, token),
        Position::KeyValue => match token {
            Token::Value(run) => if is_droppable(run) {
                Some(Position::Statement)
            } else {
                None
            },
            _ => None,
        },
        Position::InGroup(braces) | Position::GroupName(braces, _) => next_in_group(braces, token),
        Position::AfterFirst => match token {
            Token::Edge(_) => Some(Position::AfterEdge),
            _ => None,
        },
        Position::AfterEdge => match token {
            Token::Name(_, name) => Some(Position::ChainName(name)),
            Token::OpenBrace => Some(Position::InGroup(Braces::Later)),
            _ => None,
        },
        Position::ChainName(_) | Position::AfterGroup => next_in_chain(token),
        Position::Attrs(of) => next_in_attrs(of, at, token),
        Position::AttrName(of, _, _) => match token {
            Token::Equals => Some(Position::AttrValue(of)),
            _ => next_after_attr(of, at, token),
        },
        Position::AttrValue(of) => match token {
            Token::Value(_) => Some(Position::AfterAttr(of)),
            _ => None,
        },
        Position::AfterAttr(of) => next_after_attr(of, at, token),
        Position::AfterComma(of) => match token {
            Token::Name(_, name) => Some(Position::AttrName(of, at, name)),
            _ => None,
        },
        Position::End => None,
    }
}

/// Whether a name that comes there begins a statement.
#[inline(always)]
pub fn begins_statement(place: Position<'_>) -> bool
    ensures { result ≡ begins_statement (place_view place.entry) }
{
    matches!(
        place,
        Position::Statement | Position::AfterName(_) | Position::ChainName(_) | Position::AfterGroup
    )
}
