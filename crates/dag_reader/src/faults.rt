//! Why a text of characters says nothing.

ghost use Rattle.std.specs.Prelude.{◌≡◌, option_map};
ghost use Rattle.dag_reader.specs.declared.faults.ReadFault.TheVariants.{Memory};
ghost use Rattle.dag_reader.specs.declared.faults.GraphFault.TheVariants.{NoMemory};
ghost use Rattle.dag_reader.specs.Grammar.{own_fault, misfit};
ghost use Rattle.dag_reader.specs.Views.{view};
ghost use Rattle.dag_reader.specs.PlaceView.{place_view};
ghost use Rattle.dag_reader.specs.FaultView.{fault_view};

use crate::grammar::Position;
use crate::tokens::Token;
use mixed_graph::Text;
use std::alloc::{AllocError, AllocFailed};

/// Why a text of characters says nothing.
#[derive(Clone, Copy, Debug)]
pub enum Fault<'a> {
    Token(usize),
    Expected(usize),
    NotADag,
    EdgeKind(usize),
    Flag(usize),
    Selected(&'a [u8]),
    TooMany,
}

/// The same, or want of memory.
#[derive(Clone, Copy, Debug)]
pub enum ReadFault<'a> {
    Memory,
    Fault(Fault<'a>),
}

impl<'a> From<AllocError> for ReadFault<'a> {
    ghost from_gives = { λ _ e. e ≡ Memory };

    fn from(_: AllocError) -> Self {
        ReadFault::Memory
    }
}

impl<'a, T: Drop> From<AllocFailed<T>> for ReadFault<'a> {
    ghost from_gives = { λ _ e. e ≡ Memory };

    fn from(_: AllocFailed<T>) -> Self {
        ReadFault::Memory
    }
}

/// The fault of a token by itself.
pub fn own_fault<'a>(at: usize, token: Token<'a>) -> Option<Fault<'a>>
    ensures { option_map fault_view result ≡ own_fault at (view token.entry) }
{
    match token {
        Token::Bad => Some(Fault::Token(at)),
        Token::BadEdge => Some(Fault::EdgeKind(at)),
        _ => None,
    }
}

/// The fault of a token that doesn't fit; a value that may not be dropped is none of a statement.
pub fn misfit<'a>(place: Position<'a>, at: usize, token: Token<'a>) -> Fault<'a>
    ensures { fault_view result ≡ misfit (place_view place.entry) at (view token.entry) }
{
    match place {
        Position::Start => Fault::NotADag,
        Position::KeyValue => match token {
            Token::Value(_) => Fault::Token(at),
            _ => Fault::Expected(at),
        },
        _ => Fault::Expected(at),
    }
}

/// Why a text is no graph.
#[derive(Drop)]
pub enum GraphFault {
    /// The bytes aren't UTF-8; the first byte that no valid character begins or completes.
    NotUtf8(usize),
    /// No token stands at this byte, or a value that would be dropped though an edge may be meant.
    Token(usize),
    /// The token at this byte, or the end there, doesn't fit the grammar.
    Expected(usize),
    /// The first token isn't the bare word `dag`, or the text has no token.
    NotADag,
    /// The edge at this byte is `--` or holds `@`, or a bare name begins there with an arrow of Unicode.
    EdgeKind(usize),
    /// The bare attribute at this byte isn't allowed in its place.
    Flag(usize),
    /// This vertex has the flag `selected`.
    Selected(Text),
    /// The first edge of a vertex to itself: the vertex.
    SelfLoop(Text),
    /// A 65th name appears.
    TooMany,
    /// The lowest vertex with two different roles.
    RoleClash(Text),
    /// A directed cycle, which begins with its lowest member.
    Cycle(Vec<Text>),
    /// Memory was refused.
    NoMemory,
}

impl From<AllocError> for GraphFault {
    ghost from_gives = { λ _ e. e ≡ NoMemory };

    fn from(_: AllocError) -> Self {
        GraphFault::NoMemory
    }
}

impl<T: Drop> From<AllocFailed<T>> for GraphFault {
    ghost from_gives = { λ _ e. e ≡ NoMemory };

    fn from(_: AllocFailed<T>) -> Self {
        GraphFault::NoMemory
    }
}
