//! What a text says, as far as it was read.

ghost use Rattle.std.specs.Prelude.{◌≡◌, ◌<◌, List, ℕ, [], ◌∷◌, true, false, length, OnOk};
ghost use Rattle.std.specs.List.{list_all};
ghost use Rattle.dag_reader.specs.MarkEnds.{is_inside};

use crate::faults::{Fault, ReadFault, misfit, own_fault};
use crate::grammar::{Position, next};
use crate::marks::{Arrow, Remark, Role};
use crate::tokens::{Token, is_end};
use crate::words::Word;
use mixed_graph::{AddFault, Names};
use std::alloc::{AllocError, Global};

/// What a text says, as far as it was read.
#[derive(Drop)]
pub struct Statements {
    pub names: Names,
    pub marks: Vec<Remark>,
    pub ghost inside: { list_all (is_inside (length names)) marks.items ≡ true },
}

impl Statements {
    ghost use Rattle.dag_reader.specs.Grammar.{Said, nothing, with_marks, with_vertex, with_flag, settled, noted, step};
    ghost use Rattle.dag_reader.specs.Links.{with_link};
    ghost use Rattle.dag_reader.specs.Views.{view};
    ghost use Rattle.dag_reader.specs.SaidView.{said_by};
    ghost use Rattle.dag_reader.specs.PlaceView.{name_view, place_view};
    ghost use Rattle.dag_reader.specs.Turns.{Leaves, Turns};

    /// Nothing yet.
    pub fn empty(alloc: Global) -> Statements
        ensures { said_by result ≡ nothing }
    {
        Statements {
            names: Names::empty(alloc),
            marks: Vec::new(alloc),
        }
    }

    fn mark(&mut self, mark: Remark) -> Result<(), AllocError>
        requires { is_inside (length self.old.names) mark ≡ true }
        ensures { OnOk result (said_by self.new ≡ with_marks (mark ∷ []) (said_by self.old)) }
    {
        self.marks.push(mark)?;
        Ok(())
    }

    #[inline(always)]
    fn add_vertex<'a>(&mut self, name: Word<'a>) -> Result<(), ReadFault<'a>>
        ensures { Leaves (with_vertex name.entry.bytes.now (said_by self.old)) (said_by self.new) result }
    {
        match self.names.add_keyed(name.bytes, name.key) {
            Ok(index) => {
                self.mark(Remark::Member(index))?;
                Ok(())
            }
            Err(AddFault::NotAName) => unreachable!(),
            Err(AddFault::Full) => Err(ReadFault::Fault(Fault::TooMany)),
            Err(AddFault::NoMemory) => Err(ReadFault::Memory),
        }
    }

    fn add_flag<'a>(
        &mut self,
        of: Option<Word<'a>>,
        at: usize,
        name: Word<'a>,
    ) -> Result<(), ReadFault<'a>>
        ensures { Leaves (with_flag (name_view of.entry) at name.entry.bytes.now (said_by self.old)) (said_by self.new) result }
    {
        let Some(vertex) = of else {
            return Err(ReadFault::Fault(Fault::Flag(at)));
        };
        if name.bytes == b"selected".as_slice() {
            return Err(ReadFault::Fault(Fault::Selected(vertex.bytes)));
        }
        let Some(role) = Role::named(name.bytes) else {
            return Err(ReadFault::Fault(Fault::Flag(at)));
        };
        self.mark(Remark::HasRole(role))?;
        Ok(())
    }

    /// What the name before a token is, which the token settles.
    #[inline(always)]
    fn settle<'a>(&mut self, place: Position<'a>, token: Token<'a>) -> Result<(), ReadFault<'a>>
        ensures { Leaves (settled (place_view place.entry) (view token.entry) (said_by self.old)) (said_by self.new) result }
    {
        match place {
            Position::AfterName(name) => match token {
                Token::Equals => Ok(()),
                _ => {
                    self.mark(Remark::Begins)?;
                    self.add_vertex(name)
                }
            },
            Position::GroupName(_, name) | Position::ChainName(name) => self.add_vertex(name),
            Position::AttrName(of, at, name) => match token {
                Token::Equals => Ok(()),
                _ => self.add_flag(of, at, name),
            },
            _ => Ok(()),
        }
    }

    /// What a token itself says.
    fn note<'a>(&mut self, place: Position<'a>, token: Token<'a>) -> Result<(), AllocError>
        ensures { OnOk result (said_by self.new ≡ noted (place_view place.entry) (view token.entry) (said_by self.old)) }
    {
        match token {
            Token::Edge(arrow) => self.mark(Remark::Joined(arrow)),
            Token::OpenBrace => match place {
                Position::Statement
                | Position::AfterName(_)
                | Position::ChainName(_)
                | Position::AfterGroup => self.mark(Remark::Begins),
                _ => Ok(()),
            },
            _ => Ok(()),
        }
    }

    /// The place behind a token, or none at the end.
    #[tactic(auto, unfolding(crate::specs::Grammar::step))]
    pub fn step<'a>(
        &mut self,
        place: Position<'a>,
        at: usize,
        token: Token<'a>,
    ) -> Result<Option<Position<'a>>, ReadFault<'a>>
        ensures { Turns (step (place_view place.entry) (said_by self.old) at (view token.entry)) (said_by self.new) result }
    {
        if let Some(fault) = own_fault(at, token) {
            return Err(ReadFault::Fault(fault));
        }
        self.settle(place, token)?;
        if is_end(token) {
            return match place {
                Position::End => Ok(None),
                _ => Err(ReadFault::Fault(misfit(place, at, Token::End))),
            };
        }
        let Some(after) = next(place, at, token) else {
            return Err(ReadFault::Fault(misfit(place, at, token)));
        };
        self.note(place, token)?;
        Ok(Some(after))
    }

    /// A name that begins a statement, and the edge behind it.
    #[inline(always)]
    pub fn link<'a>(
        &mut self,
        place: Position<'a>,
        left: Word<'a>,
        arrow: Arrow,
    ) -> Result<(), ReadFault<'a>>
        ensures { Leaves (with_link (place_view place.entry) left.entry.bytes.now arrow (said_by self.old)) (said_by self.new) result }
    {
        self.settle(place, Token::Name(false, left))?;
        self.mark(Remark::Begins)?;
        self.add_vertex(left)?;
        self.mark(Remark::Joined(arrow))?;
        Ok(())
    }
}
