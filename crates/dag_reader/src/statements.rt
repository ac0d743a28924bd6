//! The statements of a text, from left to right.

ghost use Rattle.std.specs.Prelude.{◌≡◌, ◌<◌, true, length, IfSome, IfNone};
ghost use Rattle.std.specs.Str.{is_utf8};
ghost use Rattle.dag_reader.specs.declared.tokens.Due.TheVariants as dues;
ghost use Rattle.dag_reader.specs.Links.{IsLink, begins_statement};
ghost use Rattle.dag_reader.specs.PlaceView.{place_view};
ghost use Rattle.dag_reader.specs.Turns.{ReadsStatements};

use crate::faults::ReadFault;
use crate::grammar::{Position, begins_statement};
use crate::said::Statements;
use crate::tokens::Lexer;
use crate::words::Link;
use std::alloc::Global;

/// The edge between two bare names that comes next, where a statement may begin. Where there is none, nothing is taken.
#[inline(always)]
fn next_link<'a>(lexer: &mut Lexer<'a>, place: Position<'a>) -> Option<Link<'a>>
    ensures place { IfSome result (λ _. begins_statement (place_view place.entry) ≡ true) }
    ensures link { IfSome result (λ l. IsLink lexer.old.rest.now l.left.bytes.now l.arrow l.right.bytes.now lexer.new.rest.now) }
    ensures none { IfNone result (lexer.new.rest.now ≡ lexer.old.rest.now) }
    ensures size { lexer.new.size ≡ lexer.old.size }
    ensures due { lexer.new.due ≡ lexer.old.due }
    ensures not_due { IfSome result (λ _. lexer.old.due ≡ dues.Token) }
    ensures shorter { IfSome result (λ _. length lexer.new.rest.now < length lexer.old.rest.now) }
{
    if !begins_statement(place) {
        return None;
    }
    lexer.link()
}

/// What a text says, from left to right.
pub fn read_statements<'a>(alloc: Global, text: &'a [u8]) -> Result<Statements, ReadFault<'a>>
    requires { is_utf8 text.now ≡ true }
    ensures { ReadsStatements text.now result }
{
    let mut lexer = Lexer::new(text);
    let mut place = Position::Start;
    let mut said = Statements::empty(alloc);
    'turns: loop {
        match next_link(&mut lexer, place) {
            Some(link) => {
                said.link(place, link.left, link.arrow)?;
                place = Position::ChainName(link.right);
            }
            None => {
                let (at, token) = lexer.next();
                match said.step(place, at, token)? {
                    Some(after) => place = after,
                    None => return Ok(said),
                }
            }
        }
    }
}
