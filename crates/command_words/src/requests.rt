//! The words of a request, by any table of commands: the one call that they are, or that they aren't understood.
ghost use Rattle.std.specs.Prelude.{IfOk, IsErrOf, map};
ghost use Rattle.command_words.specs.Form.{HasForm, IsCall, IsOnlyCall};
ghost use Rattle.command_words.specs.Views.{row_of, texts_of, uses_in};
ghost use Rattle.command_words.specs.Gives.{HoldsCall};
ghost use Rattle.command_words.specs.Readable.{AreReadable};

use crate::forms::Entry;
use crate::typed::RequestFault;
use crate::values::{Words, read_words};
use std::alloc::Global;

/// The words' call with its values, exactly where they have the form of the table. They are one call at most.
pub fn words_found<'a>(
    alloc: Global,
    table: &'static [Entry],
    words: &'a [String],
) -> Result<Words<'a>, RequestFault>
    requires { AreReadable (map row_of table.now) }
    ensures call { IfOk result (λ w. IsCall (map row_of table.now) (texts_of words.now) (row_of w.call.row.now) (uses_in w.call.uses)) }
    ensures only { IfOk result (λ w. IsOnlyCall (map row_of table.now) (texts_of words.now) (row_of w.call.row.now) (uses_in w.call.uses)) }
    ensures values { IfOk result (λ w. HoldsCall (row_of w.call.row.now) (uses_in w.call.uses) w.values) }
    ensures none { IsErrOf result RequestFault.NotUnderstood → HasForm (map row_of table.now) (texts_of words.now) → ⊥ }
{
    let rows: &'a [Entry] = table;
    match read_words(alloc, rows, words) {
        Ok(Some(found)) => Ok(found),
        Ok(None) => Err(RequestFault::NotUnderstood),
        Err(_) => Err(RequestFault::NoMemory),
    }
}
