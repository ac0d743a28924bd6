//! The words of a command line by a table of commands. Words are read exactly where they have the form of the table; their values come
//! from `clap`, which gets the row of their command alone, and refuses such words for want of memory alone. Words that ask for help or for a
//! version have no form.
ghost use Rattle.std.specs.Prelude.{◌≡◌, IfOk, IfSome, IfNone, map};
ghost use Rattle.clap.specs.Values.{kind_of};
ghost use Rattle.command_words.specs.Form.{HasForm, IsCall, IsOnlyCall};
ghost use Rattle.command_words.specs.Views.{row_of, texts_of, uses_in};
ghost use Rattle.command_words.specs.Gives.{HoldsCall};
ghost use Rattle.command_words.specs.Readable.{AreReadable};

mod program;
mod values;

use crate::forms::{Call, Entry, read_call};
use clap::Error;
use clap::error::ErrorKind;
use program::read_matches;
use std::alloc::{AllocError, Global};
pub use values::Values;

/// Words of the form: the command and what it uses, and the values.
#[derive(Drop)]
pub struct Words<'a> {
    pub call: Call<'a>,
    pub values: Values<'a>,
}

// Want of memory, as `clap` reports it.
fn memory_error(error: Error) -> AllocError
    requires { kind_of error ≡ ErrorKind.OutOfMemory }
{
    drop(error);
    AllocError
}

/// The words' command with its uses and values, exactly where they have the form. They are one call at most.
pub fn read_words<'a>(
    alloc: Global,
    table: &'a [Entry],
    words: &'a [String],
) -> Result<Option<Words<'a>>, AllocError>
    requires { AreReadable (map row_of table.now) }
    ensures call { IfOk result (λ o. IfSome o (λ w.
        IsCall (map row_of table.now) (texts_of words.now) (row_of w.call.row.now) (uses_in w.call.uses))) }
    ensures only { IfOk result (λ o. IfSome o (λ w.
        IsOnlyCall (map row_of table.now) (texts_of words.now) (row_of w.call.row.now) (uses_in w.call.uses))) }
    ensures values { IfOk result (λ o. IfSome o (λ w. HoldsCall (row_of w.call.row.now) (uses_in w.call.uses) w.values)) }
    ensures none { IfOk result (λ o. IfNone o (HasForm (map row_of table.now) (texts_of words.now) → ⊥)) }
{
    let Some(call) = read_call(alloc, table, words)? else {
        return Ok(None);
    };
    match read_matches(alloc, words, &call) {
        Ok(matches) => Ok(Some(Words {
            call,
            values: Values { matches },
        })),
        Err(error) => Err(memory_error(error)),
    }
}
