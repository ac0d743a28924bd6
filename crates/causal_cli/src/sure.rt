//! The run over an input and an output that never fail.

ghost use Rattle.std.specs.Prelude.{◌≡◌, ◌≢◌, false, None};
ghost use Rattle.command_words.specs.Vocabulary.{texts_of};
ghost use Rattle.causal_io.specs.Vocabulary.{held_surely};
ghost use Rattle.command_run.specs.Complete.{Complete};
ghost use Rattle.command_run.specs.Vocabulary.{IsExact, Ended, run_on, stream_of};
ghost use Rattle.causal_cli.specs.Calls.{call_on};
ghost use Rattle.causal_cli.specs.Commands.{commands};
ghost use Rattle.causal_cli.specs.Drawn.{RightAsDrawn};
ghost use Rattle.causal_cli.specs.Headline.{Headline};

use crate::request::Request;
use causal_io::{Sink, SureShelf, SureSink};
use command_run::Status;
use std::alloc::Global;

/// `run` over an input and an output that never fail: a failed read or write is never answered, and the status is that of the defined answer, or memory was refused.
pub fn run_surely<E: Sink>(
    alloc: Global,
    words: &[String],
    shelf: &mut SureShelf,
    out: &mut SureSink,
    err: &mut E,
) -> Status
    ensures ended { Ended commands (run_on (texts_of words.now) (held_surely shelf.old) (λ _. false) (λ _. 0) (λ _. 0) (stream_of None None 0 0))
        (stream_of (E.written err.old) (E.written err.new) (E.faults err.old) (E.faults err.new)) result.code }
    ensures complete { Complete commands (run_on (texts_of words.now) (held_surely shelf.old) (λ _. false) (λ _. 0) (λ _. 0) (stream_of None None 0 0)) result.code }
    ensures headline { Headline (run_on (texts_of words.now) (held_surely shelf.old) (λ _. false) (λ _. 0) (λ _. 0) (stream_of None None 0 0)) result.code }
    ensures drawn { RightAsDrawn (call_on (texts_of words.now) (held_surely shelf.old) None None) result.code }
    ensures exact { IsExact commands (run_on (texts_of words.now) (held_surely shelf.old) (λ _. false) (λ _. 0) (λ _. 0) (stream_of None None 0 0)) result.code }
    ensures read { result.code ≢ 6 }
    ensures write { result.code ≢ 7 }
{
    command_run::run_surely::<Request<'_>, E>(alloc, words, shelf, out, err)
}
