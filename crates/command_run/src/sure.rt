//! The run of any commands over an input and an output that never fail.

ghost use Rattle.std.specs.Prelude.{◌≡◌, ◌≢◌, false, None};
ghost use Rattle.command_words.specs.Vocabulary.{texts_of};
ghost use Rattle.causal_io.specs.Vocabulary.{held_surely};
ghost use Rattle.command_run.specs.Laws.{AreLawful};
ghost use Rattle.command_run.specs.Complete.{Complete, IsExact};
ghost use Rattle.command_run.specs.Run.{Ended, run_on, stream_of};

use crate::request::Request;
use crate::top::{Status, run};
use causal_io::{Sink, SureShelf, SureSink};
use std::alloc::Global;

/// `run` over an input and an output that never fail: a failed read or write is never answered, and the status is that of the defined answer, or memory was refused.
pub fn run_surely<'a, R: Request<'a>, E: Sink>(
    alloc: Global,
    words: &'a [String],
    shelf: &mut SureShelf,
    out: &mut SureSink,
    err: &mut E,
) -> Status
    requires { AreLawful R.commands }
    ensures ended { Ended R.commands (run_on (texts_of words.now) (held_surely shelf.old) (λ _. false) (λ _. 0) (λ _. 0) (stream_of None None 0 0))
        (stream_of (E.written err.old) (E.written err.new) (E.faults err.old) (E.faults err.new)) result.code }
    ensures complete { Complete R.commands (run_on (texts_of words.now) (held_surely shelf.old) (λ _. false) (λ _. 0) (λ _. 0) (stream_of None None 0 0)) result.code }
    ensures exact { IsExact R.commands (run_on (texts_of words.now) (held_surely shelf.old) (λ _. false) (λ _. 0) (λ _. 0) (stream_of None None 0 0)) result.code }
    ensures read { result.code ≢ 6 }
    ensures write { result.code ≢ 7 }
{
    run::<R, SureShelf, SureSink, E>(alloc, words, shelf, out, err)
}
