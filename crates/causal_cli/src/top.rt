//! The run of all commands, with the headline.

ghost use Rattle.std.specs.Prelude.{◌≡◌, List, ℕ, Option, option_map};
ghost use Rattle.command_words.specs.Vocabulary.{texts_of};
ghost use Rattle.command_run.specs.Vocabulary.{Stream, Ended, run_on, run_with, stream_of, reads_of, ReadsAsAsked, RepliesWith, IsInFormat, IsTextOf, Stays};
ghost use Rattle.command_run.specs.Complete.{Complete};
ghost use Rattle.causal_cli.specs.Calls.{call_on};
ghost use Rattle.causal_cli.specs.Commands.{commands};
ghost use Rattle.causal_cli.specs.Headline.{Headline};
ghost use Rattle.causal_cli.specs.Drawn.{RightAsDrawn};

use crate::request::Request;
use causal_io::{Shelf, Sink};
use command_run::{Ready, Status};
use diagram::Diagram;
use std::alloc::Global;

/// Runs the command that the words name: reads its inputs from the shelf and writes its answer to `out`,
/// or a line to `err` where the words, the graph, the target or the second input are refused or a device fails;
/// where JSON is asked for, the object of such a refusal goes to `out` as well.
pub fn run<S: Shelf, O: Sink, E: Sink>(
    alloc: Global,
    words: &[String],
    shelf: &mut S,
    out: &mut O,
    err: &mut E,
) -> Status
    ensures ended { Ended commands (run_on (texts_of words.now) (S.held shelf.old) (S.lacks shelf.old) (S.faults shelf.old) (S.faults shelf.new)
        (stream_of (O.written out.old) (O.written out.new) (O.faults out.old) (O.faults out.new))) (stream_of (E.written err.old) (E.written err.new) (E.faults err.old) (E.faults err.new)) result.code }
    ensures complete { Complete commands (run_on (texts_of words.now) (S.held shelf.old) (S.lacks shelf.old) (S.faults shelf.old) (S.faults shelf.new)
        (stream_of (O.written out.old) (O.written out.new) (O.faults out.old) (O.faults out.new))) result.code }
    ensures headline { Headline (run_on (texts_of words.now) (S.held shelf.old) (S.lacks shelf.old) (S.faults shelf.old) (S.faults shelf.new)
        (stream_of (O.written out.old) (O.written out.new) (O.faults out.old) (O.faults out.new))) result.code }
    ensures drawn { RightAsDrawn (call_on (texts_of words.now) (S.held shelf.old) (O.written out.old) (O.written out.new)) result.code }
    ensures reads { ReadsAsAsked commands (run_on (texts_of words.now) (S.held shelf.old) (S.lacks shelf.old) (S.faults shelf.old) (S.faults shelf.new)
        (stream_of (O.written out.old) (O.written out.new) (O.faults out.old) (O.faults out.new))) (reads_of (S.reads shelf.old) (S.reads shelf.new) (S.given shelf.old) (S.given shelf.new)) }
    ensures holds { S.held shelf.new ≡ S.held shelf.old }
    ensures lack { S.lacks shelf.new ≡ S.lacks shelf.old }
{
    command_run::run::<Request<'_>, S, O, E>(alloc, words, shelf, out, err)
}

/// The reply to the words, for which their inputs are read and nothing is written. A diagram that is given stands for their file, which isn't read then.
pub fn reply_to<S: Shelf>(
    alloc: Global,
    words: &[String],
    given: Option<&Diagram>,
    shelf: &mut S,
) -> Ready
    ensures replies { (kept : Option (List ℕ)) → IsTextOf kept (option_map (λ d. d.now) given.entry) → (out : Stream)
        → RepliesWith commands (run_with kept (texts_of words.now) (S.held shelf.old) (S.lacks shelf.old) (S.faults shelf.old) (S.faults shelf.new) out) result.reply }
    ensures format { IsInFormat commands (texts_of words.now) result }
    ensures reads { (kept : Option (List ℕ)) → IsTextOf kept (option_map (λ d. d.now) given.entry) → (out : Stream)
        → ReadsAsAsked commands (run_with kept (texts_of words.now) (S.held shelf.old) (S.lacks shelf.old) (S.faults shelf.old) (S.faults shelf.new) out)
        (reads_of (S.reads shelf.old) (S.reads shelf.new) (S.given shelf.old) (S.given shelf.new)) }
    ensures stays { Stays (S.held shelf.old) (S.held shelf.new) (S.lacks shelf.old) (S.lacks shelf.new) }
{
    command_run::reply_to::<Request<'_>, S>(alloc, words, given, shelf)
}
