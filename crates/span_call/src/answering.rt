// The answer to words over spans of bytes, as it is shown.

ghost use Rattle.std.specs.Prelude.{◌≡◌, ◌≤◌, List, ℕ, Option, option_map};
ghost use Rattle.command_words.specs.Vocabulary.{texts_of};
ghost use Rattle.caller_memory.specs.Vocabulary.{texts};
ghost use Rattle.replies.specs.Vocabulary.{code_of};
ghost use Rattle.command_run.specs.Vocabulary.{IsTextOf, shown_of};
ghost use Rattle.span_call.specs.Called.{Called, line_of};
ghost use Rattle.span_call.specs.Rooms.{ShowsText};

use crate::ends::{Arguments, CallEnd, show_both};
use caller_memory::spans::SpanShelf;
use causal_cli::{Request, reply_to};
use command_run::{Ready, line_of, shown};
use diagram::Diagram;
use replies::Reply;
use std::alloc::Global;

/// Answers the words over the inputs, on the diagram that stands for their file where one is given; shows what is written, and gives the end.
pub fn answer_words(
    alloc: Global,
    words: &[String],
    given: Option<&Diagram>,
    arguments: &Arguments<'_>,
    out: &mut [u8],
    err: &mut [u8],
) -> CallEnd
    ensures called { (kept : Option (List ℕ)) → IsTextOf kept (option_map (λ d. d.now) given.entry) → texts_of words.now ≡ texts arguments.now.bytes.now arguments.now.words.now
        → Called kept arguments.now.bytes.now arguments.now.words.now arguments.now.inputs.now out.old out.new err.old err.new result.sizes result.status }
    ensures known { result.status ≤ 8 }
{
    let mut shelf = SpanShelf::of(arguments.bytes, arguments.inputs);
    let ready = reply_to(alloc, words, given, &mut shelf);
    show_reply(&ready, out, err)
}

/// Shows a reply in two rooms, and gives the end of its call.
pub fn show_reply(ready: &Ready, out: &mut [u8], err: &mut [u8]) -> CallEnd
    ensures status { result.status ≡ code_of ready.now.reply.outcome }
    ensures known { result.status ≤ 8 }
    ensures out { ShowsText (shown_of ready.now.format ready.now.reply) out.old out.new result.sizes.out }
    ensures err { ShowsText (line_of ready.now.reply) err.old err.new result.sizes.err }
{
    let answer = shown(&ready.reply, ready.format);
    CallEnd {
        status: ready.reply.outcome.code(),
        sizes: show_both(answer, line_in(&ready.reply), out, err),
    }
}

/// What is written as a line.
fn line_in(reply: &Reply) -> &[u8]
    ensures { result.now ≡ line_of reply.now }
{
    if reply.outcome.code() <= 1 {
        b""
    } else {
        line_of::<Request<'_>>(reply)
    }
}
