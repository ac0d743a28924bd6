//! The run of any commands: words are read, inputs are read, and the answer is written.

ghost use Rattle.std.specs.Prelude.{◌≡◌, ◌≤◌, ℕ, List, [], Option, Some, IfOk, IfErr, IfSome, is_some, option_map};
ghost use Rattle.command_words.specs.Vocabulary.{Text, texts_of};
ghost use Rattle.command_run.specs.Run.{Stream, Ended, Received, run_on, run_with, stream_of, reads_of, ReadsAsAsked};
ghost use Rattle.command_run.specs.Complete.{Complete};
ghost use Rattle.command_run.specs.Commands.{Asks, file_of};
ghost use Rattle.command_run.specs.Laws.{AreLawful};
ghost use Rattle.command_run.specs.Answers.{IsAnsweredWith};
ghost use Rattle.command_run.specs.Ends.{RepliesWith, EndsWith, IsTextOf, IsOfFile, WereRead, IsReadOf, Stays, IsTooLong, TellsUnread, ReadsSecond, ReadsBeside, Delivers, IsInFormat, Proceeds, shown_of, text_of};

use crate::lines::{line_of, shown};
use crate::ready::Ready;
use crate::replying::{or_memory, read_diagram, reply_on_second};
use crate::request::{AfterFile, AfterWords, Request, SecondInput};
use crate::words::read_request;
use causal_io::{ReadError, Shelf, Sink, read_all, write_all};
use command_words::typed::RequestFault;
use diagram::Diagram;
use replies::{Format, Outcome, Reply, refuse_size};
use std::alloc::Global;

/// The most bytes of a graph text.
const MAX_GRAPH_BYTES: u64 = 1_048_576;

/// The status with which a run ended.
#[derive(Drop)]
pub struct Status {
    pub code: u8,
    pub ghost known: { code ≤ 8 },
}

/// Runs the command that the words name: reads its inputs from the shelf and writes its answer to `out`,
/// or a line to `err` where the words, the graph, the target or the second input are refused or a device fails;
/// where JSON is asked for, the object of such a refusal goes to `out` as well.
pub fn run<'a, R: Request<'a>, S: Shelf, O: Sink, E: Sink>(
    alloc: Global,
    words: &'a [String],
    shelf: &mut S,
    out: &mut O,
    err: &mut E,
) -> Status
    requires { AreLawful R.commands }
    ensures ended { Ended R.commands (run_on (texts_of words.now) (S.held shelf.old) (S.lacks shelf.old) (S.faults shelf.old) (S.faults shelf.new)
        (stream_of (O.written out.old) (O.written out.new) (O.faults out.old) (O.faults out.new))) (stream_of (E.written err.old) (E.written err.new) (E.faults err.old) (E.faults err.new)) result.code }
    ensures complete { Complete R.commands (run_on (texts_of words.now) (S.held shelf.old) (S.lacks shelf.old) (S.faults shelf.old) (S.faults shelf.new)
        (stream_of (O.written out.old) (O.written out.new) (O.faults out.old) (O.faults out.new))) result.code }
    ensures reads { ReadsAsAsked R.commands (run_on (texts_of words.now) (S.held shelf.old) (S.lacks shelf.old) (S.faults shelf.old) (S.faults shelf.new)
        (stream_of (O.written out.old) (O.written out.new) (O.faults out.old) (O.faults out.new))) (reads_of (S.reads shelf.old) (S.reads shelf.new) (S.given shelf.old) (S.given shelf.new)) }
    ensures holds { S.held shelf.new ≡ S.held shelf.old }
    ensures lack { S.lacks shelf.new ≡ S.lacks shelf.old }
{
    let Ready { reply, format } = reply_to::<R, S>(alloc, words, None, shelf);
    let last = deliver(alloc, out, reply, format);
    report::<R, E>(err, &last);
    Status {
        code: last.outcome.code(),
    }
}

/// Writes the line of the last reply to `err`; nothing on an answer.
fn report<'a, R: Request<'a>, E: Sink>(err: &mut E, last: &Reply)
    ensures { Received (stream_of (E.written err.old) (E.written err.new) (E.faults err.old) (E.faults err.new)) last.now.outcome (text_of R.commands last.now) }
{
    match last.outcome {
        Outcome::Yes | Outcome::No => {}
        _ => {
            let _ = write_all(err, line_of::<R>(last));
        }
    }
}

/// The reply to the words, for which their inputs are read and nothing is written. A diagram that is given stands for their file, which isn't read then.
pub fn reply_to<'a, R: Request<'a>, S: Shelf>(
    alloc: Global,
    words: &'a [String],
    given: Option<&Diagram>,
    shelf: &mut S,
) -> Ready
    requires { AreLawful R.commands }
    ensures replies { (kept : Option (List ℕ)) → IsTextOf kept (option_map (λ d. d.now) given.entry) → (out : Stream)
        → RepliesWith R.commands (run_with kept (texts_of words.now) (S.held shelf.old) (S.lacks shelf.old) (S.faults shelf.old) (S.faults shelf.new) out) result.reply }
    ensures format { IsInFormat R.commands (texts_of words.now) result }
    ensures reads { (kept : Option (List ℕ)) → IsTextOf kept (option_map (λ d. d.now) given.entry) → (out : Stream)
        → ReadsAsAsked R.commands (run_with kept (texts_of words.now) (S.held shelf.old) (S.lacks shelf.old) (S.faults shelf.old) (S.faults shelf.new) out)
        (reads_of (S.reads shelf.old) (S.reads shelf.new) (S.given shelf.old) (S.given shelf.new)) }
    ensures stays { Stays (S.held shelf.old) (S.held shelf.new) (S.lacks shelf.old) (S.lacks shelf.new) }
{
    let request = match read_request::<R>(alloc, words) {
        Ok(request) => request,
        Err(RequestFault::NotUnderstood) => return Ready::bare(alloc, Outcome::Words),
        Err(RequestFault::NoMemory) => return Ready::bare(alloc, Outcome::Memory),
    };
    let format = request.format();
    let file = match request.after_words(alloc) {
        Ok(AfterWords::Reads(file)) => file,
        Ok(AfterWords::Replied(reply)) => return Ready { reply, format },
        Err(_) => return Ready::bare(alloc, Outcome::Memory),
    };
    match given {
        Some(diagram) => {
            let reply = answer_on::<R, S>(alloc, file, None, diagram, request, shelf);
            Ready { reply, format }
        }
        None => {
            let reply = answer_on_file::<R, S>(alloc, file, request, shelf);
            Ready { reply, format }
        }
    }
}

/// Reads the file of a request and answers on it.
fn answer_on_file<'a, R: Request<'a>, S: Shelf>(
    alloc: Global,
    file: &str,
    request: R,
    shelf: &mut S,
) -> Reply
    requires lawful { AreLawful R.commands }
    requires names { file_of R.commands (R.request request) ≡ Some file.now }
    ensures replies { (words : List Text) → Asks R.commands words (R.request request) → (out : Stream)
        → RepliesWith R.commands (run_on words (S.held shelf.old) (S.lacks shelf.old) (S.faults shelf.old) (S.faults shelf.new) out) result }
    ensures reads { (words : List Text) → Asks R.commands words (R.request request) → (out : Stream)
        → ReadsAsAsked R.commands (run_on words (S.held shelf.old) (S.lacks shelf.old) (S.faults shelf.old) (S.faults shelf.new) out) (reads_of (S.reads shelf.old) (S.reads shelf.new) (S.given shelf.old) (S.given shelf.new)) }
    ensures stays { Stays (S.held shelf.old) (S.held shelf.new) (S.lacks shelf.old) (S.lacks shelf.new) }
{
    let bytes = match read_all(alloc, shelf, file, MAX_GRAPH_BYTES) {
        Ok(bytes) => bytes,
        Err(fault) => return unread_graph(alloc, fault),
    };
    match read_diagram(alloc, &bytes) {
        Ok(diagram) => answer_on::<R, S>(
            alloc,
            file,
            Some(bytes.as_slice()),
            &diagram,
            request,
            shelf,
        ),
        Err(reply) => reply,
    }
}

/// Answers a request on the diagram of its file, of which these bytes were read where any were.
fn answer_on<'a, R: Request<'a>, S: Shelf>(
    alloc: Global,
    file: &str,
    bytes: Option<&[u8]>,
    diagram: &Diagram,
    request: R,
    shelf: &mut S,
) -> Reply
    requires lawful { AreLawful R.commands }
    requires names { file_of R.commands (R.request request) ≡ Some file.now }
    requires read { IfSome bytes (λ b. WereRead (S.held shelf.now) (S.lacks shelf.now) file.now b.now) }
    ensures replies { (kept : Option (List ℕ)) → IsOfFile kept (S.held shelf.old) (S.lacks shelf.old) file.now diagram.now → (words : List Text) → Asks R.commands words (R.request request)
        → (before : Text → ℕ) → ((name : Text) → before name ≤ S.faults shelf.old name) → (out : Stream)
        → RepliesWith R.commands (run_with kept words (S.held shelf.old) (S.lacks shelf.old) before (S.faults shelf.new) out) result }
    ensures reads { ReadsBeside R.commands (R.request request) diagram.now (S.held shelf.old) (reads_of (S.reads shelf.old) (S.reads shelf.new) (S.given shelf.old) (S.given shelf.new)) file.now (is_some bytes.entry) }
    ensures stays { Stays (S.held shelf.old) (S.held shelf.new) (S.lacks shelf.old) (S.lacks shelf.new) }
{
    match request.reply_on(alloc, diagram) {
        Err(_) => Reply::bare(alloc, Outcome::Memory),
        Ok(AfterFile::Replied(reply)) => reply,
        Ok(AfterFile::Continues(input)) => proceed(alloc, file, bytes, diagram, &input, shelf),
    }
}

/// Reads the second input and answers on it.
fn proceed<I: SecondInput, S: Shelf>(
    alloc: Global,
    file: &str,
    bytes: Option<&[u8]>,
    diagram: &Diagram,
    input: &I,
    shelf: &mut S,
) -> Reply
    requires read { IfSome bytes (λ b. WereRead (S.held shelf.now) (S.lacks shelf.now) file.now b.now) }
    requires accepted { (I.left diagram.now input.now).known }
    requires answered { IsAnsweredWith (I.left diagram.now input.now) }
    ensures proceeds { Proceeds (S.held shelf.old) (S.lacks shelf.old) (S.faults shelf.old) (S.faults shelf.new) (I.left diagram.now input.now) result }
    ensures reads { ReadsSecond (S.held shelf.old) (reads_of (S.reads shelf.old) (S.reads shelf.new) (S.given shelf.old) (S.given shelf.new)) file.now (is_some bytes.entry) (I.left diagram.now input.now).second }
    ensures stays { Stays (S.held shelf.old) (S.held shelf.new) (S.lacks shelf.old) (S.lacks shelf.new) }
{
    let read = read_second(alloc, file, bytes, input.second(), input.limit(), shelf);
    or_memory(alloc, reply_on_second(alloc, diagram, input, read))
}

/// The bytes of the second input. A file that was read isn't read again.
fn read_second<S: Shelf>(
    alloc: Global,
    file: &str,
    bytes: Option<&[u8]>,
    second: &str,
    limit: u64,
    shelf: &mut S,
) -> Result<Vec<u8>, ReadError>
    requires read { IfSome bytes (λ b. WereRead (S.held shelf.now) (S.lacks shelf.now) file.now b.now) }
    requires least { 1048576 ≤ limit }
    ensures answer { IsReadOf (S.held shelf.old second.now) (S.lacks shelf.old second.now) (S.faults shelf.old second.now) (S.faults shelf.new second.now) limit result }
    ensures reads { ReadsSecond (S.held shelf.old) (reads_of (S.reads shelf.old) (S.reads shelf.new) (S.given shelf.old) (S.given shelf.new)) file.now (is_some bytes.entry) second.now }
    ensures stays { Stays (S.held shelf.old) (S.held shelf.new) (S.lacks shelf.old) (S.lacks shelf.new) }
{
    let Some(bytes) = bytes else {
        return read_all(alloc, shelf, second, limit);
    };
    if second == file {
        return copied(alloc, bytes);
    }
    read_all(alloc, shelf, second, limit)
}

/// A copy of what was read before.
fn copied(alloc: Global, bytes: &[u8]) -> Result<Vec<u8>, ReadError>
    ensures copy { IfOk result (λ copy. copy.items ≡ bytes.now) }
    ensures fault { IfErr result (λ fault. fault ≡ ReadError.NoMemory) }
{
    match Vec::from_slice(alloc, bytes) {
        Ok(copy) => Ok(copy),
        Err(_) => Err(ReadError::NoMemory),
    }
}

/// The reply to a file that couldn't be read whole.
fn unread_graph(alloc: Global, fault: ReadError) -> Reply
    ensures { TellsUnread fault result }
{
    match fault {
        ReadError::Fault => Reply::bare(alloc, Outcome::Read),
        ReadError::TooLong { limit: _ } => too_long(alloc),
        ReadError::NoMemory => Reply::bare(alloc, Outcome::Memory),
    }
}

/// The reply to a graph text that is too long.
fn too_long(alloc: Global) -> Reply
    ensures { IsTooLong result }
{
    or_memory(alloc, refuse_size(alloc))
}

/// Writes what a reply shows to `out`. Where it shows nothing, nothing is written, and so no write can fail.
fn deliver<O: Sink>(alloc: Global, out: &mut O, reply: Reply, format: Format) -> Reply
    ensures { Delivers (stream_of (O.written out.old) (O.written out.new) (O.faults out.old) (O.faults out.new)) format reply result }
{
    if shown(&reply, format).is_empty() {
        return reply;
    }
    write_reply(alloc, out, reply, format)
}

/// Writes what a reply shows.
fn write_reply<O: Sink>(alloc: Global, out: &mut O, reply: Reply, format: Format) -> Reply
    requires { shown_of format reply ≡ [] → ⊥ }
    ensures { Delivers (stream_of (O.written out.old) (O.written out.new) (O.faults out.old) (O.faults out.new)) format reply result }
{
    match write_all(out, shown(&reply, format)) {
        Ok(()) => reply,
        Err(_) => Reply::bare(alloc, Outcome::Write),
    }
}
