//! What is written of a reply: the line for `err`, and what `out` is shown.

ghost use Rattle.std.specs.Prelude.{◌≡◌};
ghost use Rattle.replies.specs.Vocabulary.{told_of};
ghost use Rattle.command_run.specs.Ends.{text_of, shown_of};
ghost use Rattle.command_run.specs.Shown.{object_in};

use crate::request::Request;
use replies::{Format, Outcome, Reply};

/// The line of a reply for `err`: its text, or the fixed line of an outcome that no command answers.
pub fn line_of<'a, R: Request<'a>>(reply: &Reply) -> &[u8]
    ensures { result.now ≡ text_of R.commands reply.now }
{
    match reply.outcome {
        Outcome::Words => R::words_line(),
        Outcome::Read => b"causal: read failed\n",
        Outcome::Write => b"causal: write failed\n",
        Outcome::Memory => b"causal: no memory\n",
        _ => reply.text.as_slice(),
    }
}

/// What `out` is shown of a reply: its text, where it is an answer, and its object where it is a refusal and JSON is asked for.
pub fn shown(reply: &Reply, format: Format) -> &[u8]
    ensures { result.now ≡ shown_of format reply.now }
{
    match reply.outcome {
        Outcome::Yes | Outcome::No => reply.text.as_slice(),
        Outcome::Graph | Outcome::Second | Outcome::Evaluation => object_in(reply, format),
        _ => b"",
    }
}

/// The object of a reply, where JSON is asked for.
fn object_in(reply: &Reply, format: Format) -> &[u8]
    ensures { result.now ≡ object_in format (told_of reply.now) }
{
    match format {
        Format::Text => b"",
        Format::Json => reply.object.as_slice(),
    }
}
