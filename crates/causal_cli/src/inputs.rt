// The inputs that words may ask for.

ghost use Rattle.std.specs.Prelude.{◌≡◌, IfOk, IsErrOf, Some, None, option_map};
ghost use Rattle.command_words.specs.Vocabulary.{texts_of};
ghost use Rattle.command_run.specs.Commands as asked;
ghost use Rattle.command_run.specs.Vocabulary.{Asks};
ghost use Rattle.causal_cli.specs.Commands.{commands, request_of};
ghost use Rattle.causal_cli.specs.Inputs.{AreInputs, AreInputsOf};

use crate::request::Request;
use command_run::read_request;
use command_words::typed::RequestFault;
use std::alloc::Global;

/// The most bytes of a certificate, and of a table of counts.
const MOST_BYTES: u64 = 67_108_864;

/// The most bytes of a second graph.
const MOST_GRAPH_BYTES: u64 = 1_048_576;

/// The inputs that a request may read: the names of its file and of its second input, and the most bytes of that which an answer reads.
#[derive(Clone, Copy)]
pub struct Inputs<'a> {
    pub file: Option<&'a str>,
    pub second: Option<&'a str>,
    pub most: u64,
}

impl<'a> Inputs<'a> {
    /// None.
    fn none() -> Inputs<'a>
        ensures file { result.file ≡ None }
        ensures second { result.second ≡ None }
    {
        Inputs {
            file: None,
            second: None,
            most: 0,
        }
    }

    /// A file alone.
    fn file(name: &'a str) -> Inputs<'a>
        ensures file { option_map (λ s. s.now) result.file ≡ Some name.now }
        ensures second { result.second ≡ None }
    {
        Inputs {
            file: Some(name),
            second: None,
            most: 0,
        }
    }

    /// A file and a second input with at most so many bytes.
    fn two(name: &'a str, second: &'a str, most: u64) -> Inputs<'a>
        ensures file { option_map (λ s. s.now) result.file ≡ Some name.now }
        ensures second { option_map (λ s. s.now) result.second ≡ Some second.now }
        ensures most { result.most ≡ most }
    {
        Inputs {
            file: Some(name),
            second: Some(second),
            most,
        }
    }
}

/// The inputs that the words may ask for.
pub fn inputs_of<'a>(alloc: Global, words: &'a [String]) -> Result<Inputs<'a>, RequestFault>
    ensures asks { IfOk result (AreInputs (texts_of words.now)) }
    ensures none { IsErrOf result RequestFault.NotUnderstood → (q : asked.Request commands) → Asks commands (texts_of words.now) q → ⊥ }
{
    match read_request::<Request<'a>>(alloc, words) {
        Ok(request) => Ok(inputs_of_request(&request)),
        Err(fault) => Err(fault),
    }
}

/// The inputs of a request.
fn inputs_of_request<'a>(request: &Request<'a>) -> Inputs<'a>
    ensures { AreInputsOf (request_of request.now) result }
{
    match request {
        Request::Graph(asked) => Inputs::file(asked.file),
        Request::Separate(asked) => Inputs::file(asked.file),
        Request::Rule(asked) => Inputs::file(asked.file),
        Request::Identify(asked) => Inputs::file(asked.file),
        Request::Check(asked) => Inputs::two(asked.file, asked.certificate, MOST_BYTES),
        Request::Adjust(asked) => Inputs::file(asked.file),
        Request::Evaluate(asked) => Inputs::two(asked.file, asked.counts, MOST_BYTES),
        Request::EvaluateTreated(asked) => {
            Inputs::two(asked.effect.file, asked.counts, MOST_BYTES)
        }
        Request::EvaluateNatural(asked) => {
            Inputs::two(asked.effect.file, asked.counts, MOST_BYTES)
        }
        Request::Equivalent(asked) => Inputs::two(asked.file, asked.second, MOST_GRAPH_BYTES),
        Request::Implications(asked) => counted(asked),
        Request::Survey(_) => Inputs::none(),
        Request::Bounds(asked) => Inputs::two(asked.file, asked.counts, MOST_BYTES),
        Request::Surrogate(asked) => Inputs::file(asked.file),
        Request::Treated(asked) => Inputs::file(asked.file),
        Request::Instruments(asked) => Inputs::file(asked.file),
        Request::Natural(asked) => Inputs::file(asked.file),
        Request::Steps(asked) => Inputs::two(asked.file, asked.certificate, MOST_BYTES),
    }
}

/// The inputs of a list of implications, whose counts may be missing.
fn counted<'a>(asked: &implications_command::Request<'a>) -> Inputs<'a>
    ensures { AreInputsOf (request_of (Request.Implications asked.now)) result }
{
    Inputs {
        file: Some(asked.file),
        second: asked.counts,
        most: MOST_BYTES,
    }
}
