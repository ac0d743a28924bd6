// The inputs that the words of a call may ask for.

ghost use Rattle.std.specs.Prelude.{◌≡◌, ◌≤◌, ◌⊎◌, ◌++◌, IfOk, option_map};
ghost use Rattle.caller_memory.specs.Vocabulary.{AreTexts, IsNoText};
ghost use Rattle.span_call.specs.Wanted.{TellsInputs, IsTold, AskForNothing, bytes_of, one_if};

use crate::ends::{Arguments, call_words, show};
use caller_memory::spans::Span;
use causal_cli::{Inputs, inputs_of};
use command_words::typed::RequestFault;
use std::alloc::{AllocError, Global};

/// The status where the words aren't understood.
const NOT_UNDERSTOOD: u8 = 2;

/// The status where memory is refused.
const NO_MEMORY: u8 = 8;

/// The inputs that words may ask for: how many, the bytes of the name of each, and the most bytes of the second that an answer reads.
#[repr(C)]
#[derive(Clone, Copy, Debug)]
pub struct Wanted {
    pub count: usize,
    pub file: usize,
    pub second: usize,
    pub most: u64,
}

impl Wanted {
    /// None.
    pub fn nothing() -> Wanted
        ensures { result ≡ record { count = 0; file = 0; second = 0; most = 0 } }
    {
        Wanted {
            count: 0,
            file: 0,
            second: 0,
            most: 0,
        }
    }
}

/// What a call for the inputs gives: its status, and the inputs.
#[derive(Clone, Copy)]
pub struct WantedEnd {
    pub status: u8,
    pub wanted: Wanted,
}

/// Tells which inputs the words may ask for, shows their names one behind the other, and gives the status.
pub fn wanted_spans(alloc: Global, bytes: &[u8], words: &[Span], names: &mut [u8]) -> WantedEnd
    ensures told { result.status ≡ 0 → TellsInputs bytes.now words.now names.old names.new result.wanted }
    ensures nothing { result.status ≡ 2 → AskForNothing bytes.now words.now }
    ensures not_text { result.status ≡ 9 → IsNoText bytes.now words.now }
    ensures are_texts { result.status ≤ 8 → AreTexts bytes.now words.now }
    ensures known { (result.status ≡ 0) ⊎ ((result.status ≡ 2) ⊎ ((result.status ≡ 8) ⊎ ((result.status ≡ 9) ⊎ (result.status ≡ 10)))) }
    ensures stays { 2 ≤ result.status → names.new ≡ names.old }
    ensures none { 2 ≤ result.status → result.wanted ≡ record { count = 0; file = 0; second = 0; most = 0 } }
{
    let arguments = Arguments {
        bytes,
        words,
        inputs: &[],
    };
    let words = match call_words(alloc, &arguments) {
        Ok(words) => words,
        Err(end) => return silent(end.status),
    };
    match inputs_of(alloc, &words) {
        Ok(inputs) => told(alloc, &inputs, names),
        Err(fault) => silent(status_of(fault)),
    }
}

/// The end of a call that tells nothing.
fn silent(status: u8) -> WantedEnd
    ensures status { result.status ≡ status }
    ensures none { result.wanted ≡ record { count = 0; file = 0; second = 0; most = 0 } }
{
    WantedEnd {
        status,
        wanted: Wanted::nothing(),
    }
}

/// The status of words that ask for nothing, or for which memory is refused.
fn status_of(fault: RequestFault) -> u8
    ensures nothing { result ≡ 2 → fault ≡ RequestFault.NotUnderstood }
    ensures known { (result ≡ 2) ⊎ (result ≡ 8) }
{
    match fault {
        RequestFault::NotUnderstood => NOT_UNDERSTOOD,
        RequestFault::NoMemory => NO_MEMORY,
    }
}

/// Shows the names of some inputs, and tells their sizes.
fn told(alloc: Global, inputs: &Inputs<'_>, names: &mut [u8]) -> WantedEnd
    ensures told { result.status ≡ 0 → IsTold inputs.now names.old names.new result.wanted }
    ensures known { (result.status ≡ 0) ⊎ (result.status ≡ 8) }
    ensures stays { 2 ≤ result.status → names.new ≡ names.old }
    ensures none { 2 ≤ result.status → result.wanted ≡ record { count = 0; file = 0; second = 0; most = 0 } }
{
    let (file, second) = (name_bytes(inputs.file), name_bytes(inputs.second));
    let Ok(both) = joined(alloc, file, second) else {
        return silent(NO_MEMORY);
    };
    show(&both, names);
    WantedEnd {
        status: 0,
        wanted: Wanted {
            count: one_if(inputs.file) + one_if(inputs.second),
            file: file.len(),
            second: second.len(),
            most: inputs.most,
        },
    }
}

/// The bytes of a name, or none.
fn name_bytes(name: Option<&str>) -> &[u8]
    ensures { result.now ≡ bytes_of (option_map (λ s. s.now) name.entry) }
{
    match name {
        Some(name) => name.as_bytes(),
        None => &[],
    }
}

/// One where there is a name.
fn one_if(name: Option<&str>) -> usize
    ensures count { result ≡ one_if (option_map (λ s. s.now) name.entry) }
    ensures most { result ≤ 1 }
{
    match name {
        Some(_) => 1,
        None => 0,
    }
}

/// Two runs of bytes, one behind the other.
fn joined(alloc: Global, first: &[u8], second: &[u8]) -> Result<Vec<u8>, AllocError>
    ensures { IfOk result (λ v. v.items ≡ first.now ++ second.now) }
{
    let mut both = Vec::from_slice(alloc, first)?;
    both.extend_from_slice(second)?;
    Ok(both)
}
