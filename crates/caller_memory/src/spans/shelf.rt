// A shelf over inputs that a caller passes.
ghost use Rattle.std.specs.Prelude.{◌≡◌, ◌≢◌, ◌≤◌, ◌<◌, ◌-◌, ◌^◌, List, ℕ, true, false, length, is_err, is_none, IsErr, IfOk, IfSome, OnOk, OnErr, option_copied};
ghost use Rattle.causal_io.specs.Vocabulary.{GivesFrom, risen, Rose};
ghost use Rattle.caller_memory.specs.Parts.{place_named, content_named};

use crate::spans::{Input, copy_front, part_of};
use causal_io::{Failed, Shelf};

/// Inputs by name, of which the first of a name counts. A read fails exactly where no input has the name.
#[derive(Drop)]
pub struct SpanShelf<'a> {
    bytes: &'a [u8],
    inputs: &'a [Input],
    lacked: u64,
    ghost capped: { lacked ≤ 2 ^ 64 - 1 },
}

impl<'a> SpanShelf<'a> {
    /// A shelf of these inputs, of which no read has failed.
    pub fn of(bytes: &'a [u8], inputs: &'a [Input]) -> SpanShelf<'a>
        ensures bytes { result.bytes.now ≡ bytes.now }
        ensures inputs { result.inputs.now ≡ inputs.now }
        ensures faults { result.lacked ≡ 0 }
    {
        SpanShelf {
            bytes,
            inputs,
            lacked: 0,
        }
    }
}

// The place of the first input of a name.
fn place(bytes: &[u8], inputs: &[Input], name: &str) -> Option<usize>
    ensures place { result ≡ place_named bytes.now inputs.now name.now }
    ensures within { IfSome result (λ i. i < length inputs.now) }
{
    inputs
        .iter()
        .position(|input| part_of(bytes, input.name) == name.as_bytes())
}

/// The content of the first input of a name.
pub fn content_named<'a>(bytes: &'a [u8], inputs: &[Input], name: &str) -> Option<&'a [u8]>
    ensures content { option_copied result ≡ content_named bytes.now inputs.now name.now }
    ensures lacked { is_none result ≡ is_none (place_named bytes.now inputs.now name.now) }
{
    match place(bytes, inputs, name) {
        Some(at) => Some(part_of(bytes, inputs[at].content)),
        None => None,
    }
}

// The bytes from a place on, as many as fit.
fn read_part(all: &[u8], from: u64, into: &mut [u8]) -> usize
    requires { 0 < length into.old }
    ensures gives { GivesFrom all.now from into.new result }
    ensures bound { result ≤ length into.old }
{
    if from >= all.len() as u64 {
        return 0;
    }
    copy_front(&all[from as usize..], into)
}

impl<'a> Shelf for SpanShelf<'a> {
    ghost use Rattle.caller_memory.specs.Held.{held_in, lacks_in, faults_in};
    ghost use Rattle.caller_memory.specs.Laws.{faults_shared, faults_capped};

    ghost held = { held_in };

    ghost lacks = { lacks_in };

    ghost faults = { faults_in };

    ghost reads = { λ _ _. 0 };

    ghost given = { λ _ _. 0 };

    ghost share = { faults_shared };

    ghost capped = { faults_capped };

    fn read(&mut self, name: &str, from: u64, into: &mut [u8]) -> Result<usize, Failed>
        requires { 0 < length into.old }
        ensures bound { IfOk result (λ count. count ≤ length into.old) }
        ensures told { IfSome (held_in self.old name.now) (λ all. IfOk result (GivesFrom all from into.new)) }
        ensures fails { is_err result ≡ lacks_in self.old name.now }
        ensures ok { OnOk result ((other : List ℕ) → faults_in self.new other ≡ faults_in self.old other) }
        ensures lacked { lacks_in self.old name.now ≡ true → IsErr result }
        ensures failed { OnErr result (Rose (faults_in self.old name.now) (faults_in self.new name.now)) }
        ensures err { OnErr result (faults_in self.new name.now ≡ risen (faults_in self.old name.now)) }
        ensures others { (other : List ℕ) → other ≢ name.now → (lacks_in self.old name.now ≡ true → lacks_in self.old other ≡ false) → faults_in self.new other ≡ faults_in self.old other }
        ensures never_falls { (other : List ℕ) → faults_in self.old other ≤ faults_in self.new other }
        ensures holds { held_in self.new ≡ held_in self.old }
        ensures lack { lacks_in self.new ≡ lacks_in self.old }
    {
        match content_named(self.bytes, self.inputs, name) {
            Some(all) => Ok(read_part(all, from, into)),
            None => {
                self.lacked = self.lacked.saturating_add(1);
                Err(Failed)
            }
        }
    }
}
