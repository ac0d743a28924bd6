//! Where a program's bytes come from and where they go, with failures that are counted.
//!
//! `read_all(alloc, &mut shelf, name, limit)` gives all bytes that are held under a name.
#![tactic(auto)]

ghost use Rattle.std.specs.Prelude.{◌≡◌, ◌≢◌, ◌+◌, ◌-◌, ◌^◌, ◌<◌, ◌≤◌, List, ℕ, Bool, Option, true, false, length, take, IfOk, OnOk, OnErr, IfSome, IsErr, IsErrOf};
ghost use Rattle.std.specs.Io.KnownBytes.{Appends};
ghost use Rattle.std.specs.Result.{result_unwrap_or};
ghost use Rattle.causal_io.specs.Causes.{Rose};
ghost use Rattle.causal_io.specs.Shelf.{GivesFrom};
ghost use Rattle.causal_io.specs.Sink.{TakesFront};
ghost use Rattle.causal_io.specs.Reading.{AnswersAll, IsReadOnce};

mod faults;
mod memory;
mod outside;
mod sure;

pub use memory::{MemoryShelf, MemorySink};
pub use outside::{CountedWriter, ErrSink, FileShelf, OutSink};
use std::alloc::Global;
pub use sure::{SureShelf, SureSink};
use thiserror::Error;

/// A read or a write that failed.
#[derive(Clone, Copy, Debug, PartialEq, Eq)]
pub struct Failed;

/// Why not all that stands under a name was read.
#[derive(Clone, Copy, Debug, PartialEq, Eq, Error)]
pub enum ReadError {
    #[error("Fault")]
    Fault,
    #[error("TooLong")]
    TooLong { limit: u64 },
    #[error("NoMemory")]
    NoMemory,
}

/// Why a piece wasn't written whole.
#[derive(Clone, Copy, Debug, PartialEq, Eq, Error)]
pub enum WriteError {
    #[error("Fault")]
    Fault,
}

/// Texts by name.
pub trait Shelf {
    /// What it holds under a name, where it tells.
    ghost held: { Self → List ℕ → Option (List ℕ) };

    /// Whether it lacks a name.
    ghost lacks: { Self → List ℕ → Bool };

    /// How often a read of a name has failed.
    ghost faults: { Self → List ℕ → ℕ };

    /// How often a name was read, where it tells.
    ghost reads: { Self → List ℕ → ℕ };

    /// How many bytes of a name it gave, where it tells.
    ghost given: { Self → List ℕ → ℕ };

    /// Reads the bytes from a place on into the front of `into`. `Ok(0)` is the end.
    /// After `Failed` what `into` holds is open.
    fn read(&mut self, name: &str, from: u64, into: &mut [u8]) -> Result<usize, Failed>
        requires { 0 < length into.old }
        ensures bound { IfOk result (λ count. count ≤ length into.old) }
        ensures told { IfSome (held self.old name.now) (λ all. IfOk result (GivesFrom all from into.new)) }
        ensures lacked { lacks self.old name.now ≡ true → IsErr result }

        // A failure is counted under its name, or under the names that are lacked if it is one of them.
        ensures failed { OnErr result (Rose (faults self.old name.now) (faults self.new name.now)) }
        ensures never_falls { (other : List ℕ) → faults self.old other ≤ faults self.new other }
        ensures others { (other : List ℕ) → other ≢ name.now → (lacks self.old name.now ≡ true → lacks self.old other ≡ false) → faults self.new other ≡ faults self.old other }

        // Reads are counted by name, and so are the bytes that they gave.
        ensures one_read { reads self.new name.now ≤ reads self.old name.now + 1 }
        ensures gives { given self.new name.now ≤ given self.old name.now + result_unwrap_or result 0 }
        ensures other_reads { (other : List ℕ) → other ≢ name.now → reads self.new other ≡ reads self.old other }
        ensures other_given { (other : List ℕ) → other ≢ name.now → given self.new other ≡ given self.old other }

        // What it holds and lacks stays.
        ensures holds { held self.new ≡ held self.old }
        ensures lack { lacks self.new ≡ lacks self.old };

    /// The names that it lacks share one count.
    ghost share: { (s : Self) (a b : List ℕ) → lacks s a ≡ true → lacks s b ≡ true → faults s a ≡ faults s b };

    /// A count is a number of 64 bits.
    ghost capped: { (s : Self) (name : List ℕ) → faults s name ≤ 2 ^ 64 - 1 };
}

/// Where bytes go, in order.
pub trait Sink {
    /// What was written, where it tells.
    ghost written: { Self → Option (List ℕ) };

    /// How often a write has failed.
    ghost faults: { Self → ℕ };

    /// Takes a front of the piece, or fails and takes nothing.
    fn write(&mut self, piece: &[u8]) -> Result<usize, Failed>
        requires { 0 < length piece.now }
        ensures some { IfOk result (λ count. 0 < count) }
        ensures bound { IfOk result (λ count. count ≤ length piece.now) }
        ensures takes { TakesFront (written self.old) (written self.new) piece.now result }
        ensures failed { OnErr result (Rose (faults self.old) (faults self.new)) }
        ensures never_falls { faults self.old ≤ faults self.new };

    /// A count is a number of 64 bits.
    ghost capped: { (s : Self) → faults s ≤ 2 ^ 64 - 1 };
}

/// Writes the piece whole. At `Fault` a front of it was written.
pub fn write_all<O: Sink>(sink: &mut O, piece: &[u8]) -> Result<(), WriteError>
    ensures ok { OnOk result (Appends (O.written sink.old) (O.written sink.new) piece.now) }
    ensures prefix { OnErr result ((count : ℕ) × (count ≤ length piece.now) × Appends (O.written sink.old) (O.written sink.new) (take count piece.now)) }
    ensures failed { OnErr result (Rose (O.faults sink.old) (O.faults sink.new)) }
    ensures never_falls { O.faults sink.old ≤ O.faults sink.new }
{
    let mut done = 0usize;
    while done < piece.len() {
        match sink.write(&piece[done..]) {
            Ok(count) => done += count,
            Err(_) => return Err(WriteError::Fault),
        }
    }
    Ok(())
}

/// All that stands under a name, if it has at most `limit` bytes.
pub fn read_all<S: Shelf>(
    alloc: Global,
    shelf: &mut S,
    name: &str,
    limit: u64,
) -> Result<Vec<u8>, ReadError>
    ensures answer { AnswersAll (S.held shelf.old name.now) limit result }
    ensures lacked { S.lacks shelf.old name.now ≡ true → IsErrOf result ReadError.Fault }

    // A failure is counted under its name, or under the names that are lacked if it is one of them.
    ensures failed { IsErrOf result ReadError.Fault → Rose (S.faults shelf.old name.now) (S.faults shelf.new name.now) }
    ensures never_falls { (other : List ℕ) → S.faults shelf.old other ≤ S.faults shelf.new other }
    ensures others { (other : List ℕ) → other ≢ name.now → (S.lacks shelf.old name.now ≡ true → S.lacks shelf.old other ≡ false) → S.faults shelf.new other ≡ S.faults shelf.old other }

    // It is read once at most, and no other name is read.
    ensures through { IfOk result (λ bytes. IsReadOnce (S.reads shelf.old name.now) (S.reads shelf.new name.now) (S.given shelf.old name.now) (S.given shelf.new name.now) (length bytes.items)) }
    ensures once { IfSome (S.held shelf.old name.now) (λ all. IsReadOnce (S.reads shelf.old name.now) (S.reads shelf.new name.now) (S.given shelf.old name.now) (S.given shelf.new name.now) (length all)) }
    ensures other_reads { (other : List ℕ) → other ≢ name.now → S.reads shelf.new other ≡ S.reads shelf.old other }
    ensures other_given { (other : List ℕ) → other ≢ name.now → S.given shelf.new other ≡ S.given shelf.old other }

    // What the shelf holds and lacks stays.
    ensures holds { S.held shelf.new ≡ S.held shelf.old }
    ensures lack { S.lacks shelf.new ≡ S.lacks shelf.old }
{
    let mut bytes = Vec::new(alloc);
    let mut buffer = [0u8; 4096];
    while bytes.len() as u64 <= limit {
        match shelf.read(name, bytes.len() as u64, &mut buffer) {
            Ok(0) => return Ok(bytes),
            Ok(count) => {
                if bytes.extend_from_slice(&buffer[..count]).is_err() {
                    return Err(ReadError::NoMemory);
                }
            }
            Err(_) => return Err(ReadError::Fault),
        }
    }
    Err(ReadError::TooLong { limit })
}
