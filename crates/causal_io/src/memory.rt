// A shelf and a sink in memory, whose failures are listed beforehand.
ghost use Rattle.std.specs.Prelude.{◌≡◌, ◌≢◌, ◌<◌, ◌≤◌, ◌-◌, ◌+◌, ◌++◌, [], ◌∷◌, ◌&&◌, ◌||◌, ◌==◌, not, List, ℕ, Bool, Some, None, true, false, is_none, is_ok, is_err, nat_le, length, take, min, if◌then◌else◌, vec_capacity, string_bytes, IsOk, IsErr, IfOk, IfSome, OnOk, OnErr, option_copied};
ghost use Rattle.std.specs.Io.KnownBytes.{Appends};
ghost use Rattle.std.specs.Result.{result_unwrap_or};
ghost use Rattle.std.specs.List.{list_any};
ghost use Rattle.std.specs.Str.{bytes_eq};
ghost use Rattle.causal_io.specs.Causes.{risen, Rose};
ghost use Rattle.causal_io.specs.Shelf.{GivesFrom};
ghost use Rattle.causal_io.specs.Sink.{TakesFront};

use crate::faults::FaultCount;
use crate::{Failed, Shelf, Sink};
use std::alloc::{AllocError, Global};
use std::collections::BTreeMap;

/// What stands under a name, the reads of it so far, and how many bytes they gave.
#[derive(Drop)]
struct Text {
    content: Vec<u8>,
    reads: u64,
    given: u64,
    faults: FaultCount,
}

/// The read of a name that is to fail, by its number from 0 on.
#[derive(Drop)]
struct FailingRead {
    name: String,
    call: u64,
}

/// Texts by name in memory, and the reads that are to fail. A read of a name that it doesn't hold fails.
#[derive(Drop)]
pub struct MemoryShelf {
    alloc: Global,
    texts: BTreeMap<String, Text>,
    lacked: FaultCount,
    failing: Vec<FailingRead>,
}

impl MemoryShelf {
    ghost use Rattle.causal_io.specs.MemoryShelf.{held_in, faults_in, reads_in, is_to_fail, IsUnchanged};

    /// A shelf that holds no name.
    pub fn empty(alloc: Global) -> MemoryShelf
        ensures held { (name : List ℕ) → held_in result name ≡ None }
        ensures faults { (name : List ℕ) → faults_in result name ≡ 0 }
        ensures failing { (name : List ℕ) (call : ℕ) → is_to_fail result name call ≡ false }
    {
        MemoryShelf {
            alloc,
            texts: BTreeMap::new(alloc),
            lacked: FaultCount::zero(),
            failing: Vec::new(alloc),
        }
    }

    #[tactic(auto, using(std::proofs::lemmas::Map::Text::text_keys))]
    /// Adds a name, whose reads count from 0 then, or replaces the content of one that is held.
    pub fn put(&mut self, name: &str, content: &[u8]) -> Result<(), AllocError>
        ensures held { OnOk result (held_in self.new name.now ≡ Some content.now) }
        ensures others { (other : List ℕ) → other ≢ name.now → held_in self.new other ≡ held_in self.old other }
        ensures faults { (other : List ℕ) → faults_in self.new other ≡ faults_in self.old other }
        ensures reads { (other : List ℕ) → reads_in self.new other ≡ reads_in self.old other }
        ensures failing { (other : List ℕ) (call : ℕ) → is_to_fail self.new other call ≡ is_to_fail self.old other call }
        ensures err { OnErr result (IsUnchanged self.old self.new) }
    {
        let content = Vec::from_slice(self.alloc, content)?;
        match self.texts.get_mut(name) {
            Some(text) => text.content = content,
            None => {
                let name = String::from_str(self.alloc, name)?;
                let text = Text {
                    content,
                    reads: 0,
                    given: 0,
                    faults: self.lacked,
                };
                self.texts.insert(name, text)?;
            }
        }
        Ok(())
    }

    /// Lets the read of a name with this number fail. They count from 0, from when the name is put.
    pub fn fail(&mut self, name: &str, call: u64) -> Result<(), AllocError>
        ensures failing { (other : List ℕ) (n : ℕ) → OnOk result (is_to_fail self.new other n ≡ (is_to_fail self.old other n || (bytes_eq name.now other && (call == n)))) }
        ensures held { (other : List ℕ) → held_in self.new other ≡ held_in self.old other }
        ensures faults { (other : List ℕ) → faults_in self.new other ≡ faults_in self.old other }
        ensures reads { (other : List ℕ) → reads_in self.new other ≡ reads_in self.old other }
        ensures err { OnErr result (IsUnchanged self.old self.new) }
    {
        let name = String::from_str(self.alloc, name)?;
        self.failing.push(FailingRead { name, call })?;
        Ok(())
    }

    /// What it holds under a name.
    pub(crate) fn content(&self, name: &str) -> Option<&[u8]>
        ensures { option_copied result ≡ held_in self.now name.now }
    {
        match self.texts.get(name) {
            Some(text) => Some(text.content.as_slice()),
            None => None,
        }
    }
}

// Whether the read of a name with this number is listed.
fn is_listed(failing: &[FailingRead], name: &str, call: u64) -> bool
    ensures { result ≡ list_any (λ f. bytes_eq (string_bytes f.name) name.now && (f.call == call)) failing.now }
{
    failing
        .iter()
        .any(|f| f.name.as_str() == name && f.call == call)
}

// The bytes from a place on, as many as fit.
pub(crate) fn read_part(all: &[u8], from: u64, into: &mut [u8]) -> usize
    requires { 0 < length into.old }
    ensures gives { GivesFrom all.now from into.new result }
    ensures bound { result ≤ length into.old }
{
    if from >= all.len() as u64 {
        return 0;
    }
    copy_front(&all[from as usize..], into)
}

// Copies what fits.
fn copy_front(from: &[u8], into: &mut [u8]) -> usize
    ensures count { result ≡ min (length from.now) (length into.old) }
    ensures bytes { take result into.new ≡ take result from.now }
{
    let count = from.len().min(into.len());
    into[..count].copy_from_slice(&from[..count]);
    count
}

impl Shelf for MemoryShelf {
    ghost use Rattle.causal_io.specs.MemoryShelf.{held_in, lacks_in, faults_in, reads_in, given_in, is_to_fail};
    ghost use Rattle.causal_io.specs.Laws.{faults_shared, faults_capped};

    ghost held = { held_in };

    ghost lacks = { lacks_in };

    ghost faults = { faults_in };

    ghost reads = { reads_in };

    ghost given = { given_in };

    ghost share = { faults_shared };

    ghost capped = { faults_capped };

    /// Fails exactly where the name is lacked or this read of it is to fail.
    #[tactic(auto, using(std::proofs::lemmas::Map::Text::text_keys))]
    fn read(&mut self, name: &str, from: u64, into: &mut [u8]) -> Result<usize, Failed>
        requires { 0 < length into.old }
        ensures bound { IfOk result (λ count. count ≤ length into.old) }
        ensures told { IfSome (held_in self.old name.now) (λ all. IfOk result (GivesFrom all from into.new)) }
        ensures fails { is_err result ≡ (lacks_in self.old name.now || is_to_fail self.old name.now (reads_in self.old name.now)) }

        // A failure is counted, under its name or for all names that are lacked, and a success isn't.
        ensures ok { OnOk result ((other : List ℕ) → faults_in self.new other ≡ faults_in self.old other) }
        ensures err { OnErr result (faults_in self.new name.now ≡ risen (faults_in self.old name.now)) }
        ensures others { (other : List ℕ) → other ≢ name.now → (lacks_in self.old name.now ≡ true → lacks_in self.old other ≡ false) → faults_in self.new other ≡ faults_in self.old other }

        // Reads are counted by name, and those of lacked names aren't.
        ensures read { lacks_in self.old name.now ≡ false → reads_in self.new name.now ≡ risen (reads_in self.old name.now) }
        ensures other_reads { (other : List ℕ) → other ≢ name.now → reads_in self.new other ≡ reads_in self.old other }

        // And the bytes that they gave.
        ensures gives { given_in self.new name.now ≤ given_in self.old name.now + result_unwrap_or result 0 }
        ensures other_given { (other : List ℕ) → other ≢ name.now → given_in self.new other ≡ given_in self.old other }

        // What it holds and lacks, and which reads are to fail, stays.
        ensures holds { (other : List ℕ) → held_in self.new other ≡ held_in self.old other }
        ensures failing { (other : List ℕ) (call : ℕ) → is_to_fail self.new other call ≡ is_to_fail self.old other call }
    {
        let Some(text) = self.texts.get_mut(name) else {
            self.lacked.rise();
            return Err(Failed);
        };
        let call = text.reads;
        text.reads = call.saturating_add(1);
        if is_listed(&self.failing, name, call) {
            text.faults.rise();
            return Err(Failed);
        }
        let count = read_part(text.content.as_slice(), from, into);
        text.given = text.given.saturating_add(count as u64);
        Ok(count)
    }
}

/// Bytes in memory, with room for so many, and the writes that are to fail.
#[derive(Drop)]
pub struct MemorySink {
    bytes: Vec<u8>,
    most: usize,
    room: usize,
    writes: u64,
    failing: Vec<u64>,
    faults: FaultCount,
    ghost takes_some: { 0 < most },
    ghost within: { length bytes.items ≤ room },
    ghost reserved: { room ≤ vec_capacity bytes },
}

impl MemorySink {
    ghost use Rattle.causal_io.specs.MemorySink.{state_of};

    /// A sink with room for `room` bytes, of which one write takes at most `most`.
    pub fn with_room(alloc: Global, most: usize, room: usize) -> Result<MemorySink, AllocError>
        requires { 0 < most }
        ensures { IfOk result (λ s. state_of s ≡ record { bytes = []; most = most; room = room; writes = 0; failing = []; faults = 0 }) }
    {
        Ok(MemorySink {
            bytes: Vec::with_capacity(alloc, room)?,
            most,
            room,
            writes: 0,
            failing: Vec::new(alloc),
            faults: FaultCount::zero(),
        })
    }

    /// Lets the write with this number fail. They count from 0.
    pub fn fail(&mut self, call: u64) -> Result<(), AllocError>
        ensures ok { OnOk result (state_of self.new ≡ record (state_of self.old) { failing = (state_of self.old).failing ++ call ∷ [] }) }
        ensures err { OnErr result (state_of self.new ≡ state_of self.old) }
    {
        self.failing.push(call)?;
        Ok(())
    }

    /// What was written.
    pub fn bytes(&self) -> &[u8]
        ensures { result.now ≡ (state_of self.now).bytes }
    {
        self.bytes.as_slice()
    }
}

impl Sink for MemorySink {
    ghost use Rattle.causal_io.specs.MemorySink.{state_of, room_left, is_failing};

    ghost written = { λ s. Some (state_of s).bytes };

    ghost faults = { λ s. (state_of s).faults };

    ghost capped = { λ s. s.faults.capped };

    /// Fails exactly where no room is left or this write is to fail. It takes no memory.
    fn write(&mut self, piece: &[u8]) -> Result<usize, Failed>
        ensures fails { is_err result ≡ ((room_left (state_of self.old) == 0) || is_failing (state_of self.old)) }
        ensures count { IfOk result (λ count. count ≡ min (min (length piece.now) (state_of self.old).most) (room_left (state_of self.old))) }
        ensures ok { IfOk result (λ count. state_of self.new ≡ record (state_of self.old) { bytes = (state_of self.old).bytes ++ take count piece.now; writes = risen (state_of self.old).writes }) }
        ensures err { OnErr result (state_of self.new ≡ record (state_of self.old) { writes = risen (state_of self.old).writes; faults = risen (state_of self.old).faults }) }
    {
        let call = self.writes;
        self.writes = call.saturating_add(1);
        let room = self.room - self.bytes.len();
        if room == 0 || self.failing.contains(&call) {
            self.faults.rise();
            return Err(Failed);
        }
        let count = piece.len().min(self.most).min(room);
        self.bytes.extend_from_slice(&piece[..count]).unwrap();
        Ok(count)
    }
}
