// Files, and writers whose failures are counted. They don't tell what they hold or take.
ghost use Rattle.std.proofs.lemmas.Bool.{false≢true};
ghost use Rattle.std.specs.Prelude.{◌≡◌, ◌<◌, ◌≤◌, ◌^◌, ◌-◌, ◌+◌, min, List, ℕ, None, Ok, false, refl, length, ◌≢◌, true, IsErr, IfOk, IfSome, OnOk, OnErr, string_bytes, codes};
ghost use Rattle.std.specs.Io.KnownBytes.{WriteAppends, ReadConsumes, IsAtEnd};
ghost use Rattle.causal_io.specs.Causes.{risen, Rose};
ghost use Rattle.causal_io.specs.Words.{word_place};

use crate::faults::FaultCount;
use crate::{Failed, Shelf, Sink};
use std::alloc::{AllocError, Global};
use std::fs;
use std::io::{Input, Read, Seek, SeekFrom, Stderr, Stdout, Write};
use std::rt::Files;

/// A writer whose failures are counted. A write that takes nothing of a piece is one.
/// As a sink it doesn't tell what was written; what the writer tells of its bytes stays true.
#[derive(Drop)]
pub struct CountedWriter<W: Write + Drop> {
    inner: W,
    faults: FaultCount,
}

/// Standard output.
pub type OutSink = CountedWriter<Stdout>;

/// The error stream.
pub type ErrSink = CountedWriter<Stderr>;

impl<W: Write + Drop> CountedWriter<W> {
    /// The writer, of which no write has failed.
    pub fn of(inner: W) -> Self
        ensures faults { ⟦<CountedWriter<W> as Sink>⟧.faults result ≡ 0 }
        ensures inner { result.inner ≡ inner }
    {
        CountedWriter {
            inner,
            faults: FaultCount::zero(),
        }
    }
}

impl<W: Write + Drop> Sink for CountedWriter<W> {
    ghost written = { λ _. None };

    ghost faults = { λ s. s.faults.times };

    ghost capped = { λ s. s.faults.capped };

    fn write(&mut self, piece: &[u8]) -> Result<usize, Failed>
        requires { 0 < length piece.now }
        ensures some { IfOk result (λ count. 0 < count) }
        ensures bound { IfOk result (λ count. count ≤ length piece.now) }
        ensures bytes { WriteAppends (W.contents self.old.inner) (W.contents self.new.inner) result piece.now }
        ensures ok { OnOk result (⟦<CountedWriter<W> as Sink>⟧.faults self.new ≡ ⟦<CountedWriter<W> as Sink>⟧.faults self.old) }
        ensures err { OnErr result (⟦<CountedWriter<W> as Sink>⟧.faults self.new ≡ risen (⟦<CountedWriter<W> as Sink>⟧.faults self.old)) }
    {
        match self.inner.write(piece) {
            Ok(0) | Err(_) => {
                self.faults.rise();
                Err(Failed)
            }
            Ok(count) => Ok(count),
        }
    }
}

// A file that is open for a word, and the place of the byte that it reads next.
#[derive(Drop)]
struct OpenFile<F: Drop> {
    word: usize,
    place: u64,
    file: F,
}

/// Files by name, of which the names are among some words; `-` is standard input.
#[derive(Drop)]
pub struct FileShelf<'a, R: Files + Input> {
    rt: &'a R,
    words: &'a [String],
    input: R::Reader,
    open: Option<OpenFile<R::File>>,
    counts: Vec<FaultCount>,
    ghost counted: { length counts.items ≡ length words.now },
}

impl<'a, R: Files + Input> FileShelf<'a, R> {
    /// The files named by these words, of which no read has failed.
    pub fn of(rt: &'a R, alloc: Global, words: &'a [String]) -> Result<Self, AllocError>
        ensures faults { IfOk result (λ s. (name : List ℕ) → ⟦<FileShelf<'a, R> as Shelf>⟧.faults s name ≡ 0) }
        ensures words { IfOk result (λ s. s.words.now ≡ words.entry.now) }
    {
        Ok(FileShelf {
            rt,
            words,
            input: rt.reader(),
            open: None,
            counts: vec![in alloc; FaultCount::zero(); words.len()]?,
        })
    }
}

fn word_at(words: &[String], name: &str) -> Option<usize>
    ensures place { result ≡ word_place words.now name.now }
    ensures within { IfSome result (λ i. i < length words.now) }
{
    words.iter().position(|w| w.as_str() == name)
}

// Opens a file at a place. One that can't seek, as a pipe, is opened at its start.
fn open_at<R: Files>(rt: &R, name: &str, place: u64) -> Result<R::File, Failed> {
    let mut file = fs::open(rt, name).map_err(|_| Failed)?;
    if place > 0 {
        file.seek(SeekFrom::Start(place)).map_err(|_| Failed)?;
    }
    Ok(file)
}

// Reads on in the file that is open, and opens it first unless it is open at that place.
fn read_file<R: Files>(
    rt: &R,
    open: &mut Option<OpenFile<R::File>>,
    word: usize,
    name: &str,
    from: u64,
    into: &mut [u8],
) -> Result<usize, Failed>
    ensures bound { IfOk result (λ count. count ≤ length into.old) }
    ensures word { OnOk result (IfSome «open».new (λ o. o.word ≡ word)) }
    ensures place { IfOk result (λ count. IfSome «open».new (λ o. o.place ≡ min (from + count) (2 ^ 64 - 1))) }
    ensures end { IfOk result (λ count. count ≡ 0 → 0 < length into.new → IfSome «open».new (λ o. IsAtEnd (⟦<R::File as Read>⟧.remaining o.file))) }
{
    let mut opened = match open.take() {
        Some(opened) if opened.word == word && opened.place == from => opened,
        _ => OpenFile {
            word,
            place: from,
            file: open_at(rt, name, from)?,
        },
    };
    let count = read_next(&mut opened.file, into)?;
    opened.place = from.saturating_add(count as u64);
    *open = Some(opened);
    Ok(count)
}

fn read_next<R: Read>(reader: &mut R, into: &mut [u8]) -> Result<usize, Failed>
    ensures bound { IfOk result (λ count. count ≤ length into.old) }
    ensures bytes { ReadConsumes (R.remaining reader.old) (R.remaining reader.new) result into.new }
{
    reader.read(into).map_err(|_| Failed)
}

impl<'a, R: Files + Input> Shelf for FileShelf<'a, R> {
    ghost use Rattle.causal_io.specs.Words.{word_place, faults_at};
    ghost use Rattle.causal_io.specs.Laws.{faults_at_capped};

    ghost held = { λ _ _. None };

    ghost lacks = { λ _ _. false };

    ghost faults = { λ s name. faults_at s.words.now s.counts.items name };

    ghost reads = { λ _ _. 0 };

    ghost given = { λ _ _. 0 };

    ghost share = { λ s a b p q. absurd (false≢true p) };

    ghost capped = { λ s name. faults_at_capped s.words.now s.counts.items name };

    /// A name that is none of the words is read as the empty text.
    fn read(&mut self, name: &str, from: u64, into: &mut [u8]) -> Result<usize, Failed>
        requires { 0 < length into.old }
        ensures absent { word_place self.old.words.now name.now ≡ None → result ≡ Ok 0 }
        ensures words { self.new.words ≡ self.old.words }
        ensures stream { name.now ≡ codes "-" → word_place self.old.words.now name.now ≢ None → ReadConsumes (⟦<R::Reader as Read>⟧.remaining self.old.input) (⟦<R::Reader as Read>⟧.remaining self.new.input) result into.new }
        ensures bound { IfOk result (λ count. count ≤ length into.old) }
        ensures ok { OnOk result ((other : List ℕ) → ⟦<FileShelf<'a, R> as Shelf>⟧.faults self.new other ≡ ⟦<FileShelf<'a, R> as Shelf>⟧.faults self.old other) }
        ensures err { OnErr result (⟦<FileShelf<'a, R> as Shelf>⟧.faults self.new name.now ≡ risen (⟦<FileShelf<'a, R> as Shelf>⟧.faults self.old name.now)) }
        ensures failed { OnErr result (Rose (⟦<FileShelf<'a, R> as Shelf>⟧.faults self.old name.now) (⟦<FileShelf<'a, R> as Shelf>⟧.faults self.new name.now)) }
        ensures never_falls { (other : List ℕ) → ⟦<FileShelf<'a, R> as Shelf>⟧.faults self.old other ≤ ⟦<FileShelf<'a, R> as Shelf>⟧.faults self.new other }
        ensures others { (other : List ℕ) → other ≢ name.now → ⟦<FileShelf<'a, R> as Shelf>⟧.faults self.new other ≡ ⟦<FileShelf<'a, R> as Shelf>⟧.faults self.old other }
    {
        match word_at(self.words, name) {
            None => Ok(0),
            Some(at) => {
                let taken = if name == "-" {
                    read_next(&mut self.input, into)
                } else {
                    read_file(self.rt, &mut self.open, at, name, from, into)
                };
                if taken.is_err() {
                    self.counts[at].rise();
                }
                taken
            }
        }
    }
}
