//! The names of vertices.

ghost use Rattle.std.specs.Prelude.{◌≡◌, ◌<◌, ◌≤◌, ◌+◌, ◌↔◌, List, ℕ, [], ◌∷◌, ◌++◌, is_some, true, false, length, IfOk, IfSome, IfNone, OnOk, OnSome, OnErr, IsErrOf, IsTrue, slice_get, slice_index, slice_index_or};
ghost use Rattle.std.specs.List.{list_all};
ghost use Rattle.std.specs.Str.{IsUtf8, bytes_eq};
ghost use Rattle.mixed_graph.specs.Names.{IsName, AreNames, is_named, with_name, index_of, name_of, is_line_byte};
ghost use Rattle.mixed_graph.specs.NameBlocks.{start_of, cut, IsBlock};
ghost use Rattle.mixed_graph.specs.NameKeys.{AreKeys, IsKeyed};

use crate::guesses::NameGuesses;
use crate::name_keys::key_of;
use std::alloc::{AllocError, Global};
use std::marker::Model;

/// Why a name isn't added.
#[derive(Clone, Copy, Debug, PartialEq, Eq)]
pub enum AddFault {
    /// The bytes don't have the form of a name.
    NotAName,
    /// The name is new, and there are 64 names.
    Full,
    /// Memory was refused.
    NoMemory,
}

/// The names of the vertices: at most 64, each once, in the order in which they first came.
///
/// They stand in one block of bytes, with a line feed behind each. Contracts see the list of the names, each as its bytes.
#[derive(Drop)]
pub struct Names {
    bytes: Vec<u8>,
    ends: [u32; 64],
    keys: [u64; 64],
    count: u32,
    guesses: NameGuesses,
}

impl Model for Names {
    ghost use Rattle.std.specs.Prelude.{List, ℕ};
    ghost use Rattle.mixed_graph.specs.Names.{AreNames};
    ghost use Rattle.mixed_graph.specs.NameBlocks.{cut, IsBlock};
    ghost use Rattle.mixed_graph.specs.NameKeys.{AreKeys};

    ghost Value = { List (List ℕ) };

    ghost view = { λ s. cut s.bytes.items s.ends s.count };

    ghost invariant = { λ s. AreNames (cut s.bytes.items s.ends s.count) × IsBlock s.bytes.items s.ends s.count × AreKeys s.keys (cut s.bytes.items s.ends s.count) };
}

impl Names {
    /// No name. The value keeps its allocator for the names to come.
    pub fn empty(alloc: Global) -> Names
        ensures { result ≡ [] }
    {
        Names {
            bytes: Vec::new(alloc),
            ends: [0; 64],
            keys: [0; 64],
            count: 0,
            guesses: NameGuesses::new(),
        }
    }

    /// The same names again.
    pub fn copy(&self) -> Result<Names, AllocError>
        ensures { IfOk result (λ names. names ≡ self.now) }
    {
        let bytes = self.bytes.clone()?;
        Ok(Names {
            bytes,
            ends: self.ends,
            keys: self.keys,
            count: self.count,
            guesses: self.guesses,
        })
    }

    /// The number of names.
    pub fn count(&self) -> u32
        ensures count { result ≡ length self.now }
        ensures names { AreNames self.now }
    {
        self.count
    }

    /// The index of a name, which is added last if it is new.
    ///
    /// `NotAName` where the bytes don't have the form of a name; `Full` where they do, the name is new and 64 names are there.
    /// After a refusal the names are as before.
    pub fn add(&mut self, name: &[u8]) -> Result<u8, AddFault>
        ensures added { OnOk result (self.new ≡ with_name self.old name.now) }
        ensures index { IfOk result (λ i. i ≡ index_of self.old name.now) }
        ensures within { IfOk result (λ i. i < length self.new) }
        ensures formed { OnOk result (IsName name.now) }
        ensures not_a_name { IsErrOf result AddFault.NotAName ↔ (IsName name.now → ⊥) }
        ensures full { IsErrOf result AddFault.Full ↔ (IsName name.now × (is_named self.old name.now ≡ false) × (length self.old ≡ 64)) }
        ensures err { OnErr result (self.new ≡ self.old) }
        ensures names { AreNames self.new }
    {
        let _count = self.count;
        if !is_name(name) {
            return Err(AddFault::NotAName);
        }
        self.add_keyed(name, key_of(name))
    }

    /// The same of bytes that are known to have the form of a name, with their key.
    #[inline(always)]
    pub fn add_keyed(&mut self, name: &[u8], key: u64) -> Result<u8, AddFault>
        requires formed { IsName name.now }
        requires keyed { IsKeyed name.now key }
        ensures added { OnOk result (self.new ≡ with_name self.old name.now) }
        ensures index { IfOk result (λ i. i ≡ index_of self.old name.now) }
        ensures within { IfOk result (λ i. i < length self.new) }
        ensures a_name { IsErrOf result AddFault.NotAName → ⊥ }
        ensures full { IsErrOf result AddFault.Full ↔ ((is_named self.old name.now ≡ false) × (length self.old ≡ 64)) }
        ensures err { OnErr result (self.new ≡ self.old) }
        ensures names { AreNames self.new }
    {
        if let Some(index) = self.guessed(name, key) {
            return Ok(index);
        }
        self.add_unguessed(name, key)
    }

    /// The same without a guess.
    #[inline(never)]
    fn add_unguessed(&mut self, name: &[u8], key: u64) -> Result<u8, AddFault>
        requires formed { IsName name.now }
        requires keyed { IsKeyed name.now key }
        ensures added { OnOk result (self.new ≡ with_name self.old name.now) }
        ensures index { IfOk result (λ i. i ≡ index_of self.old name.now) }
        ensures within { IfOk result (λ i. i < length self.new) }
        ensures a_name { IsErrOf result AddFault.NotAName → ⊥ }
        ensures full { IsErrOf result AddFault.Full ↔ ((is_named self.old name.now ≡ false) × (length self.old ≡ 64)) }
        ensures err { OnErr result (self.new ≡ self.old) }
        ensures names { AreNames self.new }
    {
        let count = self.count;
        if let Some(index) = self.look_up(name, key) {
            self.guesses.keep(name, key, index);
            return Ok(index);
        }
        if count >= 64 {
            return Err(AddFault::Full);
        }
        let Ok(()) = append(&mut self.bytes, &mut self.ends, count, name) else {
            return Err(AddFault::NoMemory);
        };
        self.keys[count as usize] = key;
        self.count = count + 1;
        self.guesses.keep(name, key, count as u8);
        Ok(count as u8)
    }

    /// The index of a name that is there.
    pub fn index(&self, name: &[u8]) -> Option<u8>
        ensures found { IfSome result (λ i. (i ≡ index_of self.now name.now) × (i < length self.now)) }
        ensures has { is_some result ≡ is_named self.now name.now }
        ensures names { AreNames self.now }
    {
        let key = key_of(name);
        match self.guessed(name, key) {
            Some(index) => Some(index),
            None => self.look_up(name, key),
        }
    }

    /// The index of a name, where the guess is right.
    #[inline(always)]
    fn guessed(&self, name: &[u8], key: u64) -> Option<u8>
        requires keyed { IsKeyed name.now key }
        ensures found { IfSome result (λ i. (i ≡ index_of self.now name.now) × (i < length self.now)) }
        ensures has { OnSome result (is_named self.now name.now ≡ true) }
        ensures formed { OnSome result (IsName name.now) }
        ensures names { AreNames self.now }
    {
        let guess = self.guesses.guess(name, key);
        if (guess as u32) < self.count && self.is_at(guess, name, key) {
            Some(guess)
        } else {
            None
        }
    }

    /// The same by all names.
    #[inline(never)]
    fn look_up(&self, name: &[u8], key: u64) -> Option<u8>
        requires keyed { IsKeyed name.now key }
        ensures found { IfSome result (λ i. (i ≡ index_of self.now name.now) × (i < length self.now)) }
        ensures has { is_some result ≡ is_named self.now name.now }
        ensures names { AreNames self.now }
    {
        if key == 0 {
            self.look_up_bytes(name, key)
        } else {
            self.look_up_key(name, key)
        }
    }

    /// The same of a name that has a key.
    fn look_up_key(&self, name: &[u8], key: u64) -> Option<u8>
        requires keyed { IsKeyed name.now key }
        requires some { key ≡ 0 → ⊥ }
        ensures found { IfSome result (λ i. (i ≡ index_of self.now name.now) × (i < length self.now)) }
        ensures has { is_some result ≡ is_named self.now name.now }
        ensures names { AreNames self.now }
    {
        if !has_entry(&self.keys, key) {
            return None;
        }
        for v in 0..self.count {
            if self.has_key(v as u8, name, key) {
                return Some(v as u8);
            }
        }
        None
    }

    /// The same of any name.
    fn look_up_bytes(&self, name: &[u8], key: u64) -> Option<u8>
        requires keyed { IsKeyed name.now key }
        ensures found { IfSome result (λ i. (i ≡ index_of self.now name.now) × (i < length self.now)) }
        ensures has { is_some result ≡ is_named self.now name.now }
        ensures names { AreNames self.now }
    {
        for v in 0..self.count {
            if self.is_at(v as u8, name, key) {
                return Some(v as u8);
            }
        }
        None
    }

    /// Whether vertex v has the name of this key: by its key where it has one, else by its bytes.
    #[inline(always)]
    fn is_at(&self, v: u8, name: &[u8], key: u64) -> bool
        requires below { v < length self.now }
        requires keyed { IsKeyed name.now key }
        ensures { result ≡ bytes_eq name.now (slice_index_or self.now v []) }
    {
        if key == 0 {
            self.get(v) == name
        } else {
            self.has_key(v, name, key)
        }
    }

    /// The same of a name that has a key.
    #[inline(always)]
    fn has_key(&self, v: u8, name: &[u8], key: u64) -> bool
        requires below { v < length self.now }
        requires keyed { IsKeyed name.now key }
        requires some { key ≡ 0 → ⊥ }
        ensures { result ≡ bytes_eq name.now (slice_index_or self.now v []) }
    {
        self.keys[v as usize] == key
    }

    /// The name of vertex v.
    pub fn get(&self, v: u8) -> &[u8]
        requires { v < length self.now }
        ensures name { slice_get self.now v ≡ Some result.now }
        ensures formed { IsName result.now }
    {
        let start = start_of(&self.ends, v);
        let end = self.ends[v as usize] as usize;
        &self.bytes[start..end]
    }

    /// The name of vertex v; the empty text where the graph has no such vertex. So whoever writes a name asks for nothing first.
    pub fn name(&self, v: u8) -> &[u8]
        ensures { result.now ≡ name_of self.now v }
    {
        if (v as u32) < self.count() {
            self.get(v)
        } else {
            b""
        }
    }
}

/// Whether one of the entries is the key. Nothing ends the loop early, so several are compared at a time.
#[inline(always)]
fn has_entry(keys: &[u64; 64], key: u64) -> bool
    ensures { result ≡ false → (i : ℕ) → i < 64 → slice_index keys.now i ≡ key → ⊥ }
{
    let mut found = false;
    for v in 0..64usize {
        found |= keys[v] == key;
    }
    found
}

/// Where name v begins.
fn start_of(ends: &[u32; 64], v: u8) -> usize
    requires { v < 64 }
    ensures { result ≡ start_of ends.now v }
{
    if v == 0 {
        0
    } else {
        ends[v as usize - 1] as usize + 1
    }
}

/// Appends a name with a line feed behind it.
fn append(
    bytes: &mut Vec<u8>,
    ends: &mut [u32; 64],
    count: u32,
    name: &[u8],
) -> Result<(), AllocError>
    requires block { IsBlock bytes.old.items ends.old count }
    requires room { count < 64 }
    ensures ok { OnOk result (cut bytes.new.items ends.new (count + 1) ≡ cut bytes.old.items ends.old count ++ name.now ∷ []) }
    ensures block { OnOk result (IsBlock bytes.new.items ends.new (count + 1)) }
    ensures err { OnErr result ((bytes.new.items ≡ bytes.old.items) × (ends.new ≡ ends.old)) }
{
    let start = bytes.len();
    let Ok(end) = u32::try_from(start + name.len()) else {
        return Err(AllocError);
    };
    append_line(bytes, name)?;
    ends[count as usize] = end;
    Ok(())
}

/// Appends bytes and a line feed; without memory nothing.
fn append_line(bytes: &mut Vec<u8>, name: &[u8]) -> Result<(), AllocError>
    ensures ok { OnOk result (bytes.new.items ≡ bytes.old.items ++ (name.now ++ 10 ∷ [])) }
    ensures err { OnErr result (bytes.new.items ≡ bytes.old.items) }
{
    let start = bytes.len();
    bytes.extend_from_slice(name)?;
    if bytes.push(b'\n').is_err() {
        bytes.truncate(start);
        return Err(AllocError);
    }
    Ok(())
}

/// Whether the bytes have the form of a name: UTF-8, not empty, and without a quotation mark or a line break.
pub fn is_name(bytes: &[u8]) -> bool
    ensures { IsTrue result ↔ IsName bytes.now }
{
    if bytes.is_empty() {
        return false;
    }
    if !is_line(bytes) {
        return false;
    }
    is_text(bytes)
}

/// Whether the bytes are UTF-8.
fn is_text(bytes: &[u8]) -> bool
    ensures { IsTrue result ↔ IsUtf8 bytes.now }
{
    str::from_utf8(bytes).is_ok()
}

/// Whether no byte is a quotation mark or a line break.
fn is_line(bytes: &[u8]) -> bool
    ensures { result ≡ list_all is_line_byte bytes.now }
{
    bytes
        .iter()
        .all(|b| !(*b == b'"' || *b == b'\r' || *b == b'\n'))
}
