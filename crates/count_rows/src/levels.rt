//! The levels of a vertex.

ghost use Rattle.std.specs.Prelude.{◌≡◌, ◌<◌, List, ℕ, [], true, length, is_some, OnOk, OnSome, IfOk, IfSome, slice_get};
ghost use Rattle.mixed_graph.specs.Vocabulary.{with_name, index_of, is_named, texts};
ghost use Rattle.count_rows.specs.Levels.{AreLevels};

use indexmap::IndexSet;
use std::alloc::{AllocError, Global};
use std::marker::Model;

/// The levels of a vertex, in order of first appearance: no two are equal.
///
/// Contracts see the list of the levels, each as its bytes.
#[derive(Drop)]
pub struct Levels {
    set: IndexSet<Vec<u8>>,
}

impl Model for Levels {
    ghost use Rattle.std.specs.Prelude.{List, ℕ};
    ghost use Rattle.mixed_graph.specs.Names.{texts};
    ghost use Rattle.count_rows.specs.Levels.{AreLevels};

    ghost Value = { List (List ℕ) };

    ghost view = { λ s. texts s.set.keys };

    ghost invariant = { λ s. AreLevels (texts s.set.keys) };
}

/// So many levels are compared before one is sought by its hash.
const FIRST_LEVELS: usize = 8;

/// The number of a level, if it is among the first.
#[inline(always)]
fn first_number(levels: &[Vec<u8>], level: &[u8]) -> Option<usize>
    ensures number { IfSome result (λ k. k ≡ index_of (texts levels.now) level.now) }
    ensures within { IfSome result (λ k. k < length (texts levels.now)) }
    ensures there { OnSome result (is_named (texts levels.now) level.now ≡ true) }
{
    for k in 0..levels.len().min(FIRST_LEVELS) {
        if level == levels[k].as_slice() {
            return Some(k);
        }
    }
    None
}

/// The number of a level, if it is there.
#[inline(always)]
fn number_in(set: &IndexSet<Vec<u8>>, level: &[u8]) -> Option<usize>
    ensures number { IfSome result (λ k. k ≡ index_of (texts set.now.keys) level.now) }
    ensures within { IfSome result (λ k. k < length (texts set.now.keys)) }
    ensures there { is_some result ≡ is_named (texts set.now.keys) level.now }
{
    match first_number(set.as_slice(), level) {
        Some(k) => Some(k),
        None => set.get_index_of(level),
    }
}

impl Levels {
    /// No level.
    pub fn empty(alloc: Global) -> Levels
        ensures { result ≡ [] }
    {
        Levels {
            set: IndexSet::new(alloc),
        }
    }

    /// The number of levels.
    pub fn count(&self) -> u32
        ensures count { result ≡ length self.now }
        ensures levels { AreLevels self.now }
    {
        self.set.len() as u32
    }

    /// The level with the number k.
    pub fn get(&self, k: u32) -> &[u8]
        requires { k < length self.now }
        ensures { slice_get self.now k ≡ Some result.now }
    {
        match self.set.get_index(k as usize) {
            Some(level) => level.as_slice(),
            None => unreachable!(),
        }
    }

    /// The number of a level, which is added last if it is new.
    pub fn add(&mut self, alloc: Global, level: &[u8]) -> Result<u32, AllocError>
        ensures added { OnOk result (self.new ≡ with_name self.old level.now) }
        ensures number { IfOk result (λ k. k ≡ index_of self.old level.now) }
        ensures within { IfOk result (λ k. k < length self.new) }
    {
        let number = self.set.len();
        if let Some(number) = number_in(&self.set, level) {
            return Ok(number as u32);
        }
        // Numbers have 32 bits. So many levels are far beyond what a table may have.
        if number >= u32::MAX as usize {
            return Err(AllocError);
        }
        let owned = Vec::from_slice(alloc, level)?;
        self.set.insert(owned)?;
        Ok(number as u32)
    }
}
