// Names as lines.

ghost use Rattle.std.specs.Prelude.{◌≡◌, ◌<◌, ◌≤◌, ◌++◌, [], ◌∷◌, ℕ, List, false, length, position, IfOk, OnOk, OnSome, IfSome, IsNone, IsErrOf};
ghost use Rattle.std.specs.List.{before_first, after_first, position_or_len};
ghost use Rattle.mixed_graph.specs.Vocabulary.{AreNames, IsName, is_named};
ghost use Rattle.caller_memory.specs.Kept.{lines_of};
ghost use Rattle.caller_memory.specs.Lines.{is_feed};

use mixed_graph::{AddFault, Names};
use std::alloc::{AllocError, Global};

/// Why lines give no names.
#[derive(Clone, Copy, Debug, PartialEq, Eq)]
pub enum NamesFault {
    /// They aren't so many names, each with a line feed behind it.
    NotNames,
    /// Memory was refused.
    NoMemory,
}

/// The names, each with a line feed behind it.
pub fn lines(alloc: Global, names: &Names) -> Result<Vec<u8>, AllocError>
    ensures { IfOk result (λ v. v.items ≡ lines_of names.now) }
{
    let mut text = Vec::new(alloc);
    for v in 0..names.count() as u8 {
        text.extend_from_slice(names.get(v))?;
        text.push(b'\n')?;
    }
    Ok(text)
}

/// Where the first line feed stands.
fn feed(bytes: &[u8]) -> Option<usize>
    ensures { result ≡ position is_feed bytes.now }
{
    bytes.iter().position(|byte| *byte == b'\n')
}

/// What stands before the first line feed, and behind it.
fn split_line(bytes: &[u8]) -> Option<(&[u8], &[u8])>
    ensures found { OnSome result (position_or_len is_feed bytes.now < length bytes.now) }
    ensures line { IfSome result (λ p. p.0.now ≡ before_first is_feed bytes.now) }
    ensures rest { IfSome result (λ p. p.1.now ≡ after_first is_feed bytes.now) }
    ensures none { IsNone result → position_or_len is_feed bytes.now < length bytes.now → ⊥ }
{
    match feed(bytes) {
        Some(at) => Some((&bytes[..at], &bytes[at + 1..])),
        None => None,
    }
}

/// Adds a name that isn't there.
pub fn add_new(names: &mut Names, name: &[u8]) -> Result<(), NamesFault>
    ensures added { OnOk result (names.new ≡ names.old ++ name.now ∷ []) }
    ensures refused { IsErrOf result NamesFault.NotNames → IsName name.now → is_named names.old name.now ≡ false → length names.old < 64 → ⊥ }
{
    let before = names.count();
    match names.add(name) {
        Ok(_) => grown(names, before),
        Err(AddFault::NoMemory) => Err(NamesFault::NoMemory),
        Err(AddFault::NotAName | AddFault::Full) => Err(NamesFault::NotNames),
    }
}

/// Whether there are more names than before.
fn grown(names: &Names, before: u32) -> Result<(), NamesFault>
    ensures more { OnOk result (before < length names.now) }
    ensures same { IsErrOf result NamesFault.NotNames → length names.now ≤ before }
{
    if names.count() > before {
        Ok(())
    } else {
        Err(NamesFault::NotNames)
    }
}

/// The names on lines, as many as `count`.
pub fn names_on(alloc: Global, lines: &[u8], count: u32) -> Result<Names, NamesFault>
    ensures names { IfOk result (λ s. lines.now ≡ lines_of s) }
    ensures count { IfOk result (λ s. length s ≡ count) }
    ensures formed { IfOk result (λ s. AreNames s) }
    ensures refused { IsErrOf result NamesFault.NotNames → (all : List (List ℕ)) → AreNames all → lines.now ≡ lines_of all → length all ≡ count → ⊥ }
{
    let mut names = Names::empty(alloc);
    let mut rest = lines;
    while let Some((line, after)) = split_line(rest) {
        if let Err(fault) = add_new(&mut names, line) {
            return Err(fault);
        }
        rest = after;
    }
    if !rest.is_empty() {
        return Err(NamesFault::NotNames);
    }
    if names.count() != count {
        return Err(NamesFault::NotNames);
    }
    Ok(names)
}
