//! Names with primed names behind them.

ghost use Rattle.std.specs.Prelude.{◌≡◌, ◌<◌, ◌++◌, ◌∷◌, [], true, false, length, IfOk, OnOk};
ghost use Rattle.std.specs.List.{list_all};
ghost use Rattle.std.specs.Str.{is_utf8};
ghost use Rattle.mixed_graph.specs.Vocabulary.{IsName, is_named, is_line_byte};
ghost use Rattle.primed_names.specs.Primed.{primed_name, with_prime, primed_names};

use mixed_graph::{AddFault, Names, VSet};
use std::alloc::{AllocError, Global};

/// A name with as few primes behind it, one at least, as make it none of the names that are taken.
fn primed_name(alloc: Global, taken: &Names, name: &[u8]) -> Result<Vec<u8>, AllocError>
    ensures { IfOk result (λ v. v.items ≡ primed_name taken.now name.now) }
{
    let mut text = Vec::from_slice(alloc, name)?;
    text.push(b'\'')?;
    let tries = taken.count();
    for _ in 0..tries {
        if taken.index(text.as_slice()).is_none() {
            return Ok(text);
        }
        text.push(b'\'')?;
    }
    Ok(text)
}

/// Adds a new name.
fn put(names: &mut Names, name: &[u8]) -> Result<(), AllocError>
    requires new { is_named names.old name.now ≡ false }
    requires room { length names.old < 64 }
    requires formed { IsName name.now }
    ensures { OnOk result (names.new ≡ names.old ++ name.now ∷ []) }
{
    match names.add(name) {
        Ok(_) => Ok(()),
        Err(AddFault::NoMemory) => Err(AllocError),
        Err(AddFault::NotAName | AddFault::Full) => unreachable!(),
    }
}

/// Adds the primed name of a name, where there are fewer than 64 names.
fn add_prime(alloc: Global, taken: &mut Names, name: &[u8]) -> Result<(), AllocError>
    requires text { is_utf8 name.now ≡ true }
    requires line { list_all is_line_byte name.now ≡ true }
    ensures { OnOk result (taken.new ≡ with_prime taken.old name.now) }
{
    if taken.count() >= 64 {
        return Ok(());
    }
    let fresh = primed_name(alloc, taken, name)?;
    put(taken, fresh.as_slice())
}

/// The names, and behind them a primed name for each member of x, in ascending order, up to 64 names.
pub fn primed_names(alloc: Global, names: &Names, x: VSet) -> Result<Names, AllocError>
    ensures { IfOk result (λ all. all ≡ primed_names names.now x.bits) }
{
    // Its clause says that these are names.
    let _count = names.count();
    let mut all = names.copy()?;
    'each: for v in x.iter() {
        add_prime(alloc, &mut all, names.name(v))?;
    }
    Ok(all)
}
