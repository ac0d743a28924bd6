//! The names by which vertices are read where some of x are read at their second values.

ghost use Rattle.std.specs.Prelude.{◌≡◌, ◌<◌, ◌≤◌, ◌++◌, ◌∷◌, [], false, length, IfOk, OnOk};
ghost use Rattle.mixed_graph.specs.Vocabulary.{has, members_below, IsName, is_named, name_of, all};
ghost use Rattle.treated_models.specs.Vocabulary.{prime_of};
ghost use Rattle.natural_command.specs.Second.{place_read, names_read};

use mixed_graph::{AddFault, Names, VSet};
use primed_names::primed_names;
use std::alloc::{AllocError, Global};

/// Where the primed name of v stands, if it has one: so many members of x are below v.
fn behind(n: u32, x: VSet, v: u8) -> u32
    requires few { n ≤ 64 }
    requires below { v < n }
    ensures { result ≡ prime_of n x.bits v }
{
    n + x.intersection(VSet::below(v as u32)).count()
}

/// Where v stands among so many names, of which those of x in ascending order are behind n others: a member of x that is read at its second
/// value by its primed name, where it has one, and any other by its own.
fn place_read(n: u32, x: VSet, second: VSet, count: u32, v: u8) -> u8
    requires few { n ≤ 64 }
    requires below { v < n }
    requires most { count ≤ 64 }
    ensures { result ≡ place_read n x.bits second.bits count v }
{
    if !x.intersection(second).has(v) {
        return v;
    }
    let place = behind(n, x, v);
    if place >= count {
        return v;
    }
    place as u8
}

/// Adds a new name.
fn put(names: &mut Names, name: &[u8]) -> Result<(), AllocError>
    requires new { is_named names.old name.now ≡ false }
    requires room { length names.old < 64 }
    requires formed { IsName name.now }
    ensures { OnOk result (names.new ≡ names.old ++ name.now ∷ []) }
{
    match names.add(name) {
        Ok(_) => Ok(()),
        Err(AddFault::NoMemory) => Err(AllocError),
        Err(AddFault::NotAName | AddFault::Full) => unreachable!(),
    }
}

/// The names by which the vertices are read, where these members of x are read at their second values: those by their primed names.
pub fn names_read(alloc: Global, names: &Names, x: VSet, second: VSet) -> Result<Names, AllocError>
    ensures { IfOk result (λ all. all ≡ names_read names.now x.bits second.bits) }
{
    let n = names.count();
    let both = primed_names(alloc, names, x)?;
    let count = both.count();
    let mut read = Names::empty(alloc);
    'each: for v in VSet::below(n).iter() {
        put(&mut read, both.name(place_read(n, x, second, count, v)))?;
    }
    Ok(read)
}
