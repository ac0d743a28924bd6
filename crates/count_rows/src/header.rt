//! The columns that a header names.

ghost use Rattle.std.specs.Prelude.{ℕ, ◌≡◌, ◌<◌, ◌≤◌, ◌+◌, None, Some, All, IfOk, IfErr, drop, length, map, option_map};
ghost use Rattle.std.specs.List.{position_or_len};
ghost use Rattle.std.specs.Str.{bytes_eq};
ghost use Rattle.mixed_graph.specs.Vocabulary.{index_of, name_of};
ghost use Rattle.count_rows.specs.Faults.{name_fault, header_fault, IsExpectedFault};

use crate::fault::CountFault;
use crate::fields::Fields;
use mixed_graph::{Names, Text};
use std::alloc::Global;

/// The first column from `from` on with this name, or the number of columns.
fn column_from(header: &Fields, name: &[u8], from: usize) -> usize
    requires { from ≤ length header.now }
    ensures place { result ≡ from + position_or_len (bytes_eq name.now) (drop from header.now) }
    ensures within { result ≤ length header.now }
{
    for at in from..header.count() {
        if name == header.get(at) {
            return at;
        }
    }
    header.count()
}

/// The fault of a name that isn't in the header.
pub fn no_column(alloc: Global, name: &[u8]) -> CountFault
    ensures { IsExpectedFault (Some (CountFault.NoColumn name.now)) result }
{
    match Text::of(alloc, name) {
        Ok(name) => CountFault::NoColumn(name),
        Err(_) => CountFault::NoMemory,
    }
}

/// The fault of a name that is in the header twice.
fn two_columns(alloc: Global, name: &[u8]) -> CountFault
    ensures { IsExpectedFault (Some (CountFault.TwoColumns name.now)) result }
{
    match Text::of(alloc, name) {
        Ok(name) => CountFault::TwoColumns(name),
        Err(_) => CountFault::NoMemory,
    }
}

/// The column of a name, which must be in the header once.
pub fn column(alloc: Global, header: &Fields, name: &[u8]) -> Result<usize, CountFault>
    ensures place { IfOk result (λ place. place ≡ index_of header.now name.now) }
    ensures fit { IfOk result (λ place. name_fault header.now name.now ≡ None) }
    ensures fault { IfErr result (IsExpectedFault (name_fault header.now name.now)) }
{
    let first = column_from(header, name, 0);
    if first == header.count() {
        return Err(no_column(alloc, name));
    }
    if column_from(header, name, first + 1) < header.count() {
        return Err(two_columns(alloc, name));
    }
    Ok(first)
}

/// The columns of the vertices' names, in their order, each of which must be in the header once.
pub fn columns(
    alloc: Global,
    header: &Fields,
    names: &Names,
    vertices: &[u8],
) -> Result<Vec<usize>, CountFault>
    requires { All (λ v. v < length names.now) vertices.now }
    ensures places { IfOk result (λ places. places.items ≡ map (index_of header.now) (map (name_of names.now) vertices.now)) }
    ensures fit { IfOk result (λ places. header_fault header.now (map (name_of names.now) vertices.now) ≡ None) }
    ensures fault { IfErr result (IsExpectedFault (header_fault header.now (map (name_of names.now) vertices.now))) }
{
    let mut places = Vec::new(alloc);
    for v in vertices {
        let place = match column(alloc, header, names.get(*v)) {
            Ok(place) => place,
            Err(fault) => return Err(fault),
        };
        if places.push(place).is_err() {
            return Err(CountFault::NoMemory);
        }
    }
    Ok(places)
}
