//! The levels of a cell as one number, a field for each vertex.

ghost use Rattle.std.specs.Prelude.{ℕ, ◌≡◌, ◌<◌, ◌≤◌, ◌+◌, ◌-◌, ◌*◌, ◌^◌, All, IsTrue, IfOk, length, map, slice_index, if◌then◌else◌};
ghost use Rattle.std.specs.List.{flat_map, range_with_len};
ghost use Rattle.mixed_graph.specs.Vocabulary.{has};
ghost use Rattle.count_rows.specs.Vocabulary.{cell_count};
ghost use Rattle.count_table.specs.Cells.{sizes_of, cells_of};
ghost use Rattle.count_table.specs.Codes.{room, code_of_cell, mask_under, code_under};

use count_rows::Levels;
use mixed_graph::VSet;
use std::alloc::{AllocError, Global};

/// One more than the highest number in the field of a vertex with so many levels.
fn room_for(levels: u32) -> u64
    requires some { 0 < levels }
    requires few { levels ≤ 2 ^ 20 }
    ensures room { result ≡ room levels }
    ensures most { result ≤ 2 ^ 20 }
    ensures fits { levels ≤ result }
{
    u64::from(levels).next_power_of_two()
}

/// The codes with one more field in front, for a vertex with so many levels: its first level with each code, then its second, and so on.
fn with_field(alloc: Global, codes: &[u64], levels: u32) -> Result<Vec<u64>, AllocError>
    requires some { 0 < levels }
    requires few { levels ≤ 2 ^ 20 }
    requires small { All (λ code. code < 2 ^ 40) codes.now }
    ensures { IfOk result (λ made. made.items ≡ flat_map (λ k. map (λ code. code * room levels + k) codes.now) (range_with_len 0 levels)) }
{
    let room = room_for(levels);
    let mut made = Vec::new(alloc);
    'levels: for k in 0..levels {
        'codes: for code in codes {
            made.push(*code * room + u64::from(k))?;
        }
    }
    Ok(made)
}

/// The code of each cell.
pub fn codes_of(alloc: Global, levels: &[Levels]) -> Result<Vec<u64>, AllocError>
    requires each { All (λ ys. 0 < length ys) levels.now }
    requires few { cell_count levels.now ≤ 2 ^ 20 }
    ensures { IfOk result (λ codes. codes.items ≡ map (code_of_cell (sizes_of levels.now)) (cells_of (sizes_of levels.now))) }
{
    let mut codes = vec![in alloc; 0]?;
    let mut i = levels.len();
    while i > 0 {
        i -= 1;
        codes = with_field(alloc, codes.as_slice(), levels[i].count())?;
    }
    Ok(codes)
}

/// The highest number in the field of a vertex: one less than its room where it is in the set, else 0.
fn highest_in(of: VSet, v: u8, room: u64) -> u64
    requires some { 0 < room }
    ensures { result ≡ (if has of.bits v then room - 1 else 0) }
{
    if of.has(v) { room - 1 } else { 0 }
}

/// All bits of the fields of the vertices of a set.
pub fn mask_over(vertices: &[u8], levels: &[Levels], of: VSet) -> u64
    requires matched { length levels.now ≡ length vertices.now }
    requires in_range { All (λ v. v < 64) vertices.now }
    requires each { All (λ ys. 0 < length ys) levels.now }
    requires few { cell_count levels.now ≤ 2 ^ 20 }
    ensures { result ≡ mask_under vertices.now (sizes_of levels.now) (has of.bits) }
{
    let mut mask = 0;
    let mut i = vertices.len();
    while i > 0 {
        i -= 1;
        let room = room_for(levels[i].count());
        mask = mask * room + highest_in(of, vertices[i], room);
    }
    mask
}

/// The number in the field of a vertex: its value where it is in the set, else 0.
fn number_in(of: VSet, v: u8, at: &[u32]) -> u64
    requires in_range { v < 64 }
    requires there { IsTrue (has of.bits v) → v < length at.now }
    ensures { result ≡ (if has of.bits v then slice_index at.now v else 0) }
{
    if of.has(v) {
        u64::from(at[v as usize])
    } else {
        0
    }
}

/// The values of the vertices of a set as one number.
pub fn code_over(vertices: &[u8], levels: &[Levels], of: VSet, at: &[u32]) -> u64
    requires matched { length levels.now ≡ length vertices.now }
    requires in_range { All (λ v. v < 64) vertices.now }
    requires each { All (λ ys. 0 < length ys) levels.now }
    requires few { cell_count levels.now ≤ 2 ^ 20 }
    requires at { (i : ℕ) → i < length vertices.now → IsTrue (has of.bits (slice_index vertices.now i)) →
        (slice_index vertices.now i < length at.now) × (slice_index at.now (slice_index vertices.now i) < slice_index (sizes_of levels.now) i) }
    ensures { result ≡ code_under vertices.now (sizes_of levels.now) (has of.bits) (λ v. slice_index at.now v) }
{
    let mut code = 0;
    let mut i = vertices.len();
    while i > 0 {
        i -= 1;
        code = code * room_for(levels[i].count()) + number_in(of, vertices[i], at);
    }
    code
}
