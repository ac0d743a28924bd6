//! The part of a path from its last vertex in x on.

ghost use Rattle.std.specs.Prelude.{◌<◌, ◌≤◌};
ghost use Rattle.mixed_graph.specs.Vocabulary.{has};
ghost use Rattle.adjustment.specs.Parts.{BeginsIn, IsLastPlace, IsPartFrom, IsLastPart};

use m_separation::{Mark, OpenPath};
use mixed_graph::VSet;

/// The place of the last vertex in x.
fn last_place(path: &OpenPath, x: VSet) -> usize
    requires { BeginsIn (has x.bits) path.now }
    ensures { IsLastPlace (has x.bits) path.now result }
{
    let mut place = 0usize;
    for i in 0..path.count as usize {
        if x.has(path.vertices[i]) {
            place = i;
        }
    }
    place
}

/// The path from that place on.
fn part_from(path: &OpenPath, place: usize) -> OpenPath
    requires place { place < path.now.count }
    requires few { path.now.count ≤ 64 }
    ensures { IsPartFrom path.now place result }
{
    let count = path.count - place as u32;
    let mut vertices = [0u8; 64];
    let mut marks = [Mark::Out; 64];
    for i in 0..count as usize {
        vertices[i] = path.vertices[place + i];
        marks[i] = path.marks[place + i];
    }
    OpenPath {
        vertices,
        marks,
        count,
    }
}

/// The path from its last vertex in x on.
pub fn last_part(path: &OpenPath, x: VSet) -> OpenPath
    requires { BeginsIn (has x.bits) path.now }
    ensures { IsLastPart (has x.bits) path.now result }
{
    part_from(path, last_place(path, x))
}
