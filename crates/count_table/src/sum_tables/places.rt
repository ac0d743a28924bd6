//! The cells of a set of vertices, numbered.

ghost use Rattle.std.specs.Prelude.{ℕ, ◌≡◌, ◌≢◌, ◌<◌, ◌≤◌, ◌^◌, All, IfOk, length, map, slice_index};
ghost use Rattle.mixed_graph.specs.Vocabulary.{has};
ghost use Rattle.count_table.specs.Cells.{IsCell};
ghost use Rattle.count_table.specs.Axes.{axes_of, cell_at, place_at, cells_over, HasCell, AreAxes};

use crate::Counts;
use mixed_graph::VSet;
use std::alloc::{AllocError, Global};
use std::marker::Model;

/// The cells of a set of vertices, each with a place: a number below the number of cells, without gaps.
///
/// A cell has a level of each vertex of the set. Its place has these levels as digits, in mixed radix over the vertices in
/// index order, that of the lowest index slowest. Contracts see the vertices of the set and the number of levels of each.
#[derive(Drop)]
pub struct Places {
    vertices: Vec<u8>,
    sizes: Vec<u32>,
    count: usize,
}

impl Model for Places {
    ghost use Rattle.count_table.specs.Axes.{Axes, AreKeptAxes};

    ghost Value = { Axes };

    ghost view = { λ s. record { vertices = s.vertices.items; sizes = s.sizes.items } };

    ghost invariant = { λ s. AreKeptAxes (record { vertices = s.vertices.items; sizes = s.sizes.items }) s.count };
}

impl Places {
    /// The places of the cells of those vertices of a set that a table of counts uses.
    pub fn of(alloc: Global, c: &Counts, of: VSet) -> Result<Places, AllocError>
        ensures { IfOk result (λ p. p ≡ axes_of c.now (has of.bits)) }
    {
        let members = c.used().intersection(of);
        let mut vertices = Vec::new(alloc);
        let mut sizes = Vec::new(alloc);
        let mut count = 1;
        for v in 0..64 {
            if members.has(v) {
                let levels = c.levels(v);
                vertices.push(v)?;
                sizes.push(levels)?;
                count *= levels as usize;
            }
        }
        Ok(Places {
            vertices,
            sizes,
            count,
        })
    }

    /// The number of cells.
    pub fn count(&self) -> usize
        ensures count { result ≡ cells_over self.now }
        ensures axes { AreAxes self.now }
    {
        self.count
    }

    /// The vertices of the set, in ascending order.
    pub fn vertices(&self) -> &[u8]
        ensures { result.now ≡ self.now.vertices }
    {
        self.vertices.as_slice()
    }

    /// The number of levels of each vertex of the set.
    pub fn sizes(&self) -> &[u32]
        ensures { result.now ≡ self.now.sizes }
    {
        self.sizes.as_slice()
    }

    /// The place of an assignment's cell. No other cell has it.
    pub fn place(&self, at: &[u32]) -> usize
        requires { HasCell self.now at.now }
        ensures place { result ≡ place_at self.now (λ v. slice_index at.now v) }
        ensures within { result < cells_over self.now }
        ensures alone { (other : ℕ → ℕ) → IsCell self.now.sizes (cell_at self.now other) → place_at self.now other ≡ result →
            All (λ v. other v ≡ slice_index at.now v) self.now.vertices }
    {
        let mut place = 0;
        for i in 0..self.vertices.len() {
            place = place * self.sizes[i] as usize + at[self.vertices[i] as usize] as usize;
        }
        place
    }

    /// The cell at a place, as an assignment: a level of each vertex of the set, and 0 of each other one.
    pub fn cell(&self, place: usize) -> [u32; 64]
        requires { place < cells_over self.now }
        ensures cell { HasCell self.now result }
        ensures place { place_at self.now (λ v. slice_index result v) ≡ place }
        ensures outside { (v : ℕ) → All (λ u. u ≢ v) self.now.vertices → slice_index result v ≡ 0 }
    {
        let mut cell = [0; 64];
        let mut rest = place;
        let mut i = self.vertices.len();
        while i > 0 {
            i -= 1;
            let levels = self.sizes[i] as usize;
            cell[self.vertices[i] as usize] = (rest % levels) as u32;
            rest /= levels;
        }
        cell
    }
}
