//! The cell of a number.

ghost use Rattle.std.specs.Prelude.{ℕ, ◌≡◌, ◌≢◌, ◌<◌, ◌*◌, ◌/◌, ◌%◌, ◌^◌, All, length, slice_index};
ghost use Rattle.count_table.specs.Vocabulary.{HasCell, place_at, cells_over};

use count_table::sum_tables::Places;

/// The cell of a number: its levels of a, of b and of the given vertices as digits, that of a slowest.
pub fn cell_at(given: &Places, a: u8, b: u8, seconds: usize, number: usize) -> [u32; 64]
    requires a { a < 64 }
    requires b { b < 64 }
    requires differ { a ≢ b }
    requires a_apart { All (λ u. u ≢ a) given.now.vertices }
    requires b_apart { All (λ u. u ≢ b) given.now.vertices }
    requires some { 0 < seconds }
    requires few { seconds < 2 ^ 32 }
    requires cells { 0 < cells_over given.now }
    requires levels { number / cells_over given.now / seconds < 2 ^ 32 }
    ensures long { length result ≡ 64 }
    ensures first { slice_index result a ≡ number / cells_over given.now / seconds }
    ensures second { slice_index result b ≡ number / cells_over given.now % seconds }
    ensures cell { HasCell given.now result }
    ensures place { place_at given.now (λ v. slice_index result v) ≡ number % cells_over given.now }
    ensures outside { (v : ℕ) → v ≢ a → v ≢ b → All (λ u. u ≢ v) given.now.vertices → slice_index result v ≡ 0 }
{
    let count = given.count();
    let mut cell = given.cell(number % count);
    let pair = number / count;
    cell[a as usize] = (pair / seconds) as u32;
    cell[b as usize] = (pair % seconds) as u32;
    cell
}
