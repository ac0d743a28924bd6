//! Sums of counts under a mask and along one axis of a table, eight lanes at a time.
//!
//! Each call gives the plain sum at every length. Nothing is allocated.
//!
//! `masked_sum(cells, codes, mask, value)` is the sum of the cells that agree under a mask.
ghost use Rattle.std.specs.Prelude.{ℕ, ◌≡◌, ◌<◌, ◌≤◌, ◌+◌, ◌*◌, ◌-◌, ◌^◌, length, sum, slice_range, slice_index};
ghost use Rattle.count_table.specs.LaneSums.{sum_below, if_matched, matched_sum, Adds, axis_total};

use std::simd::prelude::*;

/// The sum of the eight counts from place `at` on whose codes under the mask are the wanted one.
fn block_sum(counts: &[u64], codes: &[u64], at: usize, mask: u64, want: u64) -> u64
    requires counts { at + 8 ≤ length counts.now }
    requires codes { at + 8 ≤ length codes.now }
    requires room { sum counts.now < 2 ^ 64 }
    ensures { result ≡ sum_below 8 (λ i. if_matched mask want (slice_index counts.now (at + i)) (slice_index codes.now (at + i))) }
{
    let numbers = u64x8::from_slice(&counts[at..]);
    let under = u64x8::from_slice(&codes[at..]) & u64x8::splat(mask);
    let hits = under.simd_eq(u64x8::splat(want));
    hits.select(numbers, u64x8::splat(0)).reduce_sum()
}

/// The count, where its code under the mask is the wanted one, else 0.
fn count_if_matched(count: u64, code: u64, mask: u64, want: u64) -> u64
    ensures { result ≡ if_matched mask want count code }
{
    if code & mask == want { count } else { 0 }
}

/// The sum of `counts[i]` over all `i` with `codes[i] & mask == want`.
pub fn masked_sum(counts: &[u64], codes: &[u64], mask: u64, want: u64) -> u64
    requires lengths { length counts.now ≡ length codes.now }
    requires room { sum counts.now < 2 ^ 64 }
    ensures { result ≡ matched_sum mask want (length counts.now) counts.now codes.now }
{
    let mut total = 0;
    let mut at = 0;
    'eights: while counts.len() - at >= 8 {
        total += block_sum(counts, codes, at, mask, want);
        at += 8;
    }
    'rest: while at < counts.len() {
        total += count_if_matched(counts[at], codes[at], mask, want);
        at += 1;
    }
    total
}

/// Adds the eight cells from place `from` on to the numbers from place `at` on.
fn add_eight(into: &mut [u64], at: usize, cells: &[u64], from: usize)
    requires into { at + 8 ≤ length into.old }
    requires cells { from + 8 ≤ length cells.now }
    requires room { (j : ℕ) → j < 8 → slice_index into.old (at + j) + slice_index cells.now (from + j) < 2 ^ 64 }
    ensures { Adds into.old into.new cells.now at from 8 }
{
    let sum = u64x8::from_slice(&into[at..]) + u64x8::from_slice(&cells[from..]);
    sum.copy_to_slice(&mut into[at..]);
}

/// Adds the `inner` cells from place `from` on to the numbers from place `at` on.
fn add_row(into: &mut [u64], at: usize, cells: &[u64], from: usize, inner: usize)
    requires into { at + inner ≤ length into.old }
    requires cells { from + inner ≤ length cells.now }
    requires room { (j : ℕ) → j < inner → slice_index into.old (at + j) + slice_index cells.now (from + j) < 2 ^ 64 }
    ensures { Adds into.old into.new cells.now at from inner }
{
    let mut i = 0;
    'eights: while inner - i >= 8 {
        add_eight(into, at + i, cells, from + i);
        i += 8;
    }
    'rest: while i < inner {
        into[at + i] += cells[from + i];
        i += 1;
    }
}

/// Sums a table over the middle one of its three axes: `into[o * inner + i]` becomes the sum
/// of `cells[(o * axis + a) * inner + i]` over all `a` below `axis`.
pub fn axis_sum(cells: &[u64], outer: usize, axis: usize, inner: usize, into: &mut [u64])
    requires cells { length cells.now ≡ outer * axis * inner }
    requires into { length into.old ≡ outer * inner }
    requires room { sum cells.now < 2 ^ 64 }
    ensures { (o i : ℕ) → o < outer → i < inner → slice_index into.new (o * inner + i) ≡ axis_total axis inner o i cells.now }
{
    into.fill(0);
    if inner == 0 {
        return;
    }
    'blocks_of: for o in 0..outer {
        'rows: for a in 0..axis {
            add_row(into, o * inner, cells, (o * axis + a) * inner, inner);
        }
    }
}
