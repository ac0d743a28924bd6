//! How long the largest difference of a pair takes, beside one pass over the same table.

use count_table::Counts;
use implications::Implication;
use implied_differences::{is_readable, largest_difference};
use mixed_graph::VSet;
use std::alloc::Global;
use std::io;
use std::rt::Clock;
use std::time::Instant;

/// The pairs, each given all other vertices of the table.
const PAIRS: [(u8, u8); 4] = [(0, 1), (0, 19), (9, 10), (18, 19)];

/// How often each is measured.
const ROUNDS: u32 = 9;

/// The sum of all cells, without its carries.
fn pass(cells: &[u64]) -> u64 {
    let mut total: u64 = 0;
    for cell in cells {
        total = total.wrapping_add(*cell);
    }
    total
}

/// Prints the largest difference of a pair given all others, and the microseconds that it took.
fn print_pair<R: Print + Clock>(
    rt: &R,
    alloc: Global,
    counts: &Counts,
    a: u8,
    b: u8,
) -> io::Result<()> {
    let pair = VSet::one(a % 64).union(VSet::one(b % 64));
    let given = counts.used().difference(pair);
    let i = Implication { a, b, given };
    if !is_readable(counts, &i) {
        return rt.println("not readable");
    }
    let start = Instant::now(rt)?;
    let Ok(difference) = largest_difference(alloc, counts, &i) else {
        return rt.println("memory");
    };
    let micros = start.elapsed(rt)?.as_micros();
    let value = difference.value;
    rt.println(format_args!("pair {a} {b}: {value}, {micros} us"))
}

/// Prints the microseconds of one pass, and of the largest difference of each pair, in turn.
pub(crate) fn print_times<R: Print + Clock>(
    rt: &R,
    alloc: Global,
    counts: &Counts,
) -> io::Result<()> {
    for _ in 0..ROUNDS {
        let start = Instant::now(rt)?;
        let total = pass(counts.cells());
        let micros = start.elapsed(rt)?.as_micros();
        rt.println(format_args!("pass: {total}, {micros} us"))?;
        for (a, b) in PAIRS {
            print_pair(rt, alloc, counts, a, b)?;
        }
    }
    Ok(())
}
