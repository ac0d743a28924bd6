//! The bounds of a stratum by pairs of levels, for a treatment with two values.

ghost use Rattle.std.specs.Prelude.{ℕ, ◌≡◌, ◌≤◌, ◌*◌};
ghost use Rattle.mixed_graph.specs.Vocabulary.{has};
ghost use Rattle.finite_models.specs.Vocabulary.{sum_over};
ghost use Rattle.count_table.specs.Vocabulary.{HasLevels};
ghost use Rattle.count_eval.specs.Vocabulary.{weights_in, is_used, cell_of};
ghost use Rattle.natural_bounds.specs.Vocabulary.{joint, level, tightest_over};
ghost use Rattle.crossed_bounds.specs.Vocabulary.{other, untaken, chosen, shown, levels_bound, crossed_bound, paired_bound};
ghost use Rattle.bound_values.specs.Questions.{asked_of, IsScope, HasPairs, AreAlikeOutside};
ghost use Rattle.bound_values.specs.Values.{fraction_of};

use crate::cells::{stratum_bound, vertex_count};
use crate::questions::Scope;
use crate::ratios::Ratio;
use natural_bounds::End;

/// The cell with the other value of x.
fn other_value(scope: &Scope, cell: &[u32; 64]) -> [u32; 64]
    requires scope { IsScope scope.now.n scope.now.counts.now scope.now.question.method (asked_of scope.now.question) scope.now.sums.now }
    requires pairs { HasPairs scope.now.n scope.now.counts.now (asked_of scope.now.question) }
    requires levels { HasLevels scope.now.counts.now (is_used scope.now.counts.now) cell.now }
    ensures cell { cell_of result ≡ other (has scope.now.question.x.bits) (cell_of cell.now) }
    ensures levels { HasLevels scope.now.counts.now (is_used scope.now.counts.now) result }
{
    let x = scope.question.x.lowest() as usize;
    let mut turned = *cell;
    turned[x] = 1 - turned[x];
    turned
}

/// The greater of two numbers for what an effect is at least, and the less for what it is at most.
fn chosen(end: End, a: u128, b: u128) -> u128
    ensures { result ≡ chosen end a b }
{
    match end {
        End::AtLeast => { if a <= b { b } else { a } }
        End::AtMost => { if a <= b { a } else { b } }
    }
}

/// The records of two levels of the instruments in a stratum.
#[derive(Clone, Copy)]
struct Records {
    first: u64,
    second: u64,
}

/// For each value of y below v the greater, or the less, of what two levels have there, summed. The cells of the levels differ in the instruments alone.
fn chosen_below(
    scope: &Scope,
    end: End,
    records: Records,
    v: u8,
    first: [u32; 64],
    second: [u32; 64],
) -> u128
    requires scope { IsScope scope.now.n scope.now.counts.now scope.now.question.method (asked_of scope.now.question) scope.now.sums.now }
    requires pairs { HasPairs scope.now.n scope.now.counts.now (asked_of scope.now.question) }
    requires first_levels { HasLevels scope.now.counts.now (is_used scope.now.counts.now) first }
    requires second_levels { HasLevels scope.now.counts.now (is_used scope.now.counts.now) second }
    requires alike { AreAlikeOutside (asked_of scope.now.question).z (cell_of first) (cell_of second) }
    requires first { records.first ≡ level (weights_in scope.now.n scope.now.counts.now) (asked_of scope.now.question) (cell_of first) }
    requires second { records.second ≡ level (weights_in scope.now.n scope.now.counts.now) (asked_of scope.now.question) (cell_of second) }
    requires vertex { v ≤ 64 }
    ensures { result ≡ sum_over (has scope.now.question.y.bits) (weights_in scope.now.n scope.now.counts.now).size v
        (λ s. chosen end (untaken (weights_in scope.now.n scope.now.counts.now) (asked_of scope.now.question) (cell_of first) (cell_of second) s)
        (untaken (weights_in scope.now.n scope.now.counts.now) (asked_of scope.now.question) (cell_of second) (cell_of first) s)) (cell_of first) }
{
    if v == 0 {
        let joint = scope.question.joint();
        let a = scope.sums.sum(joint, &first) as u128 * records.second as u128;
        let b = scope.sums.sum(joint, &second) as u128 * records.first as u128;
        return chosen(end, a, b);
    }
    let u = v - 1;
    if !scope.question.y.has(u) {
        return chosen_below(scope, end, records, u, first, second);
    }
    let mut total = 0;
    for x in 0..scope.counts.levels(u) {
        let mut inner = first;
        let mut other = second;
        inner[u as usize] = x;
        other[u as usize] = x;
        total += chosen_below(scope, end, records, u, inner, other);
    }
    total
}

/// What two levels have with the value of x, and for each value of y the greater or the less of what they have with the other value of x.
fn shown(scope: &Scope, end: End, records: Records, first: &[u32; 64], second: &[u32; 64]) -> u128
    requires scope { IsScope scope.now.n scope.now.counts.now scope.now.question.method (asked_of scope.now.question) scope.now.sums.now }
    requires pairs { HasPairs scope.now.n scope.now.counts.now (asked_of scope.now.question) }
    requires first_levels { HasLevels scope.now.counts.now (is_used scope.now.counts.now) first.now }
    requires second_levels { HasLevels scope.now.counts.now (is_used scope.now.counts.now) second.now }
    requires alike { AreAlikeOutside (asked_of scope.now.question).z (cell_of first.now) (cell_of second.now) }
    requires first { records.first ≡ level (weights_in scope.now.n scope.now.counts.now) (asked_of scope.now.question) (cell_of first.now) }
    requires second { records.second ≡ level (weights_in scope.now.n scope.now.counts.now) (asked_of scope.now.question) (cell_of second.now) }
    ensures value { result ≡ shown end (weights_in scope.now.n scope.now.counts.now) (asked_of scope.now.question) (cell_of first.now) (cell_of second.now) }
    ensures few { result ≤ 4 * (records.first * records.second) }
{
    let joint = scope.question.joint();
    let a = scope.sums.sum(joint, first) as u128 * records.second as u128;
    let b = scope.sums.sum(joint, second) as u128 * records.first as u128;
    let inner = other_value(scope, first);
    let other = other_value(scope, second);
    a + b + chosen_below(scope, end, records, vertex_count(scope), inner, other)
}

/// What two levels of the instruments say of the effect in their stratum.
fn levels_bound(scope: &Scope, end: End, first: &[u32; 64], second: &[u32; 64]) -> Ratio
    requires scope { IsScope scope.now.n scope.now.counts.now scope.now.question.method (asked_of scope.now.question) scope.now.sums.now }
    requires pairs { HasPairs scope.now.n scope.now.counts.now (asked_of scope.now.question) }
    requires first_levels { HasLevels scope.now.counts.now (is_used scope.now.counts.now) first.now }
    requires second_levels { HasLevels scope.now.counts.now (is_used scope.now.counts.now) second.now }
    requires alike { AreAlikeOutside (asked_of scope.now.question).z (cell_of first.now) (cell_of second.now) }
    ensures { fraction_of result ≡ levels_bound end (weights_in scope.now.n scope.now.counts.now) (asked_of scope.now.question) (cell_of first.now) (cell_of second.now) }
{
    let level = scope.question.level();
    let records = Records {
        first: scope.sums.sum(level, first),
        second: scope.sums.sum(level, second),
    };
    let bottom = records.first as u128 * records.second as u128;
    if bottom == 0 {
        return Ratio::trivial(end);
    }
    let shown = shown(scope, end, records, first, second);
    match end {
        End::AtLeast => Ratio::new(shown.saturating_sub(bottom), bottom),
        End::AtMost => Ratio::new(shown, bottom),
    }
}

/// The tightest of what a level says with each level that differs from a second one below v.
fn tightest_with(scope: &Scope, end: End, v: u8, first: &[u32; 64], second: [u32; 64]) -> Ratio
    requires scope { IsScope scope.now.n scope.now.counts.now scope.now.question.method (asked_of scope.now.question) scope.now.sums.now }
    requires pairs { HasPairs scope.now.n scope.now.counts.now (asked_of scope.now.question) }
    requires first_levels { HasLevels scope.now.counts.now (is_used scope.now.counts.now) first.now }
    requires second_levels { HasLevels scope.now.counts.now (is_used scope.now.counts.now) second }
    requires alike { AreAlikeOutside (asked_of scope.now.question).z (cell_of first.now) (cell_of second) }
    requires vertex { v ≤ 64 }
    ensures { fraction_of result ≡ tightest_over end (has scope.now.question.instruments.bits) (weights_in scope.now.n scope.now.counts.now).size v
        (levels_bound end (weights_in scope.now.n scope.now.counts.now) (asked_of scope.now.question) (cell_of first.now)) (cell_of second) }
{
    if v == 0 {
        return levels_bound(scope, end, first, &second);
    }
    let u = v - 1;
    if !scope.question.instruments.has(u) {
        return tightest_with(scope, end, u, first, second);
    }
    let mut best = Ratio::trivial(end);
    for x in 0..scope.counts.levels(u) {
        let mut inner = second;
        inner[u as usize] = x;
        best = best.tighter(end, tightest_with(scope, end, u, first, inner));
    }
    best
}

/// The tightest over the pairs of a level that differs from `first` below v and of a level of the cell's stratum.
fn crossed_below(scope: &Scope, end: End, v: u8, cell: &[u32; 64], first: [u32; 64]) -> Ratio
    requires scope { IsScope scope.now.n scope.now.counts.now scope.now.question.method (asked_of scope.now.question) scope.now.sums.now }
    requires pairs { HasPairs scope.now.n scope.now.counts.now (asked_of scope.now.question) }
    requires levels { HasLevels scope.now.counts.now (is_used scope.now.counts.now) cell.now }
    requires first_levels { HasLevels scope.now.counts.now (is_used scope.now.counts.now) first }
    requires alike { AreAlikeOutside (asked_of scope.now.question).z (cell_of first) (cell_of cell.now) }
    requires vertex { v ≤ 64 }
    ensures { fraction_of result ≡ tightest_over end (has scope.now.question.instruments.bits) (weights_in scope.now.n scope.now.counts.now).size v
        (λ r. tightest_over end (has scope.now.question.instruments.bits) (weights_in scope.now.n scope.now.counts.now).size scope.now.n
        (levels_bound end (weights_in scope.now.n scope.now.counts.now) (asked_of scope.now.question) r) (cell_of cell.now)) (cell_of first) }
{
    if v == 0 {
        return tightest_with(scope, end, vertex_count(scope), &first, *cell);
    }
    let u = v - 1;
    if !scope.question.instruments.has(u) {
        return crossed_below(scope, end, u, cell, first);
    }
    let mut best = Ratio::trivial(end);
    for x in 0..scope.counts.levels(u) {
        let mut inner = first;
        inner[u as usize] = x;
        best = best.tighter(end, crossed_below(scope, end, u, cell, inner));
    }
    best
}

/// The bound of the stratum of a cell by pairs of levels of the instruments: the tightest of these and of the natural bound.
pub fn paired_bound(scope: &Scope, end: End, cell: [u32; 64]) -> Ratio
    requires scope { IsScope scope.now.n scope.now.counts.now scope.now.question.method (asked_of scope.now.question) scope.now.sums.now }
    requires pairs { HasPairs scope.now.n scope.now.counts.now (asked_of scope.now.question) }
    requires levels { HasLevels scope.now.counts.now (is_used scope.now.counts.now) cell }
    ensures { fraction_of result ≡ paired_bound end (weights_in scope.now.n scope.now.counts.now) (asked_of scope.now.question) (cell_of cell) }
{
    let crossed = crossed_below(scope, end, vertex_count(scope), &cell, cell);
    crossed.tighter(end, stratum_bound(scope, end, cell))
}
