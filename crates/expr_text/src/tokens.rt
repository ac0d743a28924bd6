//! The tokens of a text.

ghost use Rattle.std.specs.Prelude.{◌≡◌, ◌<◌, ◌≤◌, ◌+◌, ◌*◌, ◌^◌, ℕ, length, IfSome, IfOk, option_map, take, drop};
ghost use Rattle.expr_text.specs.Read.{Gives, after, trim, next_is, expect, raw_name, bare, closed, with_vertex, name_at, name_step, repeat, names_at, number_of, is_number, number_in, number_at};

use crate::bytes::{Class, run_len};
use crate::stop::{Parsed, ReadStop};
use mixed_graph::{Names, VSet};

/// The bytes from the next token on.
#[tactic(auto, unfolding(crate::specs::Read::trim))]
pub fn trim(bytes: &[u8]) -> &[u8]
    ensures trim { result.now ≡ trim bytes.now }
    ensures within { length result.now ≤ length bytes.now }
{
    let (_, rest) = bytes.split_at(run_len(Class::White, bytes));
    rest
}

/// The bytes behind a token, where they begin with it.
pub fn after<'a>(token: &[u8], bytes: &'a [u8]) -> Option<&'a [u8]>
    ensures after { option_map (λ r. r.now) result ≡ after token.now bytes.now }
    ensures shorter { IfSome result (λ r. length r.now + length token.now ≡ length bytes.now) }
{
    let [t, token @ ..] = token else {
        return Some(bytes);
    };
    let [b, bytes @ ..] = bytes else {
        return None;
    };
    if t != b {
        return None;
    }
    after(token, bytes)
}

/// The bytes behind a token, where it is the next.
#[tactic(auto, unfolding(crate::specs::Read::next_is))]
pub fn next_is<'a>(token: &[u8], bytes: &'a [u8]) -> Option<&'a [u8]>
    ensures next { option_map (λ r. r.now) result ≡ next_is token.now bytes.now }
    ensures shorter { IfSome result (λ r. length r.now + length token.now ≤ length bytes.now) }
{
    after(token, trim(bytes))
}

/// The bytes behind a token that has to be the next.
#[tactic(auto, unfolding(crate::specs::Read::expect))]
pub fn expect<'a>(token: &[u8], bytes: &'a [u8]) -> Result<&'a [u8], ReadStop>
    ensures expect { Gives (λ r. r.now) result (expect token.now bytes.now) }
    ensures shorter { IfOk result (λ r. length r.now + length token.now ≤ length bytes.now) }
{
    match next_is(token, bytes) {
        Some(rest) => Ok(rest),
        None => Err(ReadStop::Left(trim(bytes).len())),
    }
}

/// A name, and what follows its closing quotation mark.
fn closed<'a>(name: &'a [u8], bytes: &'a [u8]) -> Option<(&'a [u8], &'a [u8])>
    ensures closed { option_map (λ p. (p.0.now, p.1.now)) result ≡ closed name.now bytes.now }
    ensures shorter { IfSome result (λ p. length p.1.now < length bytes.now) }
{
    let [_, ..] = name else {
        return None;
    };
    let [b, rest @ ..] = bytes else {
        return None;
    };
    if *b == b'"' { Some((name, rest)) } else { None }
}

/// A run of the bytes of bare names at the front, where there is one, and what follows it.
fn bare(bytes: &[u8]) -> Option<(&[u8], &[u8])>
    ensures bare { option_map (λ p. (p.0.now, p.1.now)) result ≡ bare bytes.now }
    ensures shorter { IfSome result (λ p. length p.1.now < length bytes.now) }
{
    let len = run_len(Class::Plain, bytes);
    if len == 0 {
        None
    } else {
        Some(bytes.split_at(len))
    }
}

/// A name at the front, and what follows it.
fn raw_name(bytes: &[u8]) -> Option<(&[u8], &[u8])>
    ensures raw { option_map (λ p. (p.0.now, p.1.now)) result ≡ raw_name bytes.now }
    ensures shorter { IfSome result (λ p. length p.1.now < length bytes.now) }
{
    let [b, rest @ ..] = bytes else {
        return None;
    };
    if *b == b'"' {
        let (name, rest) = rest.split_at(run_len(Class::Line, rest));
        return closed(name, rest);
    }
    if *b == b'#' {
        return None;
    }
    bare(bytes)
}

/// A set with the vertex of that name, where there is one and it isn't a member.
fn with_vertex(names: &Names, have: VSet, name: &[u8]) -> Option<VSet>
    ensures { option_map (λ s. s.bits) result ≡ with_vertex names.now have.bits name.now }
{
    let Some(v) = names.index(name) else {
        return None;
    };
    if have.has(v) {
        return None;
    }
    Some(have.union(VSet::one(v)))
}

/// The next name, beside the members before it.
#[tactic(auto, unfolding(crate::specs::Read::name_at))]
fn name_at<'a>(names: &Names, have: VSet, bytes: &'a [u8]) -> Parsed<'a, VSet>
    ensures name { Gives (λ p. (p.0.bits, p.1.now)) result (name_at names.now have.bits bytes.now) }
    ensures shorter { IfOk result (λ p. length p.1.now < length bytes.now) }
{
    let front = trim(bytes);
    let Some((name, rest)) = raw_name(front) else {
        return Err(ReadStop::Left(front.len()));
    };
    match with_vertex(names, have, name) {
        Some(set) => Ok((set, rest)),
        None => Err(ReadStop::Left(front.len())),
    }
}

/// The names of a set, in any order.
#[tactic(auto, unfolding(crate::specs::Read::names_at))]
pub fn names_at<'a>(names: &Names, bytes: &'a [u8]) -> Parsed<'a, VSet>
    ensures names { Gives (λ p. (p.0.bits, p.1.now)) result (names_at names.now bytes.now) }
    ensures shorter { IfOk result (λ p. length p.1.now < length bytes.now) }
{
    let (first, rest) = name_at(names, VSet::EMPTY, bytes)?;
    more_names(names, first, rest)
}

/// Names behind the first, each after a comma.
fn more_names<'a>(names: &Names, first: VSet, bytes: &'a [u8]) -> Parsed<'a, VSet>
    ensures names { Gives (λ p. (p.0.bits, p.1.now)) result (repeat (name_step names.now) (length bytes.now) first.bits bytes.now) }
    ensures shorter { IfOk result (λ p. length p.1.now ≤ length bytes.now) }
{
    let mut set = first;
    let mut rest = bytes;
    while let Some(after) = next_is(b",", rest) {
        let (more, behind) = name_at(names, set, after)?;
        set = more;
        rest = behind;
    }
    Ok((set, rest))
}

/// The value of decimal digits.
fn number_of(digits: &[u8]) -> u64
    requires { length digits.now ≤ 10 }
    ensures { result ≡ number_of 0 digits.now }
{
    let mut n: u64 = 0;
    for d in digits {
        n = 10 * n + (*d as u64).saturating_sub(48);
    }
    n
}

/// Whether the digits are those of a number of 32 bits, without a zero at the front of others.
fn is_number(digits: &[u8]) -> bool
    ensures { result ≡ is_number digits.now }
{
    let [d, ds @ ..] = digits else {
        return false;
    };
    if ds.len() >= 10 || (*d == b'0' && ds.len() > 0) {
        return false;
    }
    number_of(digits) < 1 << 32
}

/// The next number.
#[tactic(auto, unfolding(crate::specs::Read::number_at))]
pub fn number_at(bytes: &[u8]) -> Parsed<'_, u32>
    ensures number { Gives (λ p. (p.0, p.1.now)) result (number_at bytes.now) }
    ensures shorter { IfOk result (λ p. length p.1.now ≤ length bytes.now) }
{
    let front = trim(bytes);
    let (digits, rest) = front.split_at(run_len(Class::Digit, front));
    if !is_number(digits) {
        return Err(ReadStop::Left(front.len()));
    }
    Ok((number_of(digits) as u32, rest))
}
