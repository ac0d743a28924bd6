//! The edges of a statement between groups.

ghost use Rattle.std.specs.Prelude.{◌≡◌, ◌<◌, ◌≤◌, ◌&&◌, ◌||◌, ◌==◌, nat_lt, ℕ, List, [], true, false, slice_index, Option, find, option_map, IfOk, IfSome, All, ◌++◌, map, OnOk};
ghost use Rattle.std.specs.List.{list_all, list_any};
ghost use Rattle.mixed_graph.specs.Vocabulary.{has, members_below, has_pair};
ghost use Rattle.dag_reader.specs.MarkEnds.{is_inside};
ghost use Rattle.dag_reader.specs.declared.marks.Role.{Role};
ghost use Rattle.dag_reader.specs.Passes.{Edge, members, self_loop, arrow_of, both_of, arrows_of, doubles_of, has_role, roles_of};
ghost use Rattle.dag_reader.specs.RoleSets.{in_set};
ghost use Rattle.dag_reader.specs.LoneEdges.{IsLone, has_edge};
ghost use Rattle.dag_reader.specs.Rows.{row_has, pairs_below};

use crate::marks::{Arrow, Remark};
use crate::roles::Roles;
use mixed_graph::{Rows, VSet};
use std::alloc::{AllocError, Global};

/// The members of the group at the front.
fn group(marks: &[Remark]) -> VSet
    requires { list_all (is_inside 64) marks.now ≡ true }
    ensures { (v : ℕ) → has result.bits v ≡ list_any (λ r. v == r) (members marks.now) }
{
    if let [Remark::Member(v), Remark::Begins, ..] = marks {
        return VSet::one(*v);
    }
    let mut set = VSet::empty();
    for mark in marks {
        match *mark {
            Remark::Begins | Remark::Joined(_) => return set,
            Remark::Member(v) => set = set.union(VSet::one(v)),
            Remark::HasRole(_) => {}
        }
    }
    set
}

/// The first of these that the set has.
fn first_in(left: &[u8], set: VSet) -> Option<u8>
    requires { list_all (λ v. nat_lt v 64) left.now ≡ true }
    ensures { result ≡ find (λ v. has set.bits v) left.now }
{
    for v in left {
        if set.has(*v) {
            return Some(*v);
        }
    }
    None
}

/// The vertex of the first edge that joins a vertex to itself.
pub fn self_loop(alloc: Global, marks: &[Remark]) -> Result<Option<u8>, AllocError>
    requires { list_all (is_inside 64) marks.now ≡ true }
    ensures { IfOk result (λ r. r ≡ option_map (λ (e : Edge). e.left) (self_loop marks.now)) }
{
    let mut left: Vec<u8> = Vec::new(alloc);
    let mut rest = marks;
    while let [mark, after @ ..] = rest {
        match *mark {
            Remark::Begins => left.clear(),
            Remark::Joined(_) => {
                if let Some(v) = first_in(left.as_slice(), group(after)) {
                    return Ok(Some(v));
                }
                left.clear();
            }
            Remark::Member(v) => left.push(v)?,
            Remark::HasRole(_) => {}
        }
        rest = after;
    }
    Ok(None)
}

/// Joins each member of one set to each of another.
fn connect(rows: &mut Rows, from: VSet, to: VSet)
    ensures { (a b : ℕ) → row_has rows.new a b ≡ (row_has rows.old a b || (has from.bits a && has to.bits b)) }
{
    'members: for v in from.iter() {
        rows[v as usize] = VSet::row(rows, v).union(to).bits;
    }
}

/// An edge whose ends are the only members of their groups, and the marks behind it.
#[derive(Clone, Copy)]
struct LoneEdge<'a> {
    left: u8,
    arrow: Arrow,
    right: u8,
    rest: &'a [Remark],
}

/// The edge at the front, where its ends are the only members of their groups and no further edge joins them.
#[inline(always)]
fn lone_edge(marks: &[Remark]) -> Option<LoneEdge<'_>>
    requires { list_all (is_inside 64) marks.now ≡ true }
    ensures edge { IfSome result (λ l. IsLone marks.now l.left l.arrow l.right l.rest.now) }
    ensures inside { IfSome result (λ l. (l.left < 64) × (l.right < 64)) }
{
    match marks {
        [
            Remark::Begins,
            Remark::Member(left),
            Remark::Joined(arrow),
            Remark::Member(right),
            Remark::Begins,
            ..
        ] => Some(LoneEdge {
            left: *left,
            arrow: *arrow,
            right: *right,
            rest: &marks[4..],
        }),
        _ => None,
    }
}

/// Joins one vertex to another.
#[inline(always)]
fn connect_one(rows: &mut Rows, from: u8, to: u8)
    requires from { from < 64 }
    requires to { to < 64 }
    ensures { (a b : ℕ) → row_has rows.new a b ≡ (row_has rows.old a b || ((a == from) && (b == to))) }
{
    rows[from as usize] = VSet::row(rows, from).union(VSet::one(to)).bits;
}

/// Joins the ends of an edge.
#[inline(always)]
fn connect_ends(arrows: &mut Rows, doubles: &mut Rows, left: u8, arrow: Arrow, right: u8)
    requires left { left < 64 }
    requires right { right < 64 }
    ensures arrows { (a b : ℕ) → row_has arrows.new a b ≡ (row_has arrows.old a b || has_edge arrow_of left arrow right a b) }
    ensures doubles { (a b : ℕ) → row_has doubles.new a b ≡ (row_has doubles.old a b || has_edge both_of left arrow right a b) }
{
    match arrow {
        Arrow::Right => connect_one(arrows, left, right),
        Arrow::Left => connect_one(arrows, right, left),
        Arrow::Both => connect_one(doubles, left, right),
    }
}

/// The edges of each kind: row a holds each b with a -> b, or with a <-> b as it is written from the left.
#[derive(Clone, Copy)]
pub struct Edges {
    pub arrows: Rows,
    pub doubles: Rows,
}

/// The edges and the roles that the marks say.
#[derive(Clone, Copy)]
pub struct EdgesAndRoles {
    pub edges: Edges,
    pub roles: Roles,
}

/// The edges and the roles that the marks say, in one walk.
pub fn edges_and_roles(marks: &[Remark]) -> EdgesAndRoles
    requires { list_all (is_inside 64) marks.now ≡ true }
    ensures arrows { (a b : ℕ) → row_has result.edges.arrows a b ≡ has_pair (arrows_of marks.now) a b }
    ensures doubles { (a b : ℕ) → row_has result.edges.doubles a b ≡ has_pair (doubles_of marks.now) a b }
    ensures roles { (r : Role) (v : ℕ) → in_set result.roles r v ≡ has_role (roles_of marks.now) r v }
{
    let mut arrows = [0u64; 64];
    let mut doubles = [0u64; 64];
    let mut left = VSet::empty();
    let mut roles = Roles::none();
    let mut last = None;
    let mut rest = marks;
    'turns: loop {
        match lone_edge(rest) {
            Some(edge) => {
                connect_ends(&mut arrows, &mut doubles, edge.left, edge.arrow, edge.right);
                left = VSet::empty();
                last = Some(edge.right);
                rest = edge.rest;
            }
            None => {
                let [mark, after @ ..] = rest else {
                    return EdgesAndRoles {
                        edges: Edges { arrows, doubles },
                        roles,
                    };
                };
                match *mark {
                    Remark::Begins => left = VSet::empty(),
                    Remark::Joined(arrow) => {
                        let right = group(after);
                        match arrow {
                            Arrow::Right => connect(&mut arrows, left, right),
                            Arrow::Left => connect(&mut arrows, right, left),
                            Arrow::Both => connect(&mut doubles, left, right),
                        }
                        left = VSet::empty();
                    }
                    Remark::Member(v) => {
                        left = left.union(VSet::one(v));
                        last = Some(v);
                    }
                    Remark::HasRole(role) => roles = roles.with_last(last, role),
                }
                rest = after;
            }
        }
    }
}

/// Whether an edge joins a vertex to itself.
pub fn has_loop(edges: &Edges) -> bool
    ensures { result ≡ false → (v : ℕ) → (row_has edges.now.arrows v v ≡ false) × (row_has edges.now.doubles v v ≡ false) }
{
    for v in 0..64u8 {
        let row = VSet::row(&edges.arrows, v);
        let both = VSet::row(&edges.doubles, v);
        if row.union(both).has(v) {
            return true;
        }
    }
    false
}

/// Adds the pairs of one row.
fn push_row(out: &mut Vec<(u8, u8)>, a: u8, row: VSet) -> Result<(), AllocError>
    ensures { OnOk result (out.new.items ≡ out.old.items ++ map (λ b. (a, b)) (members_below (has row.bits) 64)) }
{
    'members_of_row: for b in row.iter() {
        out.push((a, b))?;
    }
    Ok(())
}

/// The pairs of the rows, sorted.
pub fn pairs_below(alloc: Global, n: u32, rows: &Rows) -> Result<Vec<(u8, u8)>, AllocError>
    requires { n ≤ 64 }
    ensures { IfOk result (λ pairs. pairs.items ≡ pairs_below n (row_has rows.now)) }
{
    let below = VSet::below(n);
    let mut out = Vec::new(alloc);
    for a in 0..n {
        let row = VSet::row(rows, a as u8);
        push_row(&mut out, a as u8, row.intersection(below))?;
    }
    Ok(out)
}
