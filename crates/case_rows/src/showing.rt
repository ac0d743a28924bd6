//! Sets, paths and graphs as rows print them.

use m_separation::{Mark, OpenPath};
use mixed_graph::{Graph, VSet};
use std::fmt;
use std::fmt::{Formatter, Write};

/// The members of a set, as `{0,2}`.
#[derive(Clone, Copy)]
pub struct Members(pub VSet);

impl fmt::Display for Members {
    fn fmt<W: Write>(&self, f: &mut Formatter<W>) -> fmt::Result {
        let mut before = "{";
        for v in 0..64u8 {
            if self.0.has(v) {
                write!(f, "{before}{v}")?;
                before = ",";
            }
        }
        if before == "{" {
            return f.write_str("{}");
        }
        f.write_str("}")
    }
}

/// The number of a list's entries, these, and what stands next to the last, as `2: 5 7 0`.
#[derive(Clone, Copy)]
pub struct Entries<'a>(pub &'a [u8; 64], pub u32);

impl fmt::Display for Entries<'_> {
    fn fmt<W: Write>(&self, f: &mut Formatter<W>) -> fmt::Result {
        let (list, count) = (self.0, self.1);
        write!(f, "{count}:")?;
        for entry in list.iter().take((count as usize).saturating_add(1)) {
            write!(f, " {entry}")?;
        }
        Ok(())
    }
}

/// A path, as `0 -> 1 <- 2`.
#[derive(Clone, Copy)]
pub struct Path<'a>(pub &'a OpenPath);

impl fmt::Display for Path<'_> {
    fn fmt<W: Write>(&self, f: &mut Formatter<W>) -> fmt::Result {
        let count = self.0.count;
        for (i, vertex) in self.0.vertices.iter().enumerate() {
            if (i as u32) < count {
                write!(f, "{vertex}")?;
            }
            if (i as u32) + 1 < count {
                f.write_str(match self.0.marks[i] {
                    Mark::Out => " -> ",
                    Mark::Into => " <- ",
                    Mark::Both => " <-> ",
                })?;
            }
        }
        Ok(())
    }
}

/// The ends of a vertex's edges, if there are any, as ` -> {0,2}`.
#[derive(Clone, Copy)]
struct Ends(&'static str, VSet);

impl fmt::Display for Ends {
    fn fmt<W: Write>(&self, f: &mut Formatter<W>) -> fmt::Result {
        if self.1.is_empty() {
            return Ok(());
        }
        let sign = self.0;
        let ends = Members(self.1);
        write!(f, " {sign} {ends}")
    }
}

/// The number of a graph's vertices, and each row that isn't empty, as `3: 0 -> {1}; 1 <- {0} <-> {2}; 2 <-> {1}`.
#[derive(Clone, Copy)]
pub struct Rows<'a>(pub &'a Graph);

impl fmt::Display for Rows<'_> {
    fn fmt<W: Write>(&self, f: &mut Formatter<W>) -> fmt::Result {
        let n = self.0.n;
        write!(f, "{n}")?;
        let mut before = ": ";
        for v in 0..64u8 {
            let (from, to) = (self.0.parents(v), self.0.children(v));
            let with = self.0.spouses(v);
            if !from.union(to).union(with).is_empty() {
                let (from, to) = (Ends("<-", from), Ends("->", to));
                let with = Ends("<->", with);
                write!(f, "{before}{v}{from}{to}{with}")?;
                before = "; ";
            }
        }
        Ok(())
    }
}
