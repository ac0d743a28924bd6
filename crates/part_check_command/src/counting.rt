//! How many lemmas derivations have.

ghost use Rattle.std.specs.Prelude.{◌≡◌, length, slice_index, IfOk};
ghost use Rattle.derived_parts.specs.Vocabulary.{derived_view, derived_views};
ghost use Rattle.part_check_command.specs.Right.{lemma_counts, lemmas_at_fault};

use derived_parts::{DerivedPart, PartsFault};
use std::alloc::{AllocError, Global};

/// How many lemmas the derivation of a part has.
fn lemmas_of(part: &DerivedPart) -> usize
    ensures { result ≡ length (derived_view part.now).derivation.lemmas }
{
    part.derivation.lemmas.len()
}

/// How many that of each part has.
pub fn lemma_counts(alloc: Global, parts: &Vec<DerivedPart>) -> Result<Vec<usize>, AllocError>
    ensures { IfOk result (λ v. v.items ≡ lemma_counts (derived_views parts.now.items)) }
{
    let mut counts = Vec::new(alloc);
    for part in parts {
        counts.push(lemmas_of(part))?;
    }
    Ok(counts)
}

/// The number at a place; 0 where there is none.
fn count_at(counts: &[usize], k: usize) -> usize
    ensures { result ≡ slice_index counts.now k }
{
    if k < counts.len() { counts[k] } else { 0 }
}

/// How many the derivation at fault has: 0 where the fault is another, and nothing where memory was refused.
pub fn lemmas_at_fault(counts: &[usize], fault: PartsFault) -> Option<usize>
    ensures { result ≡ lemmas_at_fault counts.now fault }
{
    match fault {
        PartsFault::Missing { .. } | PartsFault::Further(_) | PartsFault::District { .. } => {
            Some(0)
        }
        PartsFault::Derivation { part, .. } => Some(count_at(counts, part)),
        PartsFault::NoMemory => None,
    }
}
