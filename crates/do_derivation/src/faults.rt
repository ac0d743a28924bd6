//! Why a derivation is refused, and where.

use m_separation::OpenPath;

/// Why a step is refused.
#[derive(Clone, Copy)]
pub enum StepFault {
    /// The step works on a term, and stands on something else.
    NotATerm,
    /// The step's set doesn't stand as it has to towards the sets of the term.
    Sets,
    /// The rule's separation doesn't hold: the path is open in its cut graph.
    Unblocked(OpenPath),
    /// The list doesn't hold each vertex of the term once, or holds fewer than two.
    BadOrder,
    /// The groups don't hold each factor once, or one is empty, or there are fewer than two, or it is no product.
    Grouping,
    /// There is no lemma of that number to cite.
    NoLemma(u32),
    /// There is no child of that number.
    NoPlace(u32),
    /// The expression hasn't the shape on which the step works.
    Shape,
}

/// Where a step stands: the lemma's number, or none for main, and the step's number.
///
/// Steps are numbered from 1 in preorder, `Then` not counted; a number that would pass the last of 32 bits is given as that.
#[derive(Clone, Copy, Debug, PartialEq, Eq)]
pub struct StepPlace {
    pub lemma: Option<u32>,
    pub number: u32,
}

/// Why `apply` has no result.
#[derive(Clone, Copy)]
pub enum ApplyFault {
    /// The step of that number is refused.
    Step { number: u32, fault: StepFault },
    /// Memory was refused.
    NoMemory,
}

/// Why a derivation isn't accepted.
#[derive(Clone, Copy)]
pub enum CheckFault {
    /// A step is refused.
    Step { place: StepPlace, fault: StepFault },
    /// The steps of the lemma of that number don't end at its definition, or it has none; the number of lemmas stands for main.
    EndDiffers(u32),
    /// A term of the formula has an intervention.
    DoLeft,
    /// Memory was refused.
    NoMemory,
}

/// Why a move has no result.
#[derive(Clone, Copy)]
pub(crate) enum Refusal {
    Fault(StepFault),
    NoMemory,
}
