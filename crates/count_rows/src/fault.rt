//! Why a text gives no counts.

ghost use Rattle.std.specs.Prelude.{◌≡◌, IfOk, OnOk};
ghost use Rattle.answer_text.specs.Vocabulary.{line_of};
ghost use Rattle.count_rows.specs.FaultTexts.{count_fault_text, count_size_text};

use answer_text::names::{refusal_line, with_name, with_number};
use mixed_graph::Text;
use std::alloc::{AllocError, Global};

/// Why a text gives no counts.
#[derive(Drop)]
pub enum CountFault {
    /// The data row with this number, from 1, has another number of fields than the header.
    NotCsv(usize),
    /// The name of a used vertex, or of the column of counts, isn't in the header.
    NoColumn(Text),
    /// Such a name is in the header more than once.
    TwoColumns(Text),
    /// The count of the data row with this number, from 1, isn't one or more decimal digits with a value up to 10^15.
    Count(usize),
    /// The product of the numbers of levels passes 2^20.
    TooLarge,
    /// The sum of the counts passes 10^15.
    SumTooLarge,
    /// The sum of the counts is 0.
    NoRows,
    /// Memory was refused.
    NoMemory,
}

impl CountFault {
    /// The line that says what is wrong, as `causal: counts fault 2: X` with a line feed. The error is want of memory, which has no line.
    pub fn line(&self, alloc: Global) -> Result<Vec<u8>, AllocError>
        ensures line { IfOk result (λ v. v.items ≡ line_of (count_fault_text self.now)) }
        ensures memory { OnOk result (self.now ≡ CountFault.NoMemory → ⊥) }
    {
        refusal_line(alloc, &self.text(alloc)?)
    }

    /// The line of more than 67,108,864 bytes of counts.
    pub fn size_line(alloc: Global) -> Result<Vec<u8>, AllocError>
        ensures { IfOk result (λ v. v.items ≡ line_of count_size_text) }
    {
        refusal_line(alloc, b"counts fault 8: over 67108864 bytes")
    }

    /// What is wrong.
    fn text(&self, alloc: Global) -> Result<Vec<u8>, AllocError>
        ensures text { IfOk result (λ v. v.items ≡ count_fault_text self.now) }
        ensures memory { OnOk result (self.now ≡ CountFault.NoMemory → ⊥) }
    {
        match self {
            CountFault::NotCsv(row) => with_number(alloc, "counts fault 1: row ", *row as u64),
            CountFault::NoColumn(name) => with_name(alloc, "counts fault 2: ", name.bytes()),
            CountFault::TwoColumns(name) => with_name(alloc, "counts fault 3: ", name.bytes()),
            CountFault::Count(row) => with_number(alloc, "counts fault 4: row ", *row as u64),
            CountFault::TooLarge => Vec::from_slice(alloc, b"counts fault 5"),
            CountFault::SumTooLarge => Vec::from_slice(alloc, b"counts fault 6"),
            CountFault::NoRows => Vec::from_slice(alloc, b"counts fault 7"),
            CountFault::NoMemory => Err(AllocError),
        }
    }
}
