//! The faults of counts.

ghost use Rattle.std.specs.Prelude.{◌≡◌, IfOk, OnOk};
ghost use Rattle.std.specs.Str.{IsUtf8};
ghost use Rattle.answer_json.specs.Vocabulary.{json_line};
ghost use Rattle.count_json.specs.CountFaults.{count_message, count_fault_json, count_size_json};

use answer_json::{bare_fault, number_fault, text_fault};
use count_rows::CountFault;
use std::alloc::{AllocError, Global};

/// A fault of counts in words; want of memory has none.
#[tactic(auto, unfolding(crate::specs::CountFaults::count_message))]
fn count_message(fault: &CountFault) -> &'static str
    ensures { result.now ≡ count_message fault.now }
{
    match fault {
        CountFault::NotCsv(_) => "this record has another number of fields than the header",
        CountFault::NoColumn(_) => "there is no column of this name",
        CountFault::TwoColumns(_) => "there are two columns of this name",
        CountFault::Count(_) => "the count of this record is no whole number up to 10^15",
        CountFault::TooLarge => "the levels make more than 2^20 cells",
        CountFault::SumTooLarge => "the counts sum to more than 10^15",
        CountFault::NoRows => "the counts sum to 0",
        CountFault::NoMemory => "",
    }
}

/// The line of a fault of counts; want of memory has none.
pub fn count_fault(alloc: Global, fault: &CountFault) -> Result<Vec<u8>, AllocError>
    ensures text { IfOk result (λ v. v.items ≡ json_line (count_fault_json fault.now)) }
    ensures utf8 { IfOk result (λ v. IsUtf8 v.items) }
    ensures memory { OnOk result (fault.now ≡ CountFault.NoMemory → ⊥) }
{
    let text = count_message(fault);
    match fault {
        CountFault::NotCsv(row) => number_fault(alloc, "counts", 1, text, "row", *row as u64),
        CountFault::NoColumn(name) => text_fault(alloc, "counts", 2, text, "name", name.bytes()),
        CountFault::TwoColumns(name) => text_fault(alloc, "counts", 3, text, "name", name.bytes()),
        CountFault::Count(row) => number_fault(alloc, "counts", 4, text, "row", *row as u64),
        CountFault::TooLarge => bare_fault(alloc, "counts", 5, text),
        CountFault::SumTooLarge => bare_fault(alloc, "counts", 6, text),
        CountFault::NoRows => bare_fault(alloc, "counts", 7, text),
        CountFault::NoMemory => Err(AllocError),
    }
}

/// The line of more than 67,108,864 bytes of counts.
pub fn count_size(alloc: Global) -> Result<Vec<u8>, AllocError>
    ensures text { IfOk result (λ v. v.items ≡ json_line count_size_json) }
    ensures utf8 { IfOk result (λ v. IsUtf8 v.items) }
{
    bare_fault(alloc, "counts", 8, "the text has more than 67108864 bytes")
}
