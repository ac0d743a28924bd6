//! The faults of listed names.

ghost use Rattle.std.specs.Prelude.{◌≡◌, IfOk, OnOk};
ghost use Rattle.std.specs.Str.{IsUtf8};
ghost use Rattle.answer_json.specs.Vocabulary.{json_line};
ghost use Rattle.fault_json.specs.TargetFaults.{target_message, target_fault_json};

use answer_json::{bare_fault, pair_fault, text_fault};
use std::alloc::{AllocError, Global};
use targets::TargetFault;

/// A fault of listed names in words; want of memory has none.
#[tactic(auto, unfolding(crate::specs::TargetFaults::target_message))]
fn target_message(fault: &TargetFault) -> &'static str
    ensures { result.now ≡ target_message fault.now }
{
    match fault {
        TargetFault::Unknown(_) => "the name is not in the graph",
        TargetFault::Latent(_) => "the name is that of a latent vertex",
        TargetFault::Twice(_) => "the name stands twice in the lists",
        TargetFault::EmptyY => "y is empty",
        TargetFault::EmptyX => "x is empty, or z of a rule",
        TargetFault::NotOneX => "the back-door criterion is for one exposure",
        TargetFault::Bidirected(_, _) => {
            "the diagram has a bidirected edge between observed vertices"
        }
        TargetFault::OtherNames(_) => "the name is observed in one diagram alone",
        TargetFault::NoMemory => "",
    }
}

/// The line of a fault of listed names; want of memory has none.
pub fn target_fault(alloc: Global, stage: &str, fault: &TargetFault) -> Result<Vec<u8>, AllocError>
    ensures text { IfOk result (λ v. v.items ≡ json_line (target_fault_json stage.now fault.now)) }
    ensures utf8 { IfOk result (λ v. IsUtf8 v.items) }
    ensures memory { OnOk result (fault.now ≡ TargetFault.NoMemory → ⊥) }
{
    let text = target_message(fault);
    match fault {
        TargetFault::Unknown(name) => text_fault(alloc, stage, 1, text, "name", name.bytes()),
        TargetFault::Latent(name) => text_fault(alloc, stage, 2, text, "name", name.bytes()),
        TargetFault::Twice(name) => text_fault(alloc, stage, 3, text, "name", name.bytes()),
        TargetFault::EmptyY => bare_fault(alloc, stage, 4, text),
        TargetFault::EmptyX => bare_fault(alloc, stage, 5, text),
        TargetFault::NotOneX => bare_fault(alloc, stage, 6, text),
        TargetFault::Bidirected(a, b) => pair_fault(alloc, stage, 7, text, a.bytes(), b.bytes()),
        TargetFault::OtherNames(name) => text_fault(alloc, stage, 8, text, "name", name.bytes()),
        TargetFault::NoMemory => Err(AllocError),
    }
}
