//! How many members an object has.

ghost use Rattle.std.specs.Prelude.{◌≡◌};
ghost use Rattle.serde_json.specs.View.{view as data_view, items_view};
ghost use Rattle.serde_json.specs.Find.{as_object};
ghost use Rattle.step_json.specs.Vocabulary.{is_end};
ghost use Rattle.certificate.specs.Reading.{member_count};

use serde_json::Value;

/// No item more.
#[tactic(auto, using(crate::proofs::Texts::end_is))]
pub fn is_end(ds: &[Value]) -> bool
    ensures { result ≡ is_end (items_view ds.now) }
{
    ds.len() == 0
}

/// The number of members of an object.
#[tactic(auto, using(crate::proofs::Texts::count_is))]
pub fn member_count(d: &Value) -> usize
    ensures { result ≡ member_count (as_object (data_view d.now)) }
{
    match d.as_object() {
        Some(members) => members.len(),
        None => 0,
    }
}
