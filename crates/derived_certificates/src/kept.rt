//! What the types of parts keep, which is what reading back their certificate asks of them.

ghost use Rattle.std.specs.Prelude.{◌≡◌, true};
ghost use Rattle.derived_parts.specs.Vocabulary.{derived_view, derived_views};
ghost use Rattle.certificate_json.specs.PartCertificates.{are_parts_short, is_part_short};

use derived_parts::DerivedPart;
use effect_answers::has_short_steps;

fn has_short(part: &DerivedPart)
    ensures { is_part_short (derived_view part.now) ≡ true }
{
    has_short_steps(&part.derivation);
}

/// Brings into a proof what the types alone keep: the numbers of steps have 32 bits, and orders 64 vertices at most.
pub fn have_short_steps(parts: &Vec<DerivedPart>)
    ensures { are_parts_short (derived_views parts.now.items) ≡ true }
{
    for part in parts {
        has_short(part);
    }
}
