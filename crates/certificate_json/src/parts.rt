//! Certificates in parts.

ghost use Rattle.std.specs.Prelude.{◌≡◌, Ok, true, codes, length, map, IfOk, OnOk};
ghost use Rattle.prob_expr.specs.Vocabulary.{target_view};
ghost use Rattle.derived_parts.specs.Vocabulary.{derived_view, derived_views};
ghost use Rattle.certificate.specs.Vocabulary.{part_certificate_in, part_certificate_view};
ghost use Rattle.answer_json.specs.Vocabulary.{with_value, with_values, with_member, with_members, array_of};
ghost use Rattle.certificate_json.specs.PartCertificates.{ArePartsShallow, IsPartWritable, are_parts_short, is_part_short, part_certificate_line, part_certificate_members, part_certificate_text, part_json, part_members, part_target_members, parts_of};

use crate::certificates::known;
use crate::formulas::{push_derivation, push_expr, push_exprs_at};
use answer_json::Object;
use certificate::PartCertificate;
use derived_parts::DerivedPart;
use mixed_graph::Names;
use prob_expr::Target;
use std::alloc::{AllocError, Global};

/// The members of a part.
fn push_part_members(
    object: &mut Object,
    names: &Names,
    part: &DerivedPart,
) -> Result<(), AllocError>
    ensures written { OnOk result (object.new ≡ with_members (part_members names.now (derived_view part.now)) object.old) }
    ensures short { OnOk result (is_part_short (derived_view part.now) ≡ true) }
{
    push_exprs_at(object, names, "defs", &part.formula.defs)?;
    object.set_at("district", names, part.district)?;
    object.key("formula")?;
    push_expr(object, names, &part.formula.main)?;
    push_derivation(object, names, &part.derivation)?;
    Ok(())
}

/// A part.
#[tactic(auto, using(crate::proofs::Members::object_written))]
fn push_part(object: &mut Object, names: &Names, part: &DerivedPart) -> Result<(), AllocError>
    ensures written { OnOk result (object.new ≡ with_value (part_json names.now (derived_view part.now)) object.old) }
    ensures short { OnOk result (is_part_short (derived_view part.now) ≡ true) }
{
    object.begin_object()?;
    push_part_members(object, names, part)?;
    object.end_object()?;
    Ok(())
}

/// Parts one after another.
fn push_each(object: &mut Object, names: &Names, list: &Vec<DerivedPart>) -> Result<(), AllocError>
    ensures written { OnOk result (object.new ≡ with_values (map (part_json names.now) (derived_views list.now.items)) object.old) }
    ensures short { OnOk result (are_parts_short (derived_views list.now.items) ≡ true) }
{
    for part in list {
        push_part(object, names, part)?;
    }
    Ok(())
}

/// The member of the parts.
#[tactic(auto, using(answer_json::proofs::Arrays::array_written))]
fn push_parts_at(
    object: &mut Object,
    names: &Names,
    list: &Vec<DerivedPart>,
) -> Result<(), AllocError>
    ensures written { OnOk result (object.new ≡ with_member (codes "parts") (array_of (map (part_json names.now) (derived_views list.now.items))) object.old) }
    ensures short { OnOk result (are_parts_short (derived_views list.now.items) ≡ true) }
{
    object.key("parts")?;
    object.begin_array()?;
    push_each(object, names, list)?;
    object.end_array()?;
    Ok(())
}

/// The members from `version` on.
fn push_part_target(object: &mut Object, names: &Names, target: &Target) -> Result<(), AllocError>
    ensures { OnOk result (object.new ≡ with_members (part_target_members names.now (target_view target.now)) object.old) }
{
    object.number_at("version", 3)?;
    object.set_at("x", names, target.x)?;
    object.set_at("y", names, target.y)?;
    Ok(())
}

/// The members of a certificate in parts.
fn push_part_certificate_members(
    object: &mut Object,
    names: &Names,
    c: &PartCertificate,
) -> Result<(), AllocError>
    ensures written { OnOk result (object.new ≡ with_members (part_certificate_members names.now (part_certificate_view c.now)) object.old) }
    ensures short { OnOk result (are_parts_short (parts_of (part_certificate_view c.now)) ≡ true) }
{
    match c {
        PartCertificate::Treated(target, parts) => {
            object.word_at("answer", "treated")?;
            object.set_at("given", names, target.given)?;
            push_parts_at(object, names, parts)?;
            push_part_target(object, names, target)?;
            Ok(())
        }
        PartCertificate::Natural(target, through, parts) => {
            object.word_at("answer", "natural")?;
            object.set_at("given", names, target.given)?;
            push_parts_at(object, names, parts)?;
            object.set_at("through", names, *through)?;
            push_part_target(object, names, target)?;
            Ok(())
        }
    }
}

/// A certificate in parts as a line.
///
/// It is read again, unless steps, or parentheses and sums of an expression, nest more than 60 deep.
pub fn part_certificate_line(
    alloc: Global,
    names: &Names,
    c: &PartCertificate,
) -> Result<Vec<u8>, AllocError>
    ensures written { IfOk result (λ v. v.items ≡ part_certificate_line names.now (part_certificate_view c.now)) }
    ensures reads_back { let p = part_certificate_view c.now in IsPartWritable (length names.now) p → ArePartsShallow (parts_of p) → IfOk result (λ v. part_certificate_in names.now (part_certificate_text names.now p) ≡ Ok p) }
{
    known(names);
    let mut object = Object::new(alloc)?;
    push_part_certificate_members(&mut object, names, c)?;
    object.line()
}
