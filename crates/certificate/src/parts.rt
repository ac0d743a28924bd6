//! A whole certificate in parts.

ghost use Rattle.std.specs.Prelude.{◌≡◌, [], codes};
ghost use Rattle.serde_json.specs.View.{view as data_view, items_view};
ghost use Rattle.mixed_graph.specs.Vocabulary.{union};
ghost use Rattle.prob_expr.specs.Vocabulary.{target_view};
ghost use Rattle.step_json.specs.Vocabulary.{set_in, filled_set_in};
ghost use Rattle.derived_parts.specs.Vocabulary.{derived_view, derived_views};
ghost use Rattle.certificate.specs.Faults.{Gives};
ghost use Rattle.certificate.specs.Plain.{part_certificate_view};
ghost use Rattle.certificate.specs.Reading.{member_by};
ghost use Rattle.certificate.specs.declared.fault.Key.TheVariants as keys;
ghost use Rattle.certificate.specs.PartReading.{part_in, more_parts, part_list_in, parts_in, part_target_in, treated_certificate_in, natural_certificate_in, part_answer_in, part_value_certificate, part_certificate_in};

use crate::fault::{CertFault, Key};
use crate::keys::{at_key, derivation_in, formula_in, is_answer, version_in, y_in};
use crate::reading::json_of;
use crate::sizes::member_count;
use crate::values::PartCertificate;
use derived_parts::DerivedPart;
use mixed_graph::{Names, VSet};
use prob_expr::Target;
use serde_json::Value;
use std::alloc::Global;
use step_json::{read_filled_set, read_set};

fn district_in(alloc: Global, names: &Names, d: &Value) -> Result<VSet, CertFault>
    ensures { Gives (λ s. s.bits) result (member_by keys.District (codes "district") (filled_set_in names.now 0) (data_view d.now)) }
{
    match d.get("district") {
        Some(value) => at_key(
            Key::District,
            read_filled_set(alloc, names, VSet::EMPTY, value),
        ),
        None => Err(CertFault::Member(Key::District)),
    }
}

// A part: its five keys, and no further one.
#[tactic(auto, unfolding(crate::specs::PartReading::part_in))]
fn part_in(alloc: Global, names: &Names, d: &Value) -> Result<DerivedPart, CertFault>
    ensures { Gives (λ p. derived_view p) result (part_in names.now (data_view d.now)) }
{
    let district = district_in(alloc, names, d)?;
    let formula = formula_in(alloc, names, d)?;
    let derivation = derivation_in(alloc, names, d)?;
    if member_count(d) != 5 {
        return Err(CertFault::Member(Key::Extra));
    }
    Ok(DerivedPart {
        district,
        formula,
        derivation,
    })
}

fn more_parts(alloc: Global, names: &Names, ds: &[Value]) -> Result<Vec<DerivedPart>, CertFault>
    ensures { Gives (λ v. derived_views v.items) result (more_parts names.now [] (items_view ds.now)) }
{
    let mut all = Vec::new(alloc);
    for d in ds {
        let part = part_in(alloc, names, d)?;
        match all.push(part) {
            Ok(()) => {}
            Err(_) => return Err(CertFault::NoMemory),
        }
    }
    Ok(all)
}

fn part_list_in(alloc: Global, names: &Names, d: &Value) -> Result<Vec<DerivedPart>, CertFault>
    ensures { Gives (λ v. derived_views v.items) result (part_list_in names.now (data_view d.now)) }
{
    match d.as_array() {
        Some(ds) => more_parts(alloc, names, ds.as_slice()),
        None => Err(CertFault::Member(Key::Parts)),
    }
}

fn parts_in(alloc: Global, names: &Names, d: &Value) -> Result<Vec<DerivedPart>, CertFault>
    ensures { Gives (λ v. derived_views v.items) result (parts_in names.now (data_view d.now)) }
{
    match d.get("parts") {
        Some(value) => part_list_in(alloc, names, value),
        None => Err(CertFault::Member(Key::Parts)),
    }
}

fn filled_x_in(alloc: Global, names: &Names, d: &Value) -> Result<VSet, CertFault>
    ensures { Gives (λ s. s.bits) result (member_by keys.X (codes "x") (filled_set_in names.now 0) (data_view d.now)) }
{
    match d.get("x") {
        Some(value) => at_key(Key::X, read_filled_set(alloc, names, VSet::EMPTY, value)),
        None => Err(CertFault::Member(Key::X)),
    }
}

fn any_given_in(alloc: Global, names: &Names, barred: VSet, d: &Value) -> Result<VSet, CertFault>
    ensures { Gives (λ s. s.bits) result (member_by keys.Given (codes "given") (set_in names.now barred.bits) (data_view d.now)) }
{
    match d.get("given") {
        Some(value) => at_key(Key::Given, read_set(alloc, names, barred, value)),
        None => Err(CertFault::Member(Key::Given)),
    }
}

fn through_in(alloc: Global, names: &Names, barred: VSet, d: &Value) -> Result<VSet, CertFault>
    ensures { Gives (λ s. s.bits) result (member_by keys.Through (codes "through") (filled_set_in names.now barred.bits) (data_view d.now)) }
{
    match d.get("through") {
        Some(value) => at_key(Key::Through, read_filled_set(alloc, names, barred, value)),
        None => Err(CertFault::Member(Key::Through)),
    }
}

// The sets of an effect, no two of which meet; x and y aren't empty.
#[tactic(auto, unfolding(crate::specs::PartReading::part_target_in))]
fn part_target_in(alloc: Global, names: &Names, d: &Value) -> Result<Target, CertFault>
    ensures { Gives (λ t. target_view t) result (part_target_in names.now (data_view d.now)) }
{
    let x = filled_x_in(alloc, names, d)?;
    let y = y_in(alloc, names, x, d)?;
    let given = any_given_in(alloc, names, x.union(y), d)?;
    Ok(Target { x, y, given })
}

// The certificate of an effect among the treated: its six keys, and no further one.
#[tactic(auto, unfolding(crate::specs::PartReading::treated_certificate_in))]
fn treated_certificate_in(
    alloc: Global,
    names: &Names,
    d: &Value,
) -> Result<PartCertificate, CertFault>
    ensures { Gives (λ c. part_certificate_view c) result (treated_certificate_in names.now (data_view d.now)) }
{
    let target = part_target_in(alloc, names, d)?;
    let parts = parts_in(alloc, names, d)?;
    if member_count(d) != 6 {
        return Err(CertFault::Member(Key::Extra));
    }
    Ok(PartCertificate::Treated(target, parts))
}

// The certificate of a nested effect: its seven keys, and no further one.
#[tactic(auto, unfolding(crate::specs::PartReading::natural_certificate_in))]
fn natural_certificate_in(
    alloc: Global,
    names: &Names,
    d: &Value,
) -> Result<PartCertificate, CertFault>
    ensures { Gives (λ c. part_certificate_view c) result (natural_certificate_in names.now (data_view d.now)) }
{
    let target = part_target_in(alloc, names, d)?;
    let barred = target.x.union(target.y).union(target.given);
    let through = through_in(alloc, names, barred, d)?;
    let parts = parts_in(alloc, names, d)?;
    if member_count(d) != 7 {
        return Err(CertFault::Member(Key::Extra));
    }
    Ok(PartCertificate::Natural(target, through, parts))
}

// The certificate of an answer in parts.
fn part_answer_in(alloc: Global, names: &Names, d: &Value) -> Result<PartCertificate, CertFault>
    ensures { Gives (λ c. part_certificate_view c) result (part_answer_in names.now (data_view d.now)) }
{
    if is_answer(d, b"treated") {
        return treated_certificate_in(alloc, names, d);
    }
    if is_answer(d, b"natural") {
        return natural_certificate_in(alloc, names, d);
    }
    Err(CertFault::Member(Key::Answer))
}

#[tactic(auto, unfolding(crate::specs::PartReading::part_value_certificate))]
fn part_value_certificate(
    alloc: Global,
    names: &Names,
    d: &Value,
) -> Result<PartCertificate, CertFault>
    ensures { Gives (λ c. part_certificate_view c) result (part_value_certificate names.now (data_view d.now)) }
{
    let version = version_in(d)?;
    if version != 3 {
        return Err(CertFault::Version(version));
    }
    part_answer_in(alloc, names, d)
}

/// The certificate in parts that a text is.
///
/// `NotJson` where the text is no JSON; then `Member(Version)` where the value has no whole number as its version, `Version` where
/// that isn't 3. Then the keys are tried in the order answer, x, y, given, through for a nested effect, and parts; of each part district, formula, defs,
/// lemmas, main: `Member` of the first that is missing or hasn't its form, `Name` where a text stands in place of a name and isn't one, `TooDeep`
/// where a 61st step nests. `Member(Extra)` where there is a further key.
#[tactic(auto, unfolding(crate::specs::PartReading::part_certificate_in))]
pub fn read_part_answer(
    alloc: Global,
    text: &[u8],
    names: &Names,
) -> Result<PartCertificate, CertFault>
    ensures { Gives (λ c. part_certificate_view c) result (part_certificate_in names.now text.now) }
{
    let value = json_of(alloc, text)?;
    part_value_certificate(alloc, names, &value)
}
