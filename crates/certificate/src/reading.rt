//! A whole certificate.

ghost use Rattle.std.specs.Prelude.{◌≡◌};
ghost use Rattle.serde_json.specs.View.{view};
ghost use Rattle.certificate.specs.Faults.{Gives, or_fault};
ghost use Rattle.certificate.specs.Plain.{certificate_view};
ghost use Rattle.certificate.specs.declared.fault.CertFault.TheVariants.{NotJson};
ghost use Rattle.certificate.specs.Reading.{formula_certificate_in, hedge_certificate_in, key_count, answer_in, value_certificate, json_of, certificate_in};

use crate::fault::{CertFault, Key};
use crate::keys::{derivation_in, formula_in, hedge_in, is_answer, target_in, version_in};
use crate::sizes::member_count;
use crate::values::Certificate;
use mixed_graph::Names;
use serde_json::Value;
use std::alloc::Global;

/// The value of a text.
#[tactic(auto, using(crate::proofs::Texts::some_text, crate::proofs::Texts::no_text))]
pub(crate) fn json_of(alloc: Global, text: &[u8]) -> Result<Value, CertFault>
    ensures { Gives (λ d. view d) result (or_fault NotJson (json_of text.now)) }
{
    match Value::from_slice(alloc, text) {
        Ok(value) => Ok(value),
        Err(e) => {
            if e.is_memory() {
                return Err(CertFault::NoMemory);
            }
            Err(CertFault::NotJson)
        }
    }
}

// How many keys the certificate of a formula has.
fn key_count(version: u64) -> usize
    ensures { result ≡ key_count version }
{
    if version == 2 { 9 } else { 8 }
}

// The certificate of a formula: its keys, and no further one.
#[tactic(auto, unfolding(crate::specs::Reading::formula_certificate_in))]
fn formula_certificate_in(
    alloc: Global,
    names: &Names,
    version: u64,
    d: &Value,
) -> Result<Certificate, CertFault>
    ensures { Gives (λ c. certificate_view c) result (formula_certificate_in names.now version (view d.now)) }
{
    let target = target_in(alloc, names, version, d)?;
    let formula = formula_in(alloc, names, d)?;
    let derivation = derivation_in(alloc, names, d)?;
    if member_count(d) != key_count(version) {
        return Err(CertFault::Member(Key::Extra));
    }
    Ok(Certificate::Formula(target, formula, derivation))
}

// The certificate of a hedge, which is of version 1: its nine keys, and no further one.
#[tactic(auto, unfolding(crate::specs::Reading::hedge_certificate_in))]
fn hedge_certificate_in(alloc: Global, names: &Names, d: &Value) -> Result<Certificate, CertFault>
    ensures { Gives (λ c. certificate_view c) result (hedge_certificate_in names.now (view d.now)) }
{
    let target = target_in(alloc, names, 1, d)?;
    let hedge = hedge_in(alloc, names, d)?;
    if member_count(d) != 9 {
        return Err(CertFault::Member(Key::Extra));
    }
    Ok(Certificate::Hedge(target, hedge))
}

// The certificate of an answer; that of a hedge is of version 1.
fn answer_in(
    alloc: Global,
    names: &Names,
    version: u64,
    d: &Value,
) -> Result<Certificate, CertFault>
    ensures { Gives (λ c. certificate_view c) result (answer_in names.now version (view d.now)) }
{
    if is_answer(d, b"formula") {
        return formula_certificate_in(alloc, names, version, d);
    }
    if version == 1 && is_answer(d, b"hedge") {
        return hedge_certificate_in(alloc, names, d);
    }
    Err(CertFault::Member(Key::Answer))
}

#[tactic(auto, unfolding(crate::specs::Reading::value_certificate))]
fn value_certificate(alloc: Global, names: &Names, d: &Value) -> Result<Certificate, CertFault>
    ensures { Gives (λ c. certificate_view c) result (value_certificate names.now (view d.now)) }
{
    let version = version_in(d)?;
    if version != 1 && version != 2 {
        return Err(CertFault::Version(version));
    }
    answer_in(alloc, names, version, d)
}

/// The certificate that a text is.
///
/// `NotJson` where the text is no JSON; then `Member(Version)` where the value has no whole number as its version, `Version` where
/// that is neither 1 nor 2. Then the keys are tried in the order answer, x, y, then given in version 2, and then formula, defs, lemmas, main
/// for a formula or big, small, roots, choice, links for a hedge: `Member` of the first that is missing or hasn't its form, `Name` where a text stands in place of a name and
/// isn't one, `TooDeep` where a 61st step nests, whatever comes first in its text. `Member(Extra)` where there is a further key.
#[tactic(auto, unfolding(crate::specs::Reading::certificate_in))]
pub fn read_answer(alloc: Global, text: &[u8], names: &Names) -> Result<Certificate, CertFault>
    ensures { Gives (λ c. certificate_view c) result (certificate_in names.now text.now) }
{
    let value = json_of(alloc, text)?;
    value_certificate(alloc, names, &value)
}
