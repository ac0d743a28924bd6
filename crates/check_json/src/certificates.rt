//! The faults of certificates.

ghost use Rattle.std.specs.Prelude.{◌≡◌, IfOk, OnOk, decimal};
ghost use Rattle.std.specs.Str.{IsUtf8};
ghost use Rattle.answer_json.specs.Vocabulary.{json_line, text_fault_json};
ghost use Rattle.certificate.specs.Vocabulary.{key_text};
ghost use Rattle.check_json.specs.CertificateFaults.{stage, key_message, certificate_fault_json, certificate_size_json};

use answer_json::{bare_fault, text_fault};
use certificate::{CertFault, Key};
use std::alloc::{AllocError, Global};

/// The text of a key.
fn key_text(key: Key) -> &'static str
    ensures { result.now ≡ key_text key }
{
    match key {
        Key::Answer => "answer",
        Key::Version => "version",
        Key::X => "x",
        Key::Y => "y",
        Key::Given => "given",
        Key::Formula => "formula",
        Key::Defs => "defs",
        Key::Lemmas => "lemmas",
        Key::Main => "main",
        Key::Big => "big",
        Key::Small => "small",
        Key::Roots => "roots",
        Key::Choice => "choice",
        Key::Links => "links",
        Key::Extra => "extra",
        Key::Parts => "parts",
        Key::Through => "through",
        Key::District => "district",
    }
}

/// What is wrong with a key, in words.
#[tactic(auto, unfolding(crate::specs::CertificateFaults::key_message))]
fn key_message(key: Key) -> &'static str
    ensures { result.now ≡ key_message key }
{
    match key {
        Key::Extra => "there is a further key",
        Key::Answer
        | Key::Version
        | Key::X
        | Key::Y
        | Key::Given
        | Key::Formula
        | Key::Defs
        | Key::Lemmas
        | Key::Main
        | Key::Big
        | Key::Small
        | Key::Roots
        | Key::Choice
        | Key::Links
        | Key::Parts
        | Key::Through
        | Key::District => "the value of this key is missing or has another form",
    }
}

/// The line of a version that isn't read.
fn version_fault(alloc: Global, n: u64) -> Result<Vec<u8>, AllocError>
    ensures text { IfOk result (λ v. v.items ≡ json_line (certificate_fault_json (CertFault.Version n))) }
    ensures utf8 { IfOk result (λ v. IsUtf8 v.items) }
{
    let digits = format!(in alloc; "{n}")?;
    text_fault(
        alloc,
        "certificate",
        3,
        "this version is not read",
        "version",
        digits.as_bytes(),
    )
}

/// The line of a fault of a certificate; want of memory has none.
pub fn certificate_fault(alloc: Global, fault: &CertFault) -> Result<Vec<u8>, AllocError>
    ensures text { IfOk result (λ v. v.items ≡ json_line (certificate_fault_json fault.now)) }
    ensures utf8 { IfOk result (λ v. IsUtf8 v.items) }
    ensures memory { OnOk result (fault.now ≡ CertFault.NoMemory → ⊥) }
{
    match fault {
        CertFault::NotJson => bare_fault(
            alloc,
            "certificate",
            1,
            "the text is no JSON, or it nests too deep",
        ),
        CertFault::Member(key) => text_fault(
            alloc,
            "certificate",
            2,
            key_message(*key),
            "key",
            key_text(*key).as_bytes(),
        ),
        CertFault::Version(n) => version_fault(alloc, *n),
        CertFault::TooDeep => bare_fault(alloc, "certificate", 4, "steps nest more than 60 deep"),
        CertFault::Name(name) => text_fault(
            alloc,
            "certificate",
            5,
            "the name is not that of an observed vertex",
            "name",
            name.bytes(),
        ),
        CertFault::NoMemory => Err(AllocError),
    }
}

/// The line of a certificate of more than 67,108,864 bytes.
pub fn certificate_size(alloc: Global) -> Result<Vec<u8>, AllocError>
    ensures text { IfOk result (λ v. v.items ≡ json_line certificate_size_json) }
    ensures utf8 { IfOk result (λ v. IsUtf8 v.items) }
{
    bare_fault(
        alloc,
        "certificate",
        6,
        "the text has more than 67108864 bytes",
    )
}
