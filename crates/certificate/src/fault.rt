//! Why a text isn't read as a certificate.

ghost use Rattle.std.specs.Prelude.{◌≡◌, ◌++◌, codes, IfOk, OnOk};
ghost use Rattle.answer_text.specs.Vocabulary.{line_of};
ghost use Rattle.certificate.specs.Faults.{fault_at};
ghost use Rattle.certificate.specs.FaultTexts.{key_text, cert_fault_text, cert_size_text};

use answer_text::names::{refusal_line, with_name, with_number};
use mixed_graph::Text;
use std::alloc::{AllocError, Global};
use step_json::ValueFault;

/// The keys of certificates, and `Extra` for any other key.
#[derive(Clone, Copy, Debug, PartialEq, Eq)]
pub enum Key {
    Answer,
    Version,
    X,
    Y,
    Given,
    Formula,
    Defs,
    Lemmas,
    Main,
    Big,
    Small,
    Roots,
    Choice,
    Links,
    Extra,
    Parts,
    Through,
    District,
}

impl Key {
    /// The text of a key.
    fn text(self) -> &'static str
        ensures { result.now ≡ key_text self }
    {
        match self {
            Key::Answer => "answer",
            Key::Version => "version",
            Key::X => "x",
            Key::Y => "y",
            Key::Given => "given",
            Key::Formula => "formula",
            Key::Defs => "defs",
            Key::Lemmas => "lemmas",
            Key::Main => "main",
            Key::Big => "big",
            Key::Small => "small",
            Key::Roots => "roots",
            Key::Choice => "choice",
            Key::Links => "links",
            Key::Extra => "extra",
            Key::Parts => "parts",
            Key::Through => "through",
            Key::District => "district",
        }
    }
}

/// Why a text isn't read as a certificate.
#[derive(Drop)]
pub enum CertFault {
    /// The text is no JSON.
    NotJson,
    /// The member of that key is missing or hasn't its form, or there is a further key.
    Member(Key),
    /// The version is neither 1 nor 2.
    Version(u64),
    /// Steps nest more than 60 deep.
    TooDeep,
    /// A text stands in place of a name, and isn't one.
    Name(Text),
    /// Memory was refused.
    NoMemory,
}

impl CertFault {
    /// The line that says what is wrong, as `causal: certificate fault 2: main` with a line feed. The error is want of memory, which has no line.
    pub fn line(&self, alloc: Global) -> Result<Vec<u8>, AllocError>
        ensures line { IfOk result (λ v. v.items ≡ line_of (cert_fault_text self.now)) }
        ensures memory { OnOk result (self.now ≡ CertFault.NoMemory → ⊥) }
    {
        refusal_line(alloc, &self.text(alloc)?)
    }

    /// The line of a certificate of more than 67,108,864 bytes.
    pub fn size_line(alloc: Global) -> Result<Vec<u8>, AllocError>
        ensures { IfOk result (λ v. v.items ≡ line_of cert_size_text) }
    {
        refusal_line(alloc, b"certificate fault 6: over 67108864 bytes")
    }

    /// What is wrong.
    fn text(&self, alloc: Global) -> Result<Vec<u8>, AllocError>
        ensures text { IfOk result (λ v. v.items ≡ cert_fault_text self.now) }
        ensures memory { OnOk result (self.now ≡ CertFault.NoMemory → ⊥) }
    {
        match self {
            CertFault::NotJson => Vec::from_slice(alloc, b"certificate fault 1"),
            CertFault::Member(key) => key_fault(alloc, *key),
            CertFault::Version(number) => with_number(alloc, "certificate fault 3: ", *number),
            CertFault::TooDeep => Vec::from_slice(alloc, b"certificate fault 4"),
            CertFault::Name(name) => with_name(alloc, "certificate fault 5: ", name.bytes()),
            CertFault::NoMemory => Err(AllocError),
        }
    }
}

/// The text of the fault of a key.
fn key_fault(alloc: Global, key: Key) -> Result<Vec<u8>, AllocError>
    ensures { IfOk result (λ v. v.items ≡ codes "certificate fault 2: " ++ key_text key) }
{
    let mut text = Vec::from_slice(alloc, b"certificate fault 2: ")?;
    text.extend_from_slice(key.text().as_bytes())?;
    Ok(text)
}

/// The fault of a certificate whose member of that key isn't read.
pub fn fault_at(key: Key, fault: ValueFault) -> CertFault
    ensures { result ≡ fault_at key fault }
{
    match fault {
        ValueFault::Form => CertFault::Member(key),
        ValueFault::TooDeep => CertFault::TooDeep,
        ValueFault::Name(text) => CertFault::Name(text),
        ValueFault::NoMemory => CertFault::NoMemory,
    }
}
