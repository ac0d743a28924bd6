//! In which form an answer is told.

ghost use Rattle.std.specs.Prelude.{◌≡◌};

use answer_text::Notation;
use replies::Format;

/// How an answer is written, of the commands that know more than one way.
#[derive(Clone, Copy, Debug, PartialEq, Eq)]
pub enum Writing {
    /// As plain text.
    Plain,
    /// With its formulas as LaTeX.
    Latex,
    /// As a certificate, which `check` reads.
    Certificate,
}

/// The format of an answer, and how it is written.
#[derive(Clone, Copy, Debug, PartialEq, Eq)]
pub struct Form {
    pub format: Format,
    pub writing: Writing,
}

impl Writing {
    ghost use Rattle.told.specs.Forms.{notation_of, is_certified};

    /// The notation of formulas.
    pub fn notation(self) -> Notation
        ensures { result ≡ notation_of self }
    {
        match self {
            Writing::Plain | Writing::Certificate => Notation::Plain,
            Writing::Latex => Notation::Latex,
        }
    }

    /// Whether the certificate is asked for.
    pub fn is_certified(self) -> bool
        ensures { result ≡ is_certified self }
    {
        match self {
            Writing::Plain | Writing::Latex => false,
            Writing::Certificate => true,
        }
    }
}

impl Form {
    ghost use Rattle.told.specs.Forms.{form_for, plain_form};

    /// The form by the flags for LaTeX and for JSON; none where both stand.
    pub fn read(latex: bool, json: bool) -> Option<Self>
        ensures { result ≡ form_for latex json }
    {
        match (latex, json) {
            (false, _) => Some(Form::plain(Format::of(json))),
            (true, false) => Some(Form {
                format: Format::of(json),
                writing: Writing::Latex,
            }),
            (true, true) => None,
        }
    }

    /// The form of an answer that is written in one way alone.
    pub fn plain(format: Format) -> Self
        ensures { result ≡ plain_form format }
    {
        Form {
            format,
            writing: Writing::Plain,
        }
    }
}
