//! The form that is asked for.

ghost use Rattle.std.specs.Prelude.{◌≡◌};

use replies::Format;
use told::{Form as ToldForm, Writing};

/// The form of an answer.
#[derive(Clone, Copy, Debug, PartialEq, Eq)]
pub struct Form {
    pub writing: Writing,
    /// Whether a short formula is asked for.
    pub short: bool,
    /// The format. An object of JSON has the formula as text, as LaTeX and as trees, or the hedge with its two models;
    /// and the certificate, where that is asked for.
    pub format: Format,
}

impl Form {
    ghost use Rattle.identify_command.specs.Forms.{form_for, told_form};

    /// The form by the flags, where at most one way to write an answer is asked for, and LaTeX not as JSON.
    pub fn read(certificate: bool, latex: bool, short: bool, json: bool) -> Option<Self>
        ensures { result ≡ form_for certificate latex short json }
    {
        let format = Format::of(json);
        match (certificate, latex, json) {
            (false, false, _) => Some(Form {
                writing: Writing::Plain,
                short,
                format,
            }),
            (true, false, _) => Some(Form {
                writing: Writing::Certificate,
                short,
                format,
            }),
            (false, true, false) => Some(Form {
                writing: Writing::Latex,
                short,
                format,
            }),
            (false, true, true) | (true, true, _) => None,
        }
    }

    /// The form in which the answer is told.
    pub fn told(self) -> ToldForm
        ensures { result ≡ told_form self }
    {
        ToldForm {
            format: self.format,
            writing: self.writing,
        }
    }
}
