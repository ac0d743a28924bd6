//! The form that is asked for.

ghost use Rattle.std.specs.Prelude.{◌≡◌};

use replies::Format;
use told::{Form as ToldForm, Writing as ToldWriting};

/// How an answer is written.
#[derive(Clone, Copy, Debug, PartialEq, Eq)]
pub enum Writing {
    /// The formula, or the district that stops with the sets of its hedge.
    Plain,
    /// The same, but of a stop the common hedge with its two models, where there is one.
    Models,
    /// The certificate of the formula, or of the common hedge, where there is one.
    Certificate,
}

/// The form of an answer.
#[derive(Clone, Copy, Debug, PartialEq, Eq)]
pub struct Form {
    pub writing: Writing,
    /// The format. An object of JSON has the formula, or the hedge; and the certificate, where that is asked for.
    pub format: Format,
}

impl Form {
    ghost use Rattle.surrogate_command.specs.Forms.{form_for, wants_common, told_form};

    /// The form by the flags, where at most one way to write an answer is asked for.
    pub fn read(models: bool, certificate: bool, json: bool) -> Option<Self>
        ensures { result ≡ form_for models certificate json }
    {
        let format = Format::of(json);
        match (models, certificate) {
            (false, false) => Some(Form {
                writing: Writing::Plain,
                format,
            }),
            (true, false) => Some(Form {
                writing: Writing::Models,
                format,
            }),
            (false, true) => Some(Form {
                writing: Writing::Certificate,
                format,
            }),
            (true, true) => None,
        }
    }

    /// Whether the common hedge is asked for.
    pub fn wants_common(self) -> bool
        ensures { result ≡ wants_common self.writing }
    {
        match self.writing {
            Writing::Plain => false,
            Writing::Models | Writing::Certificate => true,
        }
    }

    /// The form in which the answer is told.
    pub fn told(self) -> ToldForm
        ensures { result ≡ told_form self }
    {
        match self.writing {
            Writing::Plain | Writing::Models => ToldForm {
                format: self.format,
                writing: ToldWriting::Plain,
            },
            Writing::Certificate => ToldForm {
                format: self.format,
                writing: ToldWriting::Certificate,
            },
        }
    }
}
