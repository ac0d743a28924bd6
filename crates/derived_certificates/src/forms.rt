//! The form of an answer that may be a certificate.

ghost use Rattle.std.specs.Prelude.{◌≡◌};
ghost use Rattle.derived_certificates.specs.Forms.{certified_form};

use replies::Format;
use told::{Form, Writing};

/// The form by the flags for a certificate, for LaTeX and for JSON; none where two of them stand.
pub fn certified_form(certificate: bool, latex: bool, json: bool) -> Option<Form>
    ensures { result ≡ certified_form certificate latex json }
{
    match (certificate, latex, json) {
        (false, _, _) => Form::read(latex, json),
        (true, false, false) => Some(Form {
            format: Format::Text,
            writing: Writing::Certificate,
        }),
        (true, true, _) | (true, false, true) => None,
    }
}
