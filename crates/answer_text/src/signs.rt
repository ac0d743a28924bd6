//! The two notations, and the signs that each writes in its own way.

ghost use Rattle.std.specs.Prelude.{◌≡◌, ◌++◌, OnOk};
ghost use Rattle.answer_text.specs.Notations.{by_notation, sign_text};

use std::alloc::AllocError;

/// How names, terms and formulas are written: as plain text, or as LaTeX.
#[derive(Clone, Copy)]
pub enum Notation {
    Plain,
    Latex,
}

/// A sign that each notation writes in its own way.
#[derive(Clone, Copy)]
pub enum Sign {
    /// What stands between two names.
    Comma,
    /// What stands before the conditions of a probability.
    Bar,
    /// What stands before the names that are set by an intervention; a closing bracket stands behind them.
    Do,
    /// What stands before the set of a sum.
    Sum,
    /// What stands between two factors.
    Times,
    /// What opens a pair of parentheses.
    Open,
    /// What closes a pair of parentheses.
    Close,
}

impl Notation {
    /// The first text in the plain notation, the second in LaTeX.
    fn choose(self, plain: &'static [u8], latex: &'static [u8]) -> &'static [u8]
        ensures { result.now ≡ by_notation self plain.now latex.now }
    {
        match self {
            Notation::Plain => plain,
            Notation::Latex => latex,
        }
    }

    /// How the notation writes a sign.
    pub fn sign(self, sign: Sign) -> &'static [u8]
        ensures { result.now ≡ sign_text self sign }
    {
        match sign {
            Sign::Comma => self.choose(b",", b", "),
            Sign::Bar => self.choose(b"|", b" \\mid "),
            Sign::Do => self.choose(b"do(", b"\\mathrm{do}("),
            Sign::Sum => self.choose(b"sum", b"\\sum_"),
            Sign::Times => self.choose(b" * ", b" "),
            Sign::Open => self.choose(b"(", b"\\left( "),
            Sign::Close => self.choose(b")", b" \\right)"),
        }
    }
}

/// Appends a sign. At an error what was appended is open.
pub fn push_sign(out: &mut Vec<u8>, notation: Notation, sign: Sign) -> Result<(), AllocError>
    ensures { OnOk result (out.new.items ≡ out.old.items ++ sign_text notation sign) }
{
    out.extend_from_slice(notation.sign(sign))?;
    Ok(())
}
