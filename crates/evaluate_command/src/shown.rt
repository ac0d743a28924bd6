//! Quantities as members of an object.

ghost use Rattle.std.specs.Prelude.{◌≡◌, Bool, true, false, IfOk, OnOk, string_bytes};
ghost use Rattle.json.specs.Json.{string};
ghost use Rattle.quantity.specs.Vocabulary.{units_text};
ghost use Rattle.answer_json.specs.Vocabulary.{with_member, with_members};
ghost use Rattle.evaluate_command.specs.Objects.{quantity_members};

use answer_json::Object;
use quantity::{Bounds, Exact, Quantity};
use std::alloc::{AllocError, Global};

/// A kind of quantity that an answer shows.
pub trait Shown: Quantity {
    ghost IS_EXACT: { Bool };

    /// Whether its quantities are exact fractions.
    const IS_EXACT: bool;

    /// The members of a quantity: its value, or else its two bounds.
    fn push_members(&self, object: &mut Object) -> Result<(), AllocError>
        ensures { OnOk result (object.new ≡ with_members (quantity_members IS_EXACT (Self.numbers self.now)) object.old) };
}

impl Shown for Exact {
    ghost IS_EXACT = { true };

    const IS_EXACT: bool = true;

    fn push_members(&self, object: &mut Object) -> Result<(), AllocError> {
        let text = format!(in object.alloc(); "{}/{}", self.p, self.q)?;
        object.word_at("value", text.as_str())
    }
}

impl Shown for Bounds {
    ghost IS_EXACT = { false };

    const IS_EXACT: bool = false;

    fn push_members(&self, object: &mut Object) -> Result<(), AllocError> {
        push_units(object, "from", self.lo)?;
        push_units(object, "to", self.hi)?;
        Ok(())
    }
}

/// How many units are 1.
const UNIT: u128 = 1_000_000_000_000_000_000;

/// The member of n units of 10^-18.
fn push_units(object: &mut Object, name: &str, n: u128) -> Result<(), AllocError>
    ensures { OnOk result (object.new ≡ with_member name.now (string (units_text n)) object.old) }
{
    let text = units(object.alloc(), n)?;
    object.word_at(name, text.as_str())
}

/// The text of n units: the whole part, a point and 18 digits.
fn units(alloc: Global, n: u128) -> Result<String, AllocError>
    ensures { IfOk result (λ text. string_bytes text ≡ units_text n) }
{
    format!(in alloc; "{}.{:018}", n / UNIT, n % UNIT)
}
