//! The line of an effect that no formula over the experiments equals.

ghost use Rattle.std.specs.Prelude.{◌≡◌, IfOk};
ghost use Rattle.experiment_lists.specs.Lines.{unidentifiable_with_line};

use identify_text::effect_text;
use mixed_graph::{Names, VSet};
use std::alloc::{AllocError, Global};

/// The line that no formula over the experiments equals the effect.
pub fn unidentifiable_text(
    alloc: Global,
    names: &Names,
    x: VSet,
    y: VSet,
) -> Result<Vec<u8>, AllocError>
    ensures { IfOk result (λ v. v.items ≡ unidentifiable_with_line names.now x.bits y.bits) }
{
    let mut text = effect_text(alloc, x, y, names)?;
    text.extend_from_slice(b" is not identifiable from these experiments\n")?;
    Ok(text)
}
