//! The text of a question of separation.

ghost use Rattle.std.specs.Prelude.{◌≡◌, ◌++◌, OnOk};
ghost use Rattle.replies.specs.Lines.{query_text};

use answer_text::push_set;
use mixed_graph::Names;
use std::alloc::AllocError;
use targets::Sets;

/// Appends `X from Y given W`.
pub fn push_query(out: &mut Vec<u8>, names: &Names, sets: Sets) -> Result<(), AllocError>
    ensures { OnOk result (out.new.items ≡ out.old.items ++ query_text names.now sets.x.bits sets.y.bits sets.given.bits) }
{
    push_set(out, names, sets.x)?;
    out.extend_from_slice(b" from ")?;
    push_set(out, names, sets.y)?;
    out.extend_from_slice(b" given ")?;
    push_set(out, names, sets.given)?;
    Ok(())
}
