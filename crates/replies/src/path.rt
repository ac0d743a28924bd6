//! The line of an open path.

ghost use Rattle.std.specs.Prelude.{◌≡◌, ◌++◌, OnOk};
ghost use Rattle.replies.specs.Lines.{open_text};

use answer_text::push_path;
use m_separation::OpenPath;
use mixed_graph::Names;
use std::alloc::AllocError;

/// Appends the line of an open path.
pub fn push_open(out: &mut Vec<u8>, names: &Names, path: &OpenPath) -> Result<(), AllocError>
    ensures { OnOk result (out.new.items ≡ out.old.items ++ open_text names.now path.now.vertices path.now.marks path.now.count) }
{
    out.extend_from_slice(b"open: ")?;
    push_path(out, names, &path.vertices, &path.marks, path.count)?;
    out.push(b'\n')?;
    Ok(())
}
