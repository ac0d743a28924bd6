//! What `graph` writes, read again.

ghost use Rattle.separation_commands.specs.GraphLaws.{WrittenIsHeld, LongIsNotHeld};

/// A text that `graph` writes holds the graph that was written, as the text of a file does, where it has at most 1,048,576 bytes; a
/// longer one is refused.
pub fn laws()
    ensures held { WrittenIsHeld }
    ensures long { LongIsNotHeld }
{
    dag_reader::the_written_text();
}
