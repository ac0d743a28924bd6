//! Reading a record without quotation marks.

ghost use Rattle.std.specs.Prelude.{◌≡◌, ◌<◌, ◌≤◌, ◌+◌, ◌-◌, [], true, false, take, drop, length, slice_index, IfOk};
ghost use Rattle.std.specs.List.{list_all};
ghost use Rattle.csv.specs.Machine.{next_record};
ghost use Rattle.csv.specs.Reading.{default_config};
ghost use Rattle.csv.specs.declared.parser.State.TheVariants as st;
ghost use Rattle.count_rows.specs.Reader.{is_line_end, is_plain, EndsAt};

/// Why a record isn't split into its fields.
#[derive(Clone, Copy)]
pub enum Unsplit {
    /// It has a quotation mark.
    Quoted,
    /// Memory was refused.
    NoMemory,
}

/// Whether a byte is a carriage return or a line feed.
#[inline(always)]
fn is_line_end(b: u8) -> bool
    ensures { result ≡ is_line_end b }
{
    b == b'\r' || b == b'\n'
}

/// Whether a byte only goes on with a field: no comma, no quotation mark and no line end.
#[inline(always)]
pub fn is_plain(b: u8) -> bool
    ensures { result ≡ is_plain b }
{
    b > b',' || !(b == b',' || b == b'"' || is_line_end(b))
}

/// The first place from `from` on that has no line end.
pub fn skip_line_ends(text: &[u8], from: usize) -> usize
    ensures same { next_record default_config st.StartRecord [] [] (drop from text.now) ≡ next_record default_config st.StartRecord [] [] (drop result text.now) }
    ensures begins { result < length text.now → is_line_end (slice_index text.now result) ≡ false }
{
    for at in from..text.len() {
        if !is_line_end(text[at]) {
            return at;
        }
    }
    text.len()
}

/// The first place from `from` on that has no plain byte.
#[inline(always)]
fn plain_end(text: &[u8], from: usize) -> usize
    requires { from ≤ length text.now }
    ensures from { from ≤ result }
    ensures within { result ≤ length text.now }
    ensures plain { list_all is_plain (take (result - from) (drop from text.now)) ≡ true }
{
    for at in from..text.len() {
        if !is_plain(text[at]) {
            return at;
        }
    }
    text.len()
}

/// The place behind the byte at which a record ends, or the end of the text.
#[inline(always)]
pub fn behind(text: &[u8], end: usize) -> usize
    requires { end ≤ length text.now }
    ensures within { result ≤ length text.now }
    ensures same { drop result text.now ≡ drop (end + 1) text.now }
{
    if end < text.len() { end + 1 } else { end }
}

/// Finds where the fields of the record end that a text goes on with, where it has no quotation mark, and gives the last of these places.
pub fn split(text: &[u8], ends: &mut Vec<usize>) -> Result<usize, Unsplit>
    ensures { IfOk result (EndsAt text.now ends.new.items) }
{
    ends.clear();
    let mut at = 0;
    loop {
        let end = plain_end(text, at);
        if ends.push(end).is_err() {
            return Err(Unsplit::NoMemory);
        }
        if end == text.len() {
            return Ok(end);
        }
        if text[end] != b',' {
            if is_line_end(text[end]) {
                return Ok(end);
            }
            return Err(Unsplit::Quoted);
        }
        at = end + 1;
    }
}
