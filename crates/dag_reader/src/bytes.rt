//! The classes of bytes.

ghost use Rattle.std.specs.Prelude.{◌≡◌};
ghost use Rattle.answer_text.specs.Vocabulary.{is_white, is_edge_byte, is_name_byte};
ghost use Rattle.dag_reader.specs.Bytes.{begins_name};

/// For each byte its kind: `a` for the quotation mark, `b` for a blank, `c` for a sign, `e` for one of edges, and for any other, which may stand in a
/// name, `o` if a run that begins with it may be a comment or begin with an arrow of Unicode, and `n` if not.
static KINDS: [u8; 256] = *b"\
    nnnnnnnnnbbnnbnnnnnnnnnnnnnnnnnn\
    bnaonnnnnnnncenonnnnnnnnnnncecen\
    ennnnnnnnnnnnnnnnnnnnnnnnnncncnn\
    nnnnnnnnnnnnnnnnnnnnnnnnnnncncnn\
    nnnnnnnnnnnnnnnnnnnnnnnnnnnnnnnn\
    nnnnnnnnnnnnnnnnnnnnnnnnnnnnnnnn\
    nnnnnnnnnnnnnnnnnnnnnnnnnnnnnnnn\
    nnonnnnnnnnnnnnnnnnnnnnnnnnnnnnn";

/// Whether the byte is white space.
#[inline(always)]
pub fn is_white(byte: u8) -> bool
    ensures { result ≡ is_white byte }
{
    KINDS[byte as usize] == b'b'
}

/// Whether the byte is one of edges.
#[inline(always)]
pub fn is_edge_byte(byte: u8) -> bool
    ensures { result ≡ is_edge_byte byte }
{
    KINDS[byte as usize] == b'e'
}

/// Whether the byte may stand in a bare name.
#[inline(always)]
pub fn is_name_byte(byte: u8) -> bool
    ensures { result ≡ is_name_byte byte }
{
    KINDS[byte as usize] >= b'n'
}

/// Whether a run of name bytes that begins with the byte is a name, whatever follows.
#[inline(always)]
pub fn begins_name(byte: u8) -> bool
    ensures { result ≡ begins_name byte }
{
    KINDS[byte as usize] == b'n'
}
