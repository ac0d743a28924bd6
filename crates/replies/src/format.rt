//! In which format an answer is told.

ghost use Rattle.std.specs.Prelude.{◌≡◌};

/// In which format an answer is told.
#[derive(Clone, Copy, Debug, PartialEq, Eq)]
pub enum Format {
    /// As text.
    Text,
    /// As one line of JSON.
    Json,
}

impl Format {
    ghost use Rattle.replies.specs.Told.{format_of};

    /// The format, by whether `--json` is there.
    pub fn of(json: bool) -> Self
        ensures { result ≡ format_of json }
    {
        if json { Format::Json } else { Format::Text }
    }
}
