//! In which form a text is shown.
/// In which form a text is shown.
#[derive(Clone, Copy, Debug, PartialEq, Eq)]
pub(crate) enum Manner {
    /// On one line, in quotes.
    InQuotes,
    /// As lines.
    InLines,
}
