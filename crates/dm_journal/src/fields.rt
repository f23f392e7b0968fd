//! Named fields of a header that aren't known.
ghost use Rattle.std.specs.Prelude.{ℕ, List, IfSome, IfNone, MatchBool};
ghost use Rattle.dm_journal.specs.Fields.{IsField, UnknownField};

use memchr::memchr;

// What a header of named fields begins with.
const FIRST_LINE: &[u8] = b"dm journal fields\n";

/// The first field of a file's header that isn't known here, with its value. `None` if the header has no named fields, or each
/// of them is known.
pub fn unknown_field(file: &[u8]) -> Option<&[u8]>
    ensures some { IfSome result (λ field. UnknownField file.now field.now) }
    ensures none { IfNone result ((field : List ℕ) → ¬ UnknownField file.now field) }
{
    let mut rest = file.strip_prefix(FIRST_LINE)?;
    while let Some(end) = memchr(b'\n', rest) {
        let line = &rest[..end];
        if line.is_empty() {
            return None;
        }
        if !is_known(line) {
            return Some(line);
        }
        rest = &rest[end + 1..];
    }
    None
}

fn is_known(line: &[u8]) -> bool
    ensures { MatchBool result (IsField line.now) (¬ IsField line.now) }
{
    line == b"kinds six".as_slice()
        || line == b"kinds all".as_slice()
        || line == b"checksum sha256".as_slice()
        || line == b"checksum lanes".as_slice()
        || line == b"base counted".as_slice()
}
