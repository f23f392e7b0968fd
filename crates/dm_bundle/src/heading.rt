//! The heading of a bundle.

ghost use Rattle.std.specs.Prelude.{◌≡◌, ◌≢◌, ◌≤◌, length, drop, IfSome, IfNone, MatchBool};
ghost use Rattle.dm_bundle.specs.Heading.{heading_line, Heading};
ghost use Rattle.dm_bundle.specs.Faults.{HasNoHeading};

use dm_named::text::line_at;

/// Whether a line is the heading.
fn is_heading(line: &[u8]) -> bool
    ensures { MatchBool result (line.now ≡ heading_line) (line.now ≢ heading_line) }
{
    line == b"New patches:".as_slice()
}

/// The place after the first line that is the heading.
pub(crate) fn heading_at(text: &[u8]) -> Option<usize>
    ensures some { IfSome result (λ at. Heading text.now (drop at text.now)) }
    ensures within { IfSome result (λ at. at ≤ length text.now) }
    ensures none { IfNone result (HasNoHeading text.now) }
{
    let mut at = 0;
    while at < text.len() {
        let (line, next) = line_at(text, at);
        if is_heading(line) {
            return Some(next);
        }
        at = next;
    }
    None
}
