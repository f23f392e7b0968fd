//! The places of two hunks of one file that change their order.
ghost use Rattle.std.specs.Prelude.{ℕ, ◌+◌, ◌↔◌, IsTrue, MatchOption};
ghost use Rattle.dm_prim.specs.Table.{LiesAbove};
ghost use Rattle.dm_prim.specs.Commuting.{IsLineNumber};
ghost use Rattle.dm_prim.specs.Hunks.{ChangePlaces};

/// Where a hunk stands: its line, and how many old and new lines it has.
#[derive(Clone, Copy)]
pub(crate) struct Span {
    pub(crate) line: u32,
    pub(crate) old: usize,
    pub(crate) new: usize,
}

/// Whether the one that ends before line `end` lies above line `line`: a line stands between them,
/// or they touch and none of the four counts is zero.
fn lies_above(end: u128, line: u128, first: Span, second: Span) -> bool
    ensures { IsTrue result ↔ LiesAbove end line first.old first.new second.old second.new }
{
    end < line
        || (end == line && first.old > 0 && first.new > 0 && second.old > 0 && second.new > 0)
}

/// The lines of the second and of the first, once they have changed places; none where they overlap,
/// or touch with a count of zero, or a line would be out of range.
pub(crate) fn places(first: Span, second: Span) -> Option<(u32, u32)>
    requires first_line { IsLineNumber first.line }
    requires second_line { IsLineNumber second.line }
    ensures { MatchOption result
        ((m : ℕ) (k : ℕ) → ChangePlaces first.line first.old first.new second.line second.old second.new m k → IsLineNumber m → IsLineNumber k → ⊥)
        (λ r. ChangePlaces first.line first.old first.new second.line second.old second.new r.0 r.1 × IsLineNumber r.0 × IsLineNumber r.1) }
{
    let first_line = u128::from(first.line);
    let second_line = u128::from(second.line);
    let first_end = first_line + first.new as u128;
    let second_end = second_line + second.old as u128;
    if lies_above(first_end, second_line, first, second) {
        match u32::try_from(second_line - first.new as u128 + first.old as u128) {
            Ok(line) => Some((line, first.line)),
            Err(_) => None,
        }
    } else if lies_above(second_end, first_line, first, second) {
        match u32::try_from(first_line - second.old as u128 + second.new as u128) {
            Ok(line) => Some((second.line, line)),
            Err(_) => None,
        }
    } else {
        None
    }
}
