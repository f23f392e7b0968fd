//! Lines of a text, borrowed.
ghost use Rattle.std.specs.Prelude.{◌≡◌, ◌↔◌, ◌+◌, ◌-◌, ◌^◌, ◌<◌, ◌≤◌, ◌++◌, length, take, drop, IsTrue, slice_index, vec_len, vec_capacity};
ghost use Rattle.std.specs.List.{EachIndex, concat};
ghost use Rattle.dm_tree.specs.Trees.{Lines};
ghost use Rattle.dm_tree.specs.Texts.{LaidOut, begin_of, cut, ends_from};

use crate::bytes;
use crate::ends::shift;
use std::alloc::Allocator;
use std::marker::Model;

/// Lines of a text that follow one another, borrowed without a copy.
#[derive(Drop)]
pub(crate) struct TextRef<'t> {
    bytes: &'t [u8],
    ends: &'t [usize],
    /// What the ends count from: where the first of the lines begins in its text.
    begin: usize,
}

impl<'t> Model for TextRef<'t> {
    ghost use Rattle.std.specs.Prelude.{List, ℕ};
    ghost use Rattle.dm_tree.specs.Texts.{LaidOutFrom, cut};

    ghost Value = { List (List ℕ) };

    ghost view = { λ a. cut a.begin a.ends.now a.bytes.now };

    ghost invariant = { λ a. LaidOutFrom a.begin a.bytes.now a.ends.now (cut a.begin a.ends.now a.bytes.now) };
}

impl<'t> TextRef<'t> {
    /// All lines of a text.
    pub(crate) fn new(bytes: &'t [u8], ends: &'t [usize]) -> TextRef<'t>
        requires { LaidOut bytes.now ends.now (cut 0 ends.now bytes.now) }
        ensures { result ≡ cut 0 ends.now bytes.now }
    {
        TextRef {
            bytes,
            ends,
            begin: 0,
        }
    }

    /// The count of lines.
    pub(crate) fn len(&self) -> usize
        ensures { result ≡ length self.now }
    {
        self.ends.len()
    }

    /// The bytes of the lines, one line after another.
    pub(crate) fn bytes(&self) -> &'t [u8]
        ensures { result.now ≡ concat self.now }
    {
        self.bytes
    }

    /// The lines from `start` to before `end`, as many of them as there are.
    pub(crate) fn within(&self, start: usize, end: usize) -> TextRef<'t>
        requires { start ≤ end }
        ensures { result ≡ take (end - start) (drop start self.now) }
    {
        let first = start.min(self.ends.len());
        let last = end.min(self.ends.len());
        let from = begin_at(self.ends, self.begin, first);
        let to = begin_at(self.ends, self.begin, last);
        TextRef {
            bytes: &self.bytes[from - self.begin..to - self.begin],
            ends: &self.ends[first..last],
            begin: from,
        }
    }

    /// Whether both are the same lines.
    pub(crate) fn is_same(&self, other: &TextRef<'_>) -> bool
        ensures { IsTrue result ↔ (self.now ≡ other.now) }
    {
        if self.ends.len() != other.ends.len() {
            return false;
        }
        if !bytes::is_same(self.bytes, other.bytes) {
            return false;
        }
        are_same_ends(self.ends, self.begin, other.ends, other.begin)
    }

    /// Appends the ends of the lines, the first of which is to begin at `begin`; there is room.
    pub(crate) fn copy_ends<A: Allocator>(&self, ends: &mut Vec<usize, A>, begin: usize)
        requires room { vec_len ends.old + length self.now ≤ vec_capacity ends.old }
        requires fits { begin + length (concat self.now) < 2 ^ 64 }
        ensures { ends.new.items ≡ ends.old.items ++ ends_from begin self.now }
    {
        let start = ends.len();
        let Ok(()) = ends.extend_from_slice(self.ends) else {
            unreachable!()
        };
        shift(ends, start, self.begin, begin);
    }
}

/// Where the line at a place begins, or would, of lines with these ends the first of which begins
/// at `begin`.
fn begin_at(ends: &[usize], begin: usize, i: usize) -> usize
    requires { i ≤ length ends.now }
    ensures { (ls : Lines) → ends.now ≡ ends_from begin ls → result ≡ begin + begin_of ls i }
{
    if i == 0 { begin } else { ends[i - 1] }
}

/// Whether both are as far behind `from` and `to`.
fn are_same_ends(ends: &[usize], from: usize, others: &[usize], to: usize) -> bool
    requires size { length ends.now ≡ length others.now }
    requires behind { EachIndex ends.now (λ k. from ≤ slice_index ends.now k) }
    requires others_behind { EachIndex others.now (λ k. to ≤ slice_index others.now k) }
    ensures { IsTrue result ↔ EachIndex ends.now (λ k. slice_index ends.now k - from ≡ slice_index others.now k - to) }
{
    for i in 0..ends.len() {
        if ends[i] - from != others[i] - to {
            return false;
        }
    }
    true
}
