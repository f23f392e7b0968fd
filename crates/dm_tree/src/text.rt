//! A list of lines as one run of bytes, with the place where each line ends.
ghost use Rattle.std.specs.Prelude.{◌≡◌, ◌+◌, ◌<◌, ◌≤◌, ◌==◌, ◌++◌, ◌∷◌, [], length, IfOk, OnOk, OnErr, slice_index_or, sum_by};
ghost use Rattle.std.specs.List.{splice};
ghost use Rattle.dm_tree.specs.Texts.{begin_of};

use crate::ends::replace_ends;
use crate::gap::replace_bytes;
use crate::text_ref::TextRef;
use std::alloc::{AllocError, Allocator};
use std::marker::Model;

/// A list of lines as one run of bytes, with the place where each line ends: two blocks of memory,
/// however many lines there are.
#[derive(Drop)]
pub(crate) struct Text<A: Allocator> {
    bytes: Vec<u8, A>,
    ends: Vec<usize, A>,
}

impl<A: Allocator> Model for Text<A> {
    ghost use Rattle.std.specs.Prelude.{List, ℕ};
    ghost use Rattle.dm_tree.specs.Texts.{LaidOut, cut};

    ghost Value = { List (List ℕ) };

    ghost view = { λ a. cut 0 a.ends.items a.bytes.items };

    ghost invariant = { λ a. LaidOut a.bytes.items a.ends.items (cut 0 a.ends.items a.bytes.items) };
}

impl<A: Allocator + Copy> Text<A> {
    /// No lines; takes no memory.
    pub(crate) fn new(alloc: A) -> Text<A>
        ensures { result ≡ [] }
    {
        Text {
            bytes: Vec::new(alloc),
            ends: Vec::new(alloc),
        }
    }

    /// No lines, with room for so many lines, and for so many bytes of all lines together.
    pub(crate) fn with_room(alloc: A, lines: usize, bytes: usize) -> Result<Text<A>, AllocError>
        ensures { IfOk result (λ r. r ≡ []) }
    {
        Ok(Text {
            bytes: Vec::with_capacity(alloc, bytes)?,
            ends: Vec::with_capacity(alloc, lines)?,
        })
    }
}

impl<A: Allocator> Text<A> {
    /// The count of lines.
    pub(crate) fn len(&self) -> usize
        ensures { result ≡ length self.now }
    {
        self.ends.len()
    }

    /// Whether there is no line.
    pub(crate) fn is_empty(&self) -> bool
        ensures { result ≡ (length self.now == 0) }
    {
        self.ends.is_empty()
    }

    /// The line at a place, from 0, borrowed.
    pub(crate) fn line(&self, i: usize) -> &[u8]
        requires { i < length self.now }
        ensures { result.now ≡ slice_index_or self.now i [] }
    {
        let start = self.begin(i);
        let end = self.ends[i];
        &self.bytes[start..end]
    }

    /// Where the line at a place begins, or would.
    fn begin(&self, i: usize) -> usize
        requires { i ≤ length self.now }
        ensures { result ≡ begin_of self.now i }
    {
        if i == 0 { 0 } else { self.ends[i - 1] }
    }

    /// Appends a copy of the line.
    pub(crate) fn push(&mut self, line: &[u8]) -> Result<(), AllocError>
        ensures ok { OnOk result (self.new ≡ self.old ++ line.now ∷ []) }
        ensures err { OnErr result (self.new ≡ self.old) }
    {
        self.ends.reserve(1)?;
        self.bytes.extend_from_slice(line)?;
        let Ok(()) = self.ends.push(self.bytes.len()) else {
            unreachable!()
        };
        Ok(())
    }

    /// All lines, borrowed.
    pub(crate) fn all(&self) -> TextRef<'_>
        ensures { result ≡ self.now }
    {
        TextRef::new(&self.bytes, &self.ends)
    }

    /// The count of bytes of all lines together.
    pub(crate) fn size(&self) -> usize
        ensures { result ≡ sum_by length self.now }
    {
        self.bytes.len()
    }

    /// Appends copies of the lines.
    pub(crate) fn append(&mut self, lines: &TextRef<'_>) -> Result<(), AllocError>
        ensures ok { OnOk result (self.new ≡ self.old ++ lines.now) }
        ensures err { OnErr result (self.new ≡ self.old) }
    {
        let begin = self.bytes.len();
        self.ends.reserve(lines.len())?;
        self.bytes.extend_from_slice(lines.bytes())?;
        lines.copy_ends(&mut self.ends, begin);
        Ok(())
    }

    /// Puts copies of the fresh lines in place of those from `start` to before `end`, in one move
    /// of the bytes behind.
    pub(crate) fn splice<B: Allocator>(
        &mut self,
        start: usize,
        end: usize,
        fresh: &Text<B>,
    ) -> Result<(), AllocError>
        requires order { start ≤ end }
        requires within { end ≤ length self.old }
        ensures ok { OnOk result (self.new ≡ splice self.old start end fresh.now) }
        ensures err { OnErr result (self.new ≡ self.old) }
    {
        let from = self.begin(start);
        let to = self.begin(end);
        self.ends
            .reserve(fresh.ends.len().saturating_sub(end - start))?;
        self.bytes
            .reserve(fresh.bytes.len().saturating_sub(to - from))?;
        replace_bytes(&mut self.bytes, from, to, &fresh.bytes);
        replace_ends(
            &mut self.ends,
            start,
            end,
            &fresh.ends,
            from,
            to,
            fresh.bytes.len(),
        );
        Ok(())
    }

    /// A copy with another allocator, with no room to spare.
    pub(crate) fn copy_into<B: Allocator + Copy>(&self, alloc: B) -> Result<Text<B>, AllocError>
        ensures { IfOk result (λ r. r ≡ self.now) }
    {
        Ok(Text {
            bytes: Vec::from_slice(alloc, &self.bytes)?,
            ends: Vec::from_slice(alloc, &self.ends)?,
        })
    }
}
