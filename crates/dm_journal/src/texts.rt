//! The texts of a journal.
ghost use Rattle.std.specs.Prelude.{◌≡◌, ◌<◌, ◌==◌, [], length, slice_index_or, slice_get, option_copied};

use std::marker::Model;

// Some of the bytes of a file.
#[derive(Clone, Copy)]
pub struct Range {
    pub start: usize,
    pub len: usize,
}

/// The texts that a file stands for, in the order of their appends. It owns the file's bytes once, and copies no text.
#[derive(Drop)]
pub struct Texts {
    bytes: Vec<u8>,
    ranges: Vec<Range>,
}

impl Model for Texts {
    ghost use Rattle.std.specs.Prelude.{List, ℕ};
    ghost use Rattle.dm_journal.specs.Texts.{ranges_of};

    ghost Value = { List (List ℕ) };

    ghost view = { λ t. ranges_of t.bytes.items t.ranges.items };
}

impl Texts {
    ghost use Rattle.dm_journal.specs.Texts.{ranges_of};

    pub(crate) fn new(bytes: Vec<u8>, ranges: Vec<Range>) -> Texts
        ensures { result ≡ ranges_of bytes.items ranges.items }
    {
        Texts { bytes, ranges }
    }

    pub fn len(&self) -> usize
        ensures { result ≡ length self.now }
    {
        self.ranges.len()
    }

    pub fn is_empty(&self) -> bool
        ensures { result ≡ (length self.now == 0) }
    {
        self.ranges.is_empty()
    }

    /// The text at an index, borrowed.
    pub fn text(&self, index: usize) -> &[u8]
        requires { index < length self.now }
        ensures { result.now ≡ slice_index_or self.now index [] }
    {
        let range = self.ranges[index];
        let start = range.start.min(self.bytes.len());
        let rest = &self.bytes[start..];
        &rest[..range.len.min(rest.len())]
    }

    /// The text at an index, if there are so many.
    pub fn get(&self, index: usize) -> Option<&[u8]>
        ensures { option_copied result ≡ slice_get self.now index }
    {
        if index < self.len() {
            Some(self.text(index))
        } else {
            None
        }
    }
}
