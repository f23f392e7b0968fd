//! What stands at a path, borrowed.
ghost use Rattle.std.specs.Prelude.{◌≡◌, ◌<◌, [], length, slice_index_or};
ghost use Rattle.dm_tree.specs.Listings.{file_size};
ghost use Rattle.dm_tree.specs.Validity.{ArePlain};

use crate::file::File;
use crate::file_lines::FileLines;
use std::alloc::Allocator;
use std::marker::Model;

/// What stands at a path of a tree, borrowed by [`Tree::entry`](crate::Tree::entry) without a copy.
#[derive(Drop)]
pub enum Entry<'t, A: Allocator> {
    /// A directory.
    Dir,
    /// A file, with its lines.
    File(FileRef<'t, A>),
}

/// The lines of a file, borrowed: the pieces between its newlines, at least one.
#[derive(Drop)]
pub struct FileRef<'t, A: Allocator> {
    file: &'t File<A>,
}

impl<'t, A: Allocator> Model for FileRef<'t, A> {
    ghost use Rattle.std.specs.Prelude.{◌<◌, List, ℕ, length};

    ghost Value = { List (List ℕ) };

    ghost view = { λ a. a.file.now };

    ghost invariant = { λ a. 0 < length a.file.now };
}

impl<'t, A: Allocator> FileRef<'t, A> {
    pub(crate) fn new(file: &'t File<A>) -> FileRef<'t, A>
        requires { 0 < length file.now }
        ensures { result ≡ file.now }
    {
        FileRef { file }
    }

    /// The count of lines, at least one. No line has a newline.
    pub fn count(&self) -> usize
        ensures value { result ≡ length self.now }
        ensures some { 0 < length self.now }
        ensures plain { ArePlain self.now }
    {
        self.file.len()
    }

    /// The lines in turn, which takes less than to ask for each by its place.
    pub fn lines(&self) -> FileLines<'t, A>
        ensures value { result ≡ self.now }
        ensures some { 0 < length self.now }
        ensures plain { ArePlain self.now }
    {
        let _ = self.file.len();
        self.file.lines()
    }

    /// The line at a place, from 0, borrowed.
    pub fn line(&self, i: usize) -> &[u8]
        requires { i < length self.now }
        ensures { result.now ≡ slice_index_or self.now i [] }
    {
        self.file.line(i)
    }

    /// The size of the file in bytes: its lines, and a newline between each two.
    pub fn bytes(&self) -> u128
        ensures { result ≡ file_size self.now }
    {
        self.file.bytes()
    }
}

impl<'t, A: Allocator + Copy> FileRef<'t, A> {
    /// The allocator of the tree.
    pub fn allocator(&self) -> A {
        self.file.allocator()
    }
}
