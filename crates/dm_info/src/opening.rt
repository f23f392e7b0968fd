//! The parts of a patch info before its log, in one run of bytes.

ghost use Rattle.std.specs.Prelude.{◌≡◌, IfOk};

use std::alloc::{AllocError, Allocator};
use std::marker::Model;

/// The name, the author and the date of a patch info: one run of bytes, and the places where the
/// first two end.
#[derive(Drop)]
pub(crate) struct Opening<A: Allocator> {
    bytes: Vec<u8, A>,
    name_end: usize,
    author_end: usize,
}

impl<A: Allocator> Model for Opening<A> {
    ghost use Rattle.std.specs.Prelude.{◌-◌, ◌≤◌, take, drop, length};
    ghost use Rattle.dm_info.specs.PatchInfo.{FirstParts};

    ghost Value = { FirstParts };

    ghost view = { λ o. record { name = take o.name_end o.bytes.items; author = take (o.author_end - o.name_end) (drop o.name_end o.bytes.items); date = drop o.author_end o.bytes.items } };

    ghost invariant = { λ o. (o.name_end ≤ o.author_end) × (o.author_end ≤ length o.bytes.items) };
}

impl<A: Allocator + Copy> Opening<A> {
    /// Copies of these parts, with no room to spare.
    pub(crate) fn from_parts(
        alloc: A,
        name: &[u8],
        author: &[u8],
        date: &[u8],
    ) -> Result<Opening<A>, AllocError>
        ensures { IfOk result (λ o. o ≡ record { name = name.now; author = author.now; date = date.now }) }
    {
        let size = name
            .len()
            .saturating_add(author.len())
            .saturating_add(date.len());
        let mut bytes = Vec::with_capacity(alloc, size)?;
        bytes.extend_from_slice(name)?;
        bytes.extend_from_slice(author)?;
        let author_end = bytes.len();
        bytes.extend_from_slice(date)?;
        Ok(Opening {
            bytes,
            name_end: name.len(),
            author_end,
        })
    }
}

impl<A: Allocator> Opening<A> {
    pub(crate) fn name(&self) -> &[u8]
        ensures { result.now ≡ self.now.name }
    {
        &self.bytes[..self.name_end]
    }

    pub(crate) fn author(&self) -> &[u8]
        ensures { result.now ≡ self.now.author }
    {
        &self.bytes[self.name_end..self.author_end]
    }

    pub(crate) fn date(&self) -> &[u8]
        ensures { result.now ≡ self.now.date }
    {
        &self.bytes[self.author_end..]
    }

    /// The same parts in another allocator, with no room to spare.
    pub(crate) fn copy_into<B: Allocator + Copy>(&self, alloc: B) -> Result<Opening<B>, AllocError>
        ensures { IfOk result (λ o. o ≡ self.now) }
    {
        Ok(Opening {
            bytes: Vec::from_slice(alloc, &self.bytes)?,
            name_end: self.name_end,
            author_end: self.author_end,
        })
    }
}
