//! A list of bytes that is owned: a name, or a line.
ghost use Rattle.std.specs.Prelude.{◌≡◌, ◌↔◌, ◌++◌, IfOk, OnOk, IsTrue};
ghost use Rattle.dm_tree.specs.Validity.{is_name};

use std::alloc::{AllocError, Allocator};
use std::marker::Model;

/// A list of bytes that is owned: a name, or a line.
#[derive(Drop)]
pub struct Bytes<A: Allocator> {
    bytes: Vec<u8, A>,
}

impl<A: Allocator> Model for Bytes<A> {
    ghost use Rattle.std.specs.Prelude.{List, ℕ};

    ghost Value = { List ℕ };

    ghost view = { λ a. a.bytes.items };
}

impl<A: Allocator> Bytes<A> {
    /// A copy of the bytes.
    pub fn from_slice(alloc: A, bytes: &[u8]) -> Result<Bytes<A>, AllocError>
        ensures { IfOk result (λ r. r ≡ bytes.now) }
    {
        Ok(Bytes {
            bytes: Vec::from_slice(alloc, bytes)?,
        })
    }

    /// These bytes; nothing is copied.
    pub fn from_vec(bytes: Vec<u8, A>) -> Bytes<A>
        ensures { result ≡ bytes.items }
    {
        Bytes { bytes }
    }

    /// The bytes, borrowed.
    pub fn as_slice(&self) -> &[u8]
        ensures { result.now ≡ self.now }
    {
        self.bytes.as_slice()
    }
}

/// Whether both are the same bytes.
pub(crate) fn is_same(a: &[u8], b: &[u8]) -> bool
    ensures value { result ≡ is_name a.now b.now }
    ensures same { IsTrue result ↔ (a.now ≡ b.now) }
{
    a.cmp(b).is_eq()
}

/// The same texts, in the same order, with another allocator.
pub(crate) fn copy_all<A: Allocator, B: Allocator + Copy>(
    alloc: B,
    texts: &[Bytes<A>],
) -> Result<Vec<Bytes<B>, B>, AllocError>
    ensures { IfOk result (λ v. v.items ≡ texts.now) }
{
    let mut copies = Vec::with_capacity(alloc, texts.len())?;
    push_all(&mut copies, texts)?;
    Ok(copies)
}

/// Appends copies of the texts; where memory runs out, some of them.
pub(crate) fn push_all<A: Allocator, B: Allocator + Copy>(
    copies: &mut Vec<Bytes<B>, B>,
    texts: &[Bytes<A>],
) -> Result<(), AllocError>
    ensures { OnOk result (copies.new.items ≡ copies.old.items ++ texts.now) }
{
    let alloc = *copies.allocator();
    for text in texts {
        copies.push(Bytes::from_slice(alloc, text.as_slice())?)?;
    }
    Ok(())
}
