//! The hashes of patches as darcs keeps them.

ghost use Rattle.std.specs.Prelude.{◌≡◌, ◌≤◌, ℕ, List, [], ◌++◌, length, IfOk, OnOk};
ghost use Rattle.std.specs.List.{flat_map};
ghost use Rattle.sha1.specs.Sha1.{Holds, sha1};
ghost use Rattle.dm_named.specs.Canonical.{prim_text, body_text, patch_text};
ghost use Rattle.dm_hash.specs.Kept.{kept_deps, kept_front, gap, darcs1_body, darcs2_body, kept_patch, in_turn, darcs1_text, darcs2_text};

use dm_info::{Info, push_info};
use dm_named::{Named, push_named};
use sha1::Sha1;
use std::alloc::{AllocError, Allocator};

fn push_kept_deps<A: Allocator, B: Allocator>(
    deps: &[Info<A>],
    out: &mut Vec<u8, B>,
) -> Result<(), AllocError>
    ensures { OnOk result (out.new.items ≡ out.old.items ++ kept_deps deps.now) }
{
    if deps.is_empty() {
        return Ok(());
    }
    out.extend_from_slice(b"\n<\n")?;
    for dep in deps {
        push_info(dep, out)?;
        out.push(b'\n')?;
    }
    out.push(b'>')?;
    Ok(())
}

fn push_front<A: Allocator, B: Allocator>(
    patch: &Named<A>,
    out: &mut Vec<u8, B>,
) -> Result<(), AllocError>
    ensures { OnOk result (out.new.items ≡ out.old.items ++ kept_front patch.now) }
{
    push_info(patch.info(), out)?;
    push_kept_deps(patch.deps(), out)?;
    Ok(())
}

fn gap_after<A: Allocator>(deps: &[Info<A>]) -> &'static [u8]
    ensures { result.now ≡ gap deps.now }
{
    if deps.is_empty() { b"" } else { b" " }
}

/// The primitives of a patch, from its body.
fn without_braces<'a, A: Allocator>(patch: &Named<A>, body: &'a [u8]) -> &'a [u8]
    requires { body.now ≡ body_text patch.now.prims }
    ensures { result.now ≡ flat_map prim_text patch.now.prims }
{
    if patch.prims().len() == 1 {
        return body;
    }
    &body[2..body.len() - 2]
}

/// The body of a patch, from its canonical text: what stands before it there is as long as where darcs keeps it.
fn body_of<'a, A: Allocator>(patch: &Named<A>, front: &[u8], text: &'a [u8]) -> &'a [u8]
    requires front { front.now ≡ kept_front patch.now }
    requires text { text.now ≡ patch_text patch.now }
    requires within { length front.now ≤ length text.now }
    ensures { result.now ≡ body_text patch.now.prims }
{
    &text[front.len()..]
}

fn add_darcs1<A: Allocator>(patch: &Named<A>, front: &[u8], body: &[u8], hasher: &mut Sha1)
    requires front { front.now ≡ kept_front patch.now }
    requires body { body.now ≡ body_text patch.now.prims }
    ensures { (m : List ℕ) → Holds hasher.old m → Holds hasher.new (m ++ kept_patch darcs1_body patch.now) }
{
    hasher.update(front);
    hasher.update(gap_after(patch.deps()));
    hasher.update(body);
}

fn add_darcs2<A: Allocator>(patch: &Named<A>, front: &[u8], body: &[u8], hasher: &mut Sha1)
    requires front { front.now ≡ kept_front patch.now }
    requires body { body.now ≡ body_text patch.now.prims }
    ensures { (m : List ℕ) → Holds hasher.old m → Holds hasher.new (m ++ kept_patch darcs2_body patch.now) }
{
    hasher.update(front);
    if patch.prims().len() == 0 {
        hasher.update(b"\n");
        return;
    }
    hasher.update(gap_after(patch.deps()));
    hasher.update(without_braces(patch, body));
}

/// The hashes of patches: as darcs-1 keeps them, and as darcs-2 does.
#[derive(Clone, Copy)]
pub(crate) struct Hashes {
    pub(crate) darcs1: [u8; 20],
    pub(crate) darcs2: [u8; 20],
}

/// The hash of a newline, twice: where there is no patch, Darcs hashes one in both ways.
fn hashes_of_none() -> Hashes
    ensures darcs1 { result.darcs1 ≡ sha1 (darcs1_text []) }
    ensures darcs2 { result.darcs2 ≡ sha1 (darcs2_text []) }
{
    let mut hasher = Sha1::new();
    hasher.update(b"\n");
    let hash = hasher.finalize();
    Hashes {
        darcs1: hash,
        darcs2: hash,
    }
}

/// Both hashes of these patches, one directly after the other, in one pass. At most one patch's text is in memory at a time.
fn hashes_in_turn<A: Allocator, B: Allocator + Copy>(
    alloc: B,
    patches: &[Named<A>],
) -> Result<Hashes, AllocError>
    ensures darcs1 { IfOk result (λ h. h.darcs1 ≡ sha1 (in_turn darcs1_body patches.now)) }
    ensures darcs2 { IfOk result (λ h. h.darcs2 ≡ sha1 (in_turn darcs2_body patches.now)) }
{
    let mut front = Vec::new(alloc);
    let mut text = Vec::new(alloc);
    let mut darcs1 = Sha1::new();
    let mut darcs2 = Sha1::new();
    for patch in patches {
        front.clear();
        push_front(patch, &mut front)?;
        text.clear();
        push_named(patch, &mut text)?;
        let body = body_of(patch, &front, &text);
        add_darcs1(patch, &front, body, &mut darcs1);
        add_darcs2(patch, &front, body, &mut darcs2);
    }
    Ok(Hashes {
        darcs1: darcs1.finalize(),
        darcs2: darcs2.finalize(),
    })
}

/// Both hashes of these patches.
pub(crate) fn hashes_of<A: Allocator, B: Allocator + Copy>(
    alloc: B,
    patches: &[Named<A>],
) -> Result<Hashes, AllocError>
    ensures darcs1 { IfOk result (λ h. h.darcs1 ≡ sha1 (darcs1_text patches.now)) }
    ensures darcs2 { IfOk result (λ h. h.darcs2 ≡ sha1 (darcs2_text patches.now)) }
{
    if patches.is_empty() {
        return Ok(hashes_of_none());
    }
    hashes_in_turn(alloc, patches)
}
