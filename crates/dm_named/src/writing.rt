//! Writing canonical texts.

pub(crate) mod conflictors;
pub(crate) mod merged;

ghost use Rattle.std.specs.Prelude.{◌≡◌, ◌++◌, ◌∷◌, [], OnOk, OnErr, IfOk, codes};
ghost use Rattle.std.specs.List.{AllByRecursion, flat_map};
ghost use Rattle.std.specs.Fmt.{decimal};
ghost use Rattle.dm_info.specs.PatchInfo.{IsInfo};
ghost use Rattle.dm_tree.specs.Validity.{IsValidPath};
ghost use Rattle.dm_tokens.specs.Validity.{AreTokens};
ghost use Rattle.dm_prim.specs.Commuting.{IsValidPrim};
ghost use Rattle.dm_prim.specs.Hunks.{hunk_of};
ghost use Rattle.dm_prim.specs.Binaries.{binary_of};
ghost use Rattle.dm_prim.specs.Replaces.{replace_of};
ghost use Rattle.dm_prim.specs.Preferences.{preference_of};
ghost use Rattle.dm_prim.specs.Prims.{prim_of, prims_of};
ghost use Rattle.dm_named.specs.Canonical.{byte_text, name_text, path_text, lines_text, prim_text, deps_text, body_text, patch_text};
ghost use Rattle.dm_named.specs.Replaces.{bracketed};
ghost use Rattle.dm_named.specs.Kinds.{HasBytes, HaveBytes};
ghost use Rattle.dm_named.specs.Patches.{IsValidPatch};

use crate::named::Named;
use crate::text::is_white;
use dm_hex::push_content;
use dm_info::{Info, push_info};
use dm_prim::{Binary, Hunk, Preference, Prim, Replace};
use dm_tokens::Tokens;
use dm_tree::{Lines, Path};
use itoa::Buffer;
use std::alloc::{AllocError, Allocator};

fn push_number<B: Allocator + Copy>(number: u32, out: &mut Vec<u8, B>) -> Result<(), AllocError>
    ensures { OnOk result (out.new.items ≡ out.old.items ++ decimal number) }
{
    let mut buffer = Buffer::new();
    out.extend_from_slice(buffer.format(number).as_bytes())?;
    Ok(())
}

fn push_byte<B: Allocator + Copy>(byte: u8, out: &mut Vec<u8, B>) -> Result<(), AllocError>
    ensures { OnOk result (out.new.items ≡ out.old.items ++ byte_text byte) }
{
    if is_white(byte) || byte == b'\\' {
        out.push(b'\\')?;
        push_number(byte as u32, out)?;
        out.push(b'\\')?;
        return Ok(());
    }
    out.push(byte)?;
    Ok(())
}

fn push_name<B: Allocator + Copy>(name: &[u8], out: &mut Vec<u8, B>) -> Result<(), AllocError>
    ensures { OnOk result (out.new.items ≡ out.old.items ++ name_text name.now) }
{
    out.push(b'/')?;
    for byte in name {
        push_byte(*byte, out)?;
    }
    Ok(())
}

fn push_path<A: Allocator, B: Allocator + Copy>(
    path: &Path<A>,
    out: &mut Vec<u8, B>,
) -> Result<(), AllocError>
    ensures text { OnOk result (out.new.items ≡ out.old.items ++ path_text path.now) }
    ensures valid { OnOk result (IsValidPath path.now) }
{
    out.push(b'.')?;
    for i in 0..path.len() {
        push_name(path.part(i), out)?;
    }
    Ok(())
}

fn push_lines<A: Allocator, B: Allocator + Copy>(
    byte: u8,
    lines: &Lines<A>,
    out: &mut Vec<u8, B>,
) -> Result<(), AllocError>
    ensures { OnOk result (out.new.items ≡ out.old.items ++ lines_text byte lines.now) }
{
    // Reserves room for all lines at once, and an eighth more for what follows: else a long text would be copied again and again.
    let room = lines.size().saturating_add(lines.len().saturating_mul(2));
    out.reserve(room.saturating_add(room / 8))?;
    for i in 0..lines.len() {
        out.push(byte)?;
        out.extend_from_slice(lines.line(i))?;
        out.push(b'\n')?;
    }
    Ok(())
}

fn push_single<A: Allocator, B: Allocator + Copy>(
    word: &[u8],
    path: &Path<A>,
    out: &mut Vec<u8, B>,
) -> Result<(), AllocError>
    ensures text { OnOk result (out.new.items ≡ out.old.items ++ (word.now ++ (path_text path.now ++ 10 ∷ []))) }
    ensures valid { OnOk result (IsValidPath path.now) }
{
    out.extend_from_slice(word)?;
    push_path(path, out)?;
    out.push(b'\n')?;
    Ok(())
}

fn push_hunk<A: Allocator, B: Allocator + Copy>(
    hunk: &Hunk<A>,
    out: &mut Vec<u8, B>,
) -> Result<(), AllocError>
    ensures valid { OnOk result (IsValidPrim (hunk_of hunk.now)) }
    ensures text { OnOk result (out.new.items ≡ out.old.items
        ++ (codes "hunk " ++ (path_text hunk.now.path ++ 32 ∷ (decimal hunk.now.line ++ 10 ∷ (lines_text 45 hunk.now.old ++ lines_text 43 hunk.now.new))))) }
{
    out.extend_from_slice(b"hunk ")?;
    push_path(hunk.path(), out)?;
    out.push(b' ')?;
    push_number(hunk.line(), out)?;
    out.push(b'\n')?;
    push_lines(b'-', hunk.old(), out)?;
    push_lines(b'+', hunk.new_lines(), out)?;
    Ok(())
}

fn push_move<A: Allocator, B: Allocator + Copy>(
    from: &Path<A>,
    to: &Path<A>,
    out: &mut Vec<u8, B>,
) -> Result<(), AllocError>
    ensures valid { OnOk result (IsValidPath from.now × IsValidPath to.now) }
    ensures text { OnOk result (out.new.items ≡ out.old.items ++ (codes "move " ++ (path_text from.now ++ 32 ∷ (path_text to.now ++ 10 ∷ [])))) }
{
    out.extend_from_slice(b"move ")?;
    push_path(from, out)?;
    out.push(b' ')?;
    push_path(to, out)?;
    out.push(b'\n')?;
    Ok(())
}

fn push_binary<A: Allocator, B: Allocator + Copy>(
    binary: &Binary<A>,
    out: &mut Vec<u8, B>,
) -> Result<(), AllocError>
    ensures valid { OnOk result (IsValidPrim (binary_of binary.now)) }
    ensures bytes { OnOk result (HasBytes (binary_of binary.now)) }
    ensures text { OnOk result (out.new.items ≡ out.old.items ++ prim_text (binary_of binary.now)) }
{
    out.extend_from_slice(b"binary ")?;
    push_path(binary.path(), out)?;
    out.extend_from_slice(b"\noldhex\n")?;
    push_content(binary.old(), out)?;
    out.extend_from_slice(b"newhex\n")?;
    push_content(binary.new_lines(), out)?;
    Ok(())
}

fn push_line<B: Allocator + Copy>(line: &[u8], out: &mut Vec<u8, B>) -> Result<(), AllocError>
    ensures { OnOk result (out.new.items ≡ out.old.items ++ (line.now ++ 10 ∷ [])) }
{
    out.extend_from_slice(line)?;
    out.push(b'\n')?;
    Ok(())
}

fn push_tokens<A: Allocator, B: Allocator + Copy>(
    tokens: &Tokens<A>,
    out: &mut Vec<u8, B>,
) -> Result<(), AllocError>
    ensures valid { OnOk result (AreTokens tokens.now) }
    ensures text { OnOk result (out.new.items ≡ out.old.items
        ++ 32 ∷ (bracketed tokens.now.set ++ 32 ∷ (tokens.now.old ++ 32 ∷ (tokens.now.new ++ 10 ∷ [])))) }
{
    out.extend_from_slice(b" [")?;
    out.extend_from_slice(tokens.set_text())?;
    out.extend_from_slice(b"] ")?;
    out.extend_from_slice(tokens.old())?;
    out.push(b' ')?;
    push_line(tokens.new_token(), out)?;
    Ok(())
}

fn push_replace<A: Allocator, B: Allocator + Copy>(
    replace: &Replace<A>,
    out: &mut Vec<u8, B>,
) -> Result<(), AllocError>
    ensures valid { OnOk result (IsValidPrim (replace_of replace.now)) }
    ensures text { OnOk result (out.new.items ≡ out.old.items ++ prim_text (replace_of replace.now)) }
{
    out.extend_from_slice(b"replace ")?;
    push_path(replace.path(), out)?;
    push_tokens(replace.tokens(), out)?;
    Ok(())
}

fn push_preference<A: Allocator, B: Allocator + Copy>(
    change: &Preference<A>,
    out: &mut Vec<u8, B>,
) -> Result<(), AllocError>
    ensures valid { OnOk result (IsValidPrim (preference_of change.now)) }
    ensures text { OnOk result (out.new.items ≡ out.old.items ++ prim_text (preference_of change.now)) }
{
    out.extend_from_slice(b"changepref ")?;
    push_line(change.name(), out)?;
    push_line(change.old(), out)?;
    push_line(change.new_value(), out)?;
    Ok(())
}

/// Appends the canonical text of a primitive. If an allocation fails, a part of it may have been appended.
pub fn push_prim<A: Allocator, B: Allocator + Copy>(
    prim: &Prim<A>,
    out: &mut Vec<u8, B>,
) -> Result<(), AllocError>
    ensures text { OnOk result (out.new.items ≡ out.old.items ++ prim_text (prim_of prim.now)) }
    ensures valid { OnOk result (IsValidPrim (prim_of prim.now)) }
    ensures bytes { OnOk result (HasBytes (prim_of prim.now)) }
{
    match prim {
        Prim::AddFile(path) => push_single(b"addfile ", path, out),
        Prim::RmFile(path) => push_single(b"rmfile ", path, out),
        Prim::AddDir(path) => push_single(b"adddir ", path, out),
        Prim::RmDir(path) => push_single(b"rmdir ", path, out),
        Prim::Move(from, to) => push_move(from, to, out),
        Prim::Hunk(hunk) => push_hunk(hunk, out),
        Prim::Binary(binary) => push_binary(binary, out),
        Prim::Replace(replace) => push_replace(replace, out),
        Prim::ChangePref(change) => push_preference(change, out),
    }
}

/// Appends the canonical text of dependencies, if there are any. If an allocation fails, a part of it may have been appended.
pub fn push_deps<A: Allocator, B: Allocator + Copy>(
    deps: &[Info<A>],
    out: &mut Vec<u8, B>,
) -> Result<(), AllocError>
    ensures text { OnOk result (out.new.items ≡ out.old.items ++ deps_text deps.now) }
    ensures valid { OnOk result (AllByRecursion IsInfo deps.now) }
{
    if deps.is_empty() {
        return Ok(());
    }
    out.extend_from_slice(b"<\n")?;
    for dep in deps {
        push_info(dep, out)?;
        out.push(b'\n')?;
    }
    out.extend_from_slice(b"> ")?;
    Ok(())
}

fn push_prims<A: Allocator, B: Allocator + Copy>(
    prims: &[Prim<A>],
    out: &mut Vec<u8, B>,
) -> Result<(), AllocError>
    ensures text { OnOk result (out.new.items ≡ out.old.items ++ flat_map prim_text (prims_of prims.now)) }
    ensures valid { OnOk result (AllByRecursion IsValidPrim (prims_of prims.now)) }
    ensures bytes { OnOk result (HaveBytes (prims_of prims.now)) }
{
    for prim in prims {
        push_prim(prim, out)?;
    }
    Ok(())
}

fn push_body<A: Allocator, B: Allocator + Copy>(
    prims: &[Prim<A>],
    out: &mut Vec<u8, B>,
) -> Result<(), AllocError>
    ensures text { OnOk result (out.new.items ≡ out.old.items ++ body_text (prims_of prims.now)) }
    ensures valid { OnOk result (AllByRecursion IsValidPrim (prims_of prims.now)) }
    ensures bytes { OnOk result (HaveBytes (prims_of prims.now)) }
{
    if prims.len() == 1 {
        return push_prim(&prims[0], out);
    }
    out.extend_from_slice(b"{\n")?;
    push_prims(prims, out)?;
    out.extend_from_slice(b"}\n")?;
    Ok(())
}

/// Appends the canonical text of a path. A failed allocation changes nothing.
pub fn write_path<A: Allocator, B: Allocator + Copy>(
    path: &Path<A>,
    out: &mut Vec<u8, B>,
) -> Result<(), AllocError>
    ensures ok { OnOk result (out.new.items ≡ out.old.items ++ path_text path.now) }
    // The path is valid, so its text is read back as the same path.
    ensures valid { OnOk result (IsValidPath path.now) }
    ensures err { OnErr result (out.new.items ≡ out.old.items) }
{
    let mut text = Vec::new(*out.allocator());
    push_path(path, &mut text)?;
    out.extend_from_slice(&text)?;
    Ok(())
}

/// Appends the canonical text of a named patch. If an allocation fails, a part of it may have been appended: for callers that
/// then drop the whole text. [`write_named`] appends all or nothing.
pub fn push_named<A: Allocator, B: Allocator + Copy>(
    patch: &Named<A>,
    out: &mut Vec<u8, B>,
) -> Result<(), AllocError>
    ensures ok { OnOk result (out.new.items ≡ out.old.items ++ patch_text patch.now) }
    // The patch is valid and has bytes only, so its text is read back as the same patch.
    ensures valid { OnOk result (IsValidPatch patch.now) }
    ensures bytes { OnOk result (HaveBytes patch.now.prims) }
{
    push_info(patch.info(), out)?;
    push_deps(patch.deps(), out)?;
    push_body(patch.prims(), out)?;
    Ok(())
}

/// Appends the canonical text of a named patch. A failed allocation changes nothing.
pub fn write_named<A: Allocator, B: Allocator + Copy>(
    patch: &Named<A>,
    out: &mut Vec<u8, B>,
) -> Result<(), AllocError>
    ensures ok { OnOk result (out.new.items ≡ out.old.items ++ patch_text patch.now) }
    // The patch is valid and has bytes only, so its text is read back as the same patch.
    ensures valid { OnOk result (IsValidPatch patch.now) }
    ensures bytes { OnOk result (HaveBytes patch.now.prims) }
    ensures err { OnErr result (out.new.items ≡ out.old.items) }
{
    let mut text = Vec::new(*out.allocator());
    push_named(patch, &mut text)?;
    out.extend_from_slice(&text)?;
    Ok(())
}
