//! Whether two patches are the same, wherever they lie.
ghost use Rattle.std.specs.Prelude.{◌≡◌, ◌↔◌, IsTrue};
ghost use Rattle.dm_prim.specs.Primitives as primitives;
ghost use Rattle.dm_prim.specs.Prims.{prim_of, prims_of};
ghost use Rattle.dm_prim.specs.Hunks.{hunk_of};
ghost use Rattle.dm_prim.specs.Binaries.{binary_of};
ghost use Rattle.dm_prim.specs.Preferences.{preference_of};
ghost use Rattle.dm_prim.specs.Replaces.{replace_of};

use dm_info::Info;
use dm_named::Named;
use dm_prim::{Binary, Hunk, Preference, Prim, Replace};
use dm_tree::{Lines, Path};
use std::alloc::Allocator;

fn same_bytes(x: &[u8], y: &[u8]) -> bool
    ensures { IsTrue result ↔ (x.now ≡ y.now) }
{
    x == y
}

fn same_lines<A: Allocator, B: Allocator>(xs: &Lines<A>, ys: &Lines<B>) -> bool
    ensures { IsTrue result ↔ (xs.now ≡ ys.now) }
{
    if xs.len() != ys.len() {
        return false;
    }
    for i in 0..xs.len() {
        if !same_bytes(xs.line(i), ys.line(i)) {
            return false;
        }
    }
    true
}

fn same_hunk<A: Allocator, B: Allocator>(x: &Hunk<A>, y: &Hunk<B>) -> bool
    ensures { IsTrue result ↔ (x.now ≡ y.now) }
{
    if x.line() != y.line() {
        return false;
    }
    if !x.path().same(y.path()) {
        return false;
    }
    if !same_lines(x.old(), y.old()) {
        return false;
    }
    same_lines(x.new_lines(), y.new_lines())
}

fn same_binary<A: Allocator, B: Allocator>(x: &Binary<A>, y: &Binary<B>) -> bool
    ensures { IsTrue result ↔ (x.now ≡ y.now) }
{
    if !x.path().same(y.path()) {
        return false;
    }
    if !same_lines(x.old(), y.old()) {
        return false;
    }
    same_lines(x.new_lines(), y.new_lines())
}

fn same_replace<A: Allocator, B: Allocator>(x: &Replace<A>, y: &Replace<B>) -> bool
    ensures { IsTrue result ↔ (x.now ≡ y.now) }
{
    if !x.path().same(y.path()) {
        return false;
    }
    if !same_bytes(x.tokens().set_text(), y.tokens().set_text()) {
        return false;
    }
    if !same_bytes(x.tokens().old(), y.tokens().old()) {
        return false;
    }
    same_bytes(x.tokens().new_token(), y.tokens().new_token())
}

fn same_preference<A: Allocator, B: Allocator>(x: &Preference<A>, y: &Preference<B>) -> bool
    ensures { IsTrue result ↔ (x.now ≡ y.now) }
{
    if x.name() != y.name() {
        return false;
    }
    if x.old() != y.old() {
        return false;
    }
    x.new_value() == y.new_value()
}

fn is_add_file<A: Allocator, B: Allocator>(prim: &Prim<A>, path: &Path<B>) -> bool
    ensures { IsTrue result ↔ (prim_of prim.now ≡ primitives.At path.now primitives.AddFile) }
{
    match prim {
        Prim::AddFile(p) => p.same(path),
        _ => false,
    }
}

fn is_rm_file<A: Allocator, B: Allocator>(prim: &Prim<A>, path: &Path<B>) -> bool
    ensures { IsTrue result ↔ (prim_of prim.now ≡ primitives.At path.now primitives.RmFile) }
{
    match prim {
        Prim::RmFile(p) => p.same(path),
        _ => false,
    }
}

fn is_add_dir<A: Allocator, B: Allocator>(prim: &Prim<A>, path: &Path<B>) -> bool
    ensures { IsTrue result ↔ (prim_of prim.now ≡ primitives.At path.now primitives.AddDir) }
{
    match prim {
        Prim::AddDir(p) => p.same(path),
        _ => false,
    }
}

fn is_rm_dir<A: Allocator, B: Allocator>(prim: &Prim<A>, path: &Path<B>) -> bool
    ensures { IsTrue result ↔ (prim_of prim.now ≡ primitives.At path.now primitives.RmDir) }
{
    match prim {
        Prim::RmDir(p) => p.same(path),
        _ => false,
    }
}

fn is_move<A: Allocator, B: Allocator>(prim: &Prim<A>, from: &Path<B>, to: &Path<B>) -> bool
    ensures { IsTrue result ↔ (prim_of prim.now ≡ primitives.Move from.now to.now) }
{
    match prim {
        Prim::Move(p, q) => p.same(from) && q.same(to),
        _ => false,
    }
}

fn is_hunk<A: Allocator, B: Allocator>(prim: &Prim<A>, hunk: &Hunk<B>) -> bool
    ensures { IsTrue result ↔ (prim_of prim.now ≡ hunk_of hunk.now) }
{
    match prim {
        Prim::Hunk(h) => same_hunk(h, hunk),
        _ => false,
    }
}

fn is_binary<A: Allocator, B: Allocator>(prim: &Prim<A>, binary: &Binary<B>) -> bool
    ensures { IsTrue result ↔ (prim_of prim.now ≡ binary_of binary.now) }
{
    match prim {
        Prim::Binary(b) => same_binary(b, binary),
        _ => false,
    }
}

fn is_replace<A: Allocator, B: Allocator>(prim: &Prim<A>, replace: &Replace<B>) -> bool
    ensures { IsTrue result ↔ (prim_of prim.now ≡ replace_of replace.now) }
{
    match prim {
        Prim::Replace(r) => same_replace(r, replace),
        _ => false,
    }
}

fn is_preference<A: Allocator, B: Allocator>(prim: &Prim<A>, change: &Preference<B>) -> bool
    ensures { IsTrue result ↔ (prim_of prim.now ≡ preference_of change.now) }
{
    match prim {
        Prim::ChangePref(c) => same_preference(c, change),
        _ => false,
    }
}

fn same_prim<A: Allocator, B: Allocator>(x: &Prim<A>, y: &Prim<B>) -> bool
    ensures { IsTrue result ↔ (prim_of x.now ≡ prim_of y.now) }
{
    match y {
        Prim::AddFile(path) => is_add_file(x, path),
        Prim::RmFile(path) => is_rm_file(x, path),
        Prim::AddDir(path) => is_add_dir(x, path),
        Prim::RmDir(path) => is_rm_dir(x, path),
        Prim::Move(from, to) => is_move(x, from, to),
        Prim::Hunk(hunk) => is_hunk(x, hunk),
        Prim::Binary(binary) => is_binary(x, binary),
        Prim::Replace(replace) => is_replace(x, replace),
        Prim::ChangePref(change) => is_preference(x, change),
    }
}

fn same_prims<A: Allocator, B: Allocator>(xs: &[Prim<A>], ys: &[Prim<B>]) -> bool
    ensures { IsTrue result ↔ (prims_of xs.now ≡ prims_of ys.now) }
{
    if xs.len() != ys.len() {
        return false;
    }
    for i in 0..xs.len() {
        if !same_prim(&xs[i], &ys[i]) {
            return false;
        }
    }
    true
}

fn same_infos<A: Allocator, B: Allocator>(xs: &[Info<A>], ys: &[Info<B>]) -> bool
    ensures { IsTrue result ↔ (xs.now ≡ ys.now) }
{
    if xs.len() != ys.len() {
        return false;
    }
    for i in 0..xs.len() {
        if !xs[i].same(&ys[i]) {
            return false;
        }
    }
    true
}

fn same_patch<A: Allocator, B: Allocator>(x: &Named<A>, y: &Named<B>) -> bool
    ensures { IsTrue result ↔ (x.now ≡ y.now) }
{
    if !x.info().same(y.info()) {
        return false;
    }
    if !same_infos(x.deps(), y.deps()) {
        return false;
    }
    same_prims(x.prims(), y.prims())
}

/// Whether two lists of patches are the same.
pub(crate) fn same_patches<A: Allocator, B: Allocator>(xs: &[Named<A>], ys: &[Named<B>]) -> bool
    ensures { IsTrue result ↔ (xs.now ≡ ys.now) }
{
    if xs.len() != ys.len() {
        return false;
    }
    for i in 0..xs.len() {
        if !same_patch(&xs[i], &ys[i]) {
            return false;
        }
    }
    true
}
