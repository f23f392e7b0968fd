//! Going through a folder, directory by directory.
ghost use Rattle.std.specs.Prelude.{◌≡◌, ◌≢◌, ◌++◌, ◌∷◌, [], List, map, IfOk, IfErr, OnOk};
ghost use Rattle.dm_tree.specs.Validity.{is_name};
ghost use Rattle.dm_checkout.specs.Places.{place_text};
ghost use Rattle.dm_folder.specs.Found.{Told, told};
ghost use Rattle.dm_folder.specs.Walks.{IsWalk, is_left_out, kind_refusal, name_place, path_of, refused_in, refused_of, refused_of_listing, refused_when, row_of, row_when, rows_in, rows_of_listing};
ghost use Rattle.dm_folder.specs.Keeps.{Keeps};
ghost use Rattle.dm_folder.specs.Faults.{IsListFault, IsTrouble};

use crate::fault::{FolderFault, Refused, Why};
use crate::found::{Found, Kind};
use crate::row::{Dir, Row};
use crate::source::Source;
use dm_checkout::{Place, place_of};
use dm_tree::{Path, PathFault};
use std::alloc::{AllocError, Global};

/// What is done with what is neither a directory nor a file.
#[derive(Clone, Copy, Debug, PartialEq, Eq)]
pub enum Special {
    /// It is refused.
    Refuse,
    /// It is left out.
    Skip,
}

/// What a folder has: the directories and files, and what no tree may have.
#[derive(Drop)]
pub(crate) struct Walk {
    pub(crate) rows: Vec<Row>,
    pub(crate) refused: Vec<Refused>,
}

/// What the folder has, with each directory before what is inside it.
pub(crate) fn walk_folder<S: Source>(
    alloc: Global,
    source: &mut S,
    top: &str,
    special: Special,
) -> Result<Walk, FolderFault>
    ensures ok { IfOk result (λ walk. IsWalk (S.Lists source.new) special top.now (rows_in walk.rows.items) (rows_in walk.rows.items) (refused_in walk.refused.items)) }
    ensures err { IfErr result (IsListFault (S.Lists source.new) (S.Fails source.new) special top.now) }
    ensures keeps { Keeps (S.Lists source.old) (S.Lists source.new) (S.Holds source.old) (S.Holds source.new) (S.Fails source.old) (S.Fails source.new) }
{
    let mut walk = Walk {
        rows: Vec::new(alloc),
        refused: Vec::new(alloc),
    };
    list_into(alloc, source, top, special, &Dir::Top, &mut walk)?;
    let mut i = 0;
    while i < walk.rows.len() {
        if walk.rows[i].is_dir {
            let dir = Dir::In(walk.rows[i].path.copy_into(alloc)?);
            list_into(alloc, source, top, special, &dir, &mut walk)?;
        }
        i += 1;
    }
    Ok(walk)
}

/// Adds what is right inside a directory.
fn list_into<S: Source>(
    alloc: Global,
    source: &mut S,
    top: &str,
    special: Special,
    dir: &Dir,
    walk: &mut Walk,
) -> Result<(), FolderFault>
    ensures ok { OnOk result ((found : List Told) × S.Lists source.new (place_text top.now (path_of dir.now)) found
        × (rows_in walk.new.rows.items ≡ rows_in walk.old.rows.items ++ rows_of_listing special (path_of dir.now, found))
        × (refused_in walk.new.refused.items ≡ refused_in walk.old.refused.items ++ refused_of_listing special top.now (path_of dir.now, found))) }
    ensures err { IfErr result (IsTrouble (S.Fails source.new) (place_text top.now (path_of dir.now))) }
    ensures keeps { Keeps (S.Lists source.old) (S.Lists source.new) (S.Holds source.old) (S.Holds source.new) (S.Fails source.old) (S.Fails source.new) }
{
    let place = place_of_dir(alloc, top, dir)?;
    let found = match source.list(&place) {
        Ok(found) => found,
        Err(trouble) => return Err(FolderFault::Unread(Place { bytes: place }, trouble)),
    };
    for one in &found {
        add_found(alloc, special, &place, dir, one, walk)?;
    }
    Ok(())
}

fn place_of_dir(alloc: Global, top: &str, dir: &Dir) -> Result<Vec<u8>, AllocError>
    ensures { IfOk result (λ place. place.items ≡ place_text top.now (path_of dir.now)) }
{
    match dir {
        Dir::Top => Vec::from_slice(alloc, top.as_bytes()),
        Dir::In(path) => place_of(alloc, top, path),
    }
}

/// Adds one name of the directory at this place.
fn add_found(
    alloc: Global,
    special: Special,
    place: &[u8],
    dir: &Dir,
    found: &Found,
    walk: &mut Walk,
) -> Result<(), AllocError>
    ensures rows { OnOk result (rows_in walk.new.rows.items ≡ rows_in walk.old.rows.items ++ row_of special (path_of dir.now) (told found.now)) }
    ensures refused { OnOk result (refused_in walk.new.refused.items ≡ refused_in walk.old.refused.items ++ refused_of special place.now (path_of dir.now) (told found.now)) }
{
    if is_left_out(special, dir, found) {
        return Ok(());
    }
    match Path::from_owned(names_of(alloc, dir, &found.name)?) {
        Ok(path) => add_path(alloc, place, path, found, walk),
        Err(fault) => refuse_path(alloc, place, &found.name, fault, &mut walk.refused),
    }
}

/// Adds what no path may have.
fn refuse_path(
    alloc: Global,
    place: &[u8],
    name: &[u8],
    fault: PathFault,
    refused: &mut Vec<Refused>,
) -> Result<(), AllocError>
    ensures { OnOk result ((fault ≢ PathFault.NoMemory) × (refused_in refused.new.items ≡ refused_in refused.old.items ++ (name_place place.now name.now, Why.Path fault) ∷ [])) }
{
    match fault {
        PathFault::NoMemory => Err(AllocError),
        _ => refuse(alloc, place, name, Why::Path(fault), refused),
    }
}

/// Whether it is no part of the tree, and not to blame for it.
fn is_left_out(special: Special, dir: &Dir, found: &Found) -> bool
    ensures { result ≡ is_left_out special (path_of dir.now) (told found.now) }
{
    if found.kind == Kind::Other && special == Special::Skip {
        return true;
    }
    let depth = match dir {
        Dir::Top => 0,
        Dir::In(path) => path.len(),
    };
    depth == 0 && is_same(&found.name, b"_darcs")
}

/// Whether both are the same bytes.
pub(crate) fn is_same(name: &[u8], word: &[u8]) -> bool
    ensures { result ≡ is_name name.now word.now }
{
    name.cmp(word).is_eq()
}

/// The names of the path of a name in a directory.
fn names_of(alloc: Global, dir: &Dir, name: &[u8]) -> Result<Vec<Vec<u8>>, AllocError>
    ensures { IfOk result (λ names. map (λ v. v.items) names.items ≡ path_of dir.now ++ name.now ∷ []) }
{
    let mut names = match dir {
        Dir::Top => Vec::new(alloc),
        Dir::In(path) => parts_of(alloc, path)?,
    };
    names.push(Vec::from_slice(alloc, name)?)?;
    Ok(names)
}

/// The names of a path.
fn parts_of(alloc: Global, path: &Path<Global>) -> Result<Vec<Vec<u8>>, AllocError>
    ensures { IfOk result (λ names. map (λ v. v.items) names.items ≡ path.now) }
{
    let mut names = Vec::new(alloc);
    for i in 0..path.len() {
        names.push(Vec::from_slice(alloc, path.part(i))?)?;
    }
    Ok(names)
}

/// Adds a path that a tree may have, if what stands there may too.
fn add_path(
    alloc: Global,
    place: &[u8],
    path: Path<Global>,
    found: &Found,
    walk: &mut Walk,
) -> Result<(), AllocError>
    ensures rows { OnOk result (rows_in walk.new.rows.items ≡ rows_in walk.old.rows.items ++ row_when (kind_refusal found.now.kind) path found.now.kind) }
    ensures refused { OnOk result (refused_in walk.new.refused.items ≡ refused_in walk.old.refused.items ++ refused_when (kind_refusal found.now.kind) (name_place place.now found.now.name.items)) }
{
    match found.kind {
        Kind::Dir => walk.rows.push(Row { path, is_dir: true })?,
        Kind::File => walk.rows.push(Row {
            path,
            is_dir: false,
        })?,
        Kind::Other => refuse(
            alloc,
            place,
            &found.name,
            Why::NotRegular,
            &mut walk.refused,
        )?,
        Kind::Unknown => refuse(alloc, place, &found.name, Why::NotUtf8, &mut walk.refused)?,
    }
    Ok(())
}

/// Adds what no tree may have.
fn refuse(
    alloc: Global,
    place: &[u8],
    name: &[u8],
    why: Why,
    refused: &mut Vec<Refused>,
) -> Result<(), AllocError>
    ensures { OnOk result (refused_in refused.new.items ≡ refused_in refused.old.items ++ (name_place place.now name.now, why) ∷ []) }
{
    let mut bytes = Vec::from_slice(alloc, place)?;
    bytes.push(b'/')?;
    bytes.extend_from_slice(name)?;
    refused.push(Refused {
        place: Place { bytes },
        why,
    })?;
    Ok(())
}
