//! Writing a tree to a new folder.
ghost use Rattle.std.specs.Prelude.{◌≡◌, [], ◌∷◌, ◌++◌, List, length, map, IfOk, IfErr, OnOk, OnErr};
ghost use Rattle.dm_tree.specs.Listings.{listed_entry};
ghost use Rattle.dm_checkout.specs.declared.names.Names.TheVariants.{Safe};
ghost use Rattle.dm_checkout.specs.Repositories.{refused};
ghost use Rattle.dm_checkout.specs.Made.{Made, Taken, IsBegun, made_all, made_of, rows};
ghost use Rattle.dm_checkout.specs.Faults.{HasFault, IsAllowed, IsFolderFault, IsNamesFault, IsPartOf, IsUtf8Fault, IsWriteFault, made_item};

use crate::disk::Disk;
use crate::fault::{CheckoutFault, Place};
use crate::item::{Content, Item, item_of};
use crate::names::Names;
use crate::place::place_of;
use crate::refusing::refused_of;
use dm_tree::{Listed, Path, Tree};
use std::alloc::{Allocator, Global};
use std::io::{self, ErrorKind};
use std::str;

/// Who is told how far a checkout is.
pub trait Progress {
    /// So many entries of so many are written.
    fn wrote(&mut self, count: usize, all: usize);
}

/// Nobody is told.
impl Progress for () {
    fn wrote(&mut self, _count: usize, _all: usize) {}
}

/// Writes the tree to a folder, which is made, or is there and empty; its parent has to be there. Returns how many entries
/// were written. After an error what was written before it stays.
///
/// Nobody else may write in the folder meanwhile: a folder that another process puts a link in place of is followed.
pub fn checkout<D: Disk, A: Allocator, P: Progress>(
    alloc: Global,
    disk: &mut D,
    tree: &Tree<A>,
    folder: &str,
    names: Names,
    progress: &mut P,
) -> Result<usize, CheckoutFault>
    ensures made { IfOk result (λ _. D.made disk.new ≡ D.made disk.old ++ made_all folder.now tree.now) }
    ensures count { IfOk result (λ count. count ≡ length (rows tree.now)) }
    ensures allowed { IfOk result (λ _. IsAllowed names tree.now) }
    ensures fault { IfErr result (HasFault names folder.now tree.now (D.made disk.old) (D.made disk.new)) }
{
    let rows = tree.listing(alloc)?;
    require_names(alloc, names, &rows)?;
    require_all_utf8(alloc, &rows)?;
    take(disk, folder)?;
    write_rows(alloc, disk, tree, folder, &rows, progress)?;
    Ok(rows.len())
}

/// Refuses a tree with what other programs obey, where that isn't asked for.
fn require_names<A: Allocator>(
    alloc: Global,
    names: Names,
    rows: &[Listed<A>],
) -> Result<(), CheckoutFault>
    ensures ok { OnOk result (names ≡ Safe → refused (map (λ row. row.path) rows.now) ≡ []) }
    ensures err { IfErr result (IsNamesFault names (refused (map (λ row. row.path) rows.now))) }
{
    match names {
        Names::All => Ok(()),
        Names::Safe => {
            let list = refused_of(alloc, rows)?;
            if list.is_empty() {
                return Ok(());
            }
            Err(CheckoutFault::UnsafeNames(list))
        }
    }
}

/// Refuses a path that is no UTF-8.
fn require_utf8<A: Allocator>(alloc: Global, path: &Path<A>) -> Result<(), CheckoutFault>
    ensures { IfErr result IsUtf8Fault }
{
    for i in 0..path.len() {
        if str::from_utf8(path.part(i)).is_err() {
            let bytes = place_of(alloc, "", path)?;
            return Err(CheckoutFault::NotUtf8(Place { bytes }));
        }
    }
    Ok(())
}

fn require_all_utf8<A: Allocator>(alloc: Global, rows: &[Listed<A>]) -> Result<(), CheckoutFault>
    ensures { IfErr result IsUtf8Fault }
{
    for row in rows {
        require_utf8(alloc, &row.path)?;
    }
    Ok(())
}

/// Takes the folder.
fn take<D: Disk>(disk: &mut D, folder: &str) -> Result<(), CheckoutFault>
    ensures ok { OnOk result (D.made disk.new ≡ D.made disk.old ++ Taken folder.now ∷ []) }
    ensures err { OnErr result (D.made disk.new ≡ D.made disk.old) }
    ensures fault { IfErr result IsFolderFault }
{
    match disk.take(folder) {
        Ok(()) => Ok(()),
        Err(fault) => Err(CheckoutFault::Folder(fault)),
    }
}

/// Makes what is to be made at its place.
fn make_content<D: Disk>(disk: &mut D, item: &Item) -> io::Result<()>
    ensures ok { OnOk result (D.made disk.new ≡ D.made disk.old ++ made_item item.now) }
    ensures err { OnErr result (IsPartOf item.now (D.made disk.old) (D.made disk.new)) }
{
    let Ok(place) = str::from_utf8(&item.place) else {
        return Err(io::Error::from(ErrorKind::InvalidInput));
    };
    match &item.content {
        None => Ok(()),
        Some(Content::Folder) => disk.make_dir(place),
        Some(Content::File(bytes)) => disk.make_file(place, bytes),
    }
}

/// Makes it, or tells the place.
fn make_item<D: Disk>(disk: &mut D, item: Item) -> Result<(), CheckoutFault>
    ensures ok { OnOk result (D.made disk.new ≡ D.made disk.old ++ made_item item) }
    ensures err { OnErr result (IsPartOf item (D.made disk.old) (D.made disk.new)) }
    ensures fault { IfErr result IsWriteFault }
{
    match make_content(disk, &item) {
        Ok(()) => Ok(()),
        Err(error) => Err(CheckoutFault::Unwritten(Place { bytes: item.place }, error)),
    }
}

/// Makes each entry of the tree in turn.
fn write_rows<D: Disk, A: Allocator, P: Progress>(
    alloc: Global,
    disk: &mut D,
    tree: &Tree<A>,
    folder: &str,
    listing: &[Listed<Global>],
    progress: &mut P,
) -> Result<(), CheckoutFault>
    requires { listing.now ≡ map listed_entry (rows tree.now) }
    ensures ok { OnOk result (D.made disk.new ≡ D.made disk.old ++ map (made_of folder.now) (rows tree.now)) }
    ensures err { OnErr result ((done : List Made) × (D.made disk.new ≡ D.made disk.old ++ done) × IsBegun (map (made_of folder.now) (rows tree.now)) done) }
    ensures fault { IfErr result IsWriteFault }
{
    for i in 0..listing.len() {
        let item = item_of(alloc, tree, folder, &listing[i].path)?;
        make_item(disk, item)?;
        progress.wrote(i + 1, listing.len());
    }
    Ok(())
}
