//! A folder of the system. Each answer of the system is noted once it is there.
ghost use Rattle.std.specs.Prelude.{◌≡◌, ◌++◌, ◌∷◌, [], ℕ, List, map, IfOk};
ghost use Rattle.std.specs.List.{slice_split};
ghost use Rattle.std.specs.List.Sorted.{IsPermutation};
ghost use Rattle.dm_folder.specs.Found.{Told, told};
ghost use Rattle.dm_folder.specs.Events.{Event, IsLater, ended, stood};
ghost use Rattle.dm_folder.specs.Listed.{IsAsked, IsHeldBy, IsListed, IsReading, is_listed, is_zero, kind_of_mode, names_in};

use crate::fault::Trouble;
use crate::found::{Found, Kind};
use crate::record::Record;
use crate::source::Source;
use crate::stamp::{Stamp, kind_of, whole};
use crate::walking::is_same;
use dm_checkout::Reached;
use std::alloc::{AllocError, Global};
use std::fs::{self, File, Files};
use std::io::{self, ErrorKind, Read};
use std::marker::Model;
use std::str;

/// The folders of the system. A symbolic link is never followed, but on the way to the folder. In contracts it is what it was told.
///
/// Nobody else may write in the folder meanwhile. A directory or a file that changes while it is read is told, by its times, its size and its
/// number in the system, but not what changes before or after.
#[derive(Drop)]
pub struct SystemFolder {
    rt: HostRuntime,
    log: Record,
}

impl Model for SystemFolder {
    ghost use Rattle.std.specs.Prelude.{List};
    ghost use Rattle.dm_folder.specs.Events.{Event};

    ghost Value = { List Event };

    ghost view = { λ folder. folder.log.events };
}

impl SystemFolder {
    /// The folders, of which nothing was asked yet.
    pub fn new(rt: HostRuntime) -> SystemFolder
        ensures { result ≡ [] }
    {
        SystemFolder {
            rt,
            log: Record::new(),
        }
    }
}

impl Source for SystemFolder {
    ghost Lists = { λ events place found. IsListed events place found };

    ghost Holds = { λ events place bytes. IsHeldBy events place bytes };

    ghost Fails = { λ _ _ _. Unit {0} };

    fn list(&mut self, place: &[u8]) -> Result<Vec<Found>, Trouble> {
        list_at(&self.rt, &mut self.log, place)
    }

    fn read(&mut self, place: &[u8]) -> Result<Vec<u8>, Trouble> {
        read_at(&self.rt, &mut self.log, place)
    }
}

/// The names in the directory at a place, with what stands under each.
fn list_at(rt: &HostRuntime, log: &mut Record, place: &[u8]) -> Result<Vec<Found>, Trouble>
    ensures ok { IfOk result (λ found. IsListed log.new.events place.now (map told found.items)) }
    ensures later { IsLater log.old.events log.new.events }
{
    let place = text_of(place)?;
    let reached = Reached::at(rt, place)?;
    let before = stamp_of(rt, log, place, &reached, Kind::Dir)?;
    let names = names_at(rt, log, place, &reached)?;
    let found = found_in(rt, log, place, names)?;
    let after = stamp_of(rt, log, place, &reached, Kind::Dir)?;
    if after != before {
        return Err(Trouble::Changed);
    }
    Ok(found)
}

/// The bytes of the file at a place.
fn read_at(rt: &HostRuntime, log: &mut Record, place: &[u8]) -> Result<Vec<u8>, Trouble>
    ensures ok { IfOk result (λ bytes. IsHeldBy log.new.events place.now bytes.items) }
    ensures later { IsLater log.old.events log.new.events }
{
    let place = text_of(place)?;
    let reached = Reached::at(rt, place)?;
    let before = stamp_of(rt, log, place, &reached, Kind::File)?;
    let mut file = File::open(rt, reached.path())?;
    log.opened(place);
    let mut bytes = Vec::with_capacity(rt.alloc(), before.size as usize)?;
    file.read_to_end(&mut bytes)?;
    log.held(&bytes);
    // The stamp is of what the path named before, and then of the open file: a link in its place is another file.
    whole(before, Stamp::of(&file.metadata()?), bytes)
}

fn text_of(place: &[u8]) -> io::Result<&str>
    ensures { IfOk result (λ text. text.now ≡ place.now) }
{
    match str::from_utf8(place) {
        Ok(text) => Ok(text),
        Err(_) => Err(io::Error::from(ErrorKind::InvalidFilename)),
    }
}

/// The stamp of what stands at a place, if it is of this kind.
fn stamp_of(
    rt: &HostRuntime,
    log: &mut Record,
    place: &str,
    reached: &Reached,
    kind: Kind,
) -> Result<Stamp, Trouble>
    ensures ok { IfOk result (λ _. (mode : ℕ) × (kind_of_mode mode ≡ kind) × (log.new.events ≡ stood place.now mode ∷ log.old.events)) }
    ensures later { IsLater log.old.events log.new.events }
{
    let metadata = fs::symlink_metadata(rt, reached.path())?;
    log.stood(place, &metadata);
    if kind_of(&metadata) == kind {
        return Ok(Stamp::of(&metadata));
    }
    Err(match kind {
        Kind::Dir => Trouble::Unread(io::Error::from(ErrorKind::NotADirectory)),
        _ => Trouble::Changed,
    })
}

/// The names in the directory at a place, in the order of their bytes.
fn names_at(
    rt: &HostRuntime,
    log: &mut Record,
    place: &str,
    reached: &Reached,
) -> io::Result<Vec<Vec<u8>>>
    ensures ok { IfOk result (λ names. (read : List Event) × (bytes : List ℕ) × (log.new.events ≡ ended ∷ read) × IsReading place.now log.old.events read bytes × IsPermutation (names_in bytes) (map (λ name. name.items) names.items)) }
    ensures later { IsLater log.old.events log.new.events }
{
    let bytes = bytes_at(rt, log, place, reached)?;
    let mut names = names_of(rt.alloc(), &bytes)?;
    names.sort()?;
    Ok(names)
}

/// The bytes that the directory at a place gives, to its end.
fn bytes_at(
    rt: &HostRuntime,
    log: &mut Record,
    place: &str,
    reached: &Reached,
) -> io::Result<Vec<u8>>
    ensures ok { IfOk result (λ bytes. (read : List Event) × (log.new.events ≡ ended ∷ read) × IsReading place.now log.old.events read bytes.items) }
    ensures later { IsLater log.old.events log.new.events }
{
    let mut dir = rt.open_dir(reached.path())?;
    log.began(place);
    let mut chunk = [0; 8192];
    let mut bytes = Vec::new(rt.alloc());
    for _ in 0..u64::MAX {
        let count = dir.read(&mut chunk)?;
        if count == 0 {
            log.ended();
            return Ok(bytes);
        }
        log.gave(&chunk[..count]);
        bytes.extend_from_slice(&chunk[..count])?;
    }
    Err(io::Error::from(ErrorKind::FileTooLarge))
}

/// The names that a zero byte ends each, without `.` and `..`.
fn names_of(alloc: Global, bytes: &[u8]) -> Result<Vec<Vec<u8>>, AllocError>
    ensures { IfOk result (λ names. map (λ name. name.items) names.items ≡ names_in bytes.now) }
{
    let pieces = pieces_of(alloc, bytes)?;
    let mut names = Vec::new(alloc);
    for piece in &pieces {
        if is_listed(piece) {
            names.push(Vec::from_slice(alloc, piece)?)?;
        }
    }
    Ok(names)
}

/// What stands between the zero bytes.
fn pieces_of(alloc: Global, bytes: &[u8]) -> Result<Vec<&[u8]>, AllocError>
    ensures { IfOk result (λ pieces. map (λ piece. piece.now) pieces.items ≡ slice_split is_zero bytes.now) }
{
    bytes.split(|byte| *byte == 0).collect(alloc)
}

/// Whether it is a name, and not the directory itself or the one above it.
fn is_listed(name: &[u8]) -> bool
    ensures { result ≡ is_listed name.now }
{
    !(is_same(name, b"") || is_same(name, b".") || is_same(name, b".."))
}

/// What stands under each of the names in the directory at a place.
fn found_in(
    rt: &HostRuntime,
    log: &mut Record,
    place: &str,
    names: Vec<Vec<u8>>,
) -> io::Result<Vec<Found>>
    ensures asked { IfOk result (λ found. IsAsked place.now log.old.events log.new.events (map told found.items)) }
    ensures names { IfOk result (λ found. map (λ one. one.name.items) found.items ≡ map (λ name. name.items) names.items) }
    ensures later { IsLater log.old.events log.new.events }
{
    let mut found = Vec::new(rt.alloc());
    for name in names {
        let kind = kind_under(rt, log, place, &name)?;
        found.push(Found { name, kind })?;
    }
    Ok(found)
}

/// What stands under a name in the directory at a place.
fn kind_under(rt: &HostRuntime, log: &mut Record, place: &str, name: &[u8]) -> io::Result<Kind>
    ensures asked { IfOk result (λ kind. (earlier : List Event) (found : List Told) → IsAsked place.now earlier log.old.events found → IsAsked place.now earlier log.new.events (found ++ (name.now, kind) ∷ [])) }
    ensures later { IsLater log.old.events log.new.events }
{
    let text = match str::from_utf8(name) {
        Ok(text) => text,
        Err(_) => return Ok(Kind::Unknown),
    };
    let path = format!(in rt.alloc(); "{place}/{text}")?;
    let reached = Reached::at(rt, path.as_str())?;
    let metadata = fs::symlink_metadata(rt, reached.path())?;
    log.stood(path.as_str(), &metadata);
    Ok(kind_of(&metadata))
}
