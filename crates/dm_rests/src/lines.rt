//! A line of JSON for each patch of a repository, with the patches that rest on it.
ghost use Rattle.std.specs.Prelude.{◌≡◌, ◌++◌, List, ℕ, IfOk, OnOk};
ghost use Rattle.serde_json.specs.View.{view};
ghost use Rattle.dm_info.specs.PatchInfo.{PatchInfo};
ghost use Rattle.dm_log.specs.Finding.{hash_text};
ghost use Rattle.dm_log.specs.Json.{texts};
ghost use Rattle.dm_rests.specs.Rests.{Directly, IsRestsLine, IsRestsText, RestOn};

use dm_info::Info;
use dm_log::{LogOptions, count_of, hash_value, patch_object, place_of};
use dm_named::Named;
use dm_repo::Repo;
use dm_send::bound_to;
use serde_json::Value;
use std::alloc::{AllocError, Global};

/// The hashes of the patches that are bound to the one of this name, and not to another one.
fn direct_value(
    alloc: Global,
    info: &Info<Global>,
    bound: &[(Info<Global>, Info<Global>)],
) -> Result<Value, AllocError>
    ensures { IfOk result (λ v. (names : List PatchInfo) × Directly info.now bound.now names × (view v ≡ texts hash_text names)) }
{
    let mut list = Vec::new(alloc);
    for pair in bound {
        if pair.1.same(info) {
            list.push(hash_value(alloc, &pair.0)?)?;
        }
    }
    Ok(Value::Array(list))
}

/// The hashes of the patches of a repository that rest on the one of this name.
fn rests_value(alloc: Global, repo: &Repo<Global>, info: &Info<Global>) -> Result<Value, AllocError>
    ensures { IfOk result (λ v. (names : List PatchInfo) × RestOn repo.now.patches info.now names × (view v ≡ texts hash_text names)) }
{
    let mut chosen = Vec::new(alloc);
    chosen.push(info.copy_into(alloc)?)?;
    let bound = bound_to(alloc, repo, &chosen)?;
    let value = direct_value(alloc, info, &bound)?;
    Ok(value)
}

/// The line of a patch of a repository.
fn rests_line(
    alloc: Global,
    repo: &Repo<Global>,
    place: usize,
    patch: &Named<Global>,
) -> Result<Vec<u8>, AllocError>
    ensures { IfOk result (λ line. IsRestsLine repo.now.patches (place, patch.now) line.items) }
{
    let mut object = patch_object(alloc, place, patch)?;
    let rests = rests_value(alloc, repo, patch.info())?;
    object.put("needed_by", rests)?;
    let mut line = object.into_value().to_vec(alloc)?;
    line.push(b'\n')?;
    Ok(line)
}

/// A line of JSON for each patch that is chosen, as `dm_log::write_json` writes it, and with the hashes of those that rest on it: if it
/// goes they have to go too, and of what goes it is the nearest that stops them.
///
/// For each patch the repository is looked through once, so that of all takes as many steps as the square of their number.
pub fn write_rests(
    alloc: Global,
    repo: &Repo<Global>,
    options: LogOptions,
) -> Result<Vec<u8>, AllocError>
    ensures { IfOk result (λ text. IsRestsText options repo.now.patches text.items) }
{
    let all = repo.len();
    let count = count_of(options.last, all);
    let mut text = Vec::new(alloc);
    for k in 0..count {
        let i = place_of(options.reverse, all, count, k);
        let line = rests_line(alloc, repo, i + 1, repo.patch(i))?;
        text.extend_from_slice(&line)?;
    }
    Ok(text)
}
