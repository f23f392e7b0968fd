//! What is given of a repository as text.
ghost use Rattle.std.specs.Prelude.{◌≡◌, ◌⊎◌, IfOk, IfErr};
ghost use Rattle.dm_c.specs.Calls.{GivesOf, NoOther};
ghost use Rattle.dm_c.specs.Handles.{held};
ghost use Rattle.dm_c.specs.Showing.{IsAllInOne, IsContext, IsListing, IsNameAt, IsNoPlace};

use crate::buffer::give_text;
use crate::handle::Handle;
use crate::status::Status;
use dm_bundle::write_bundle;
use dm_info::push_info;
use dm_log::write_context;
use dm_repo::Repo;
use dm_scratch::push_listing;
use std::alloc::Global;

/// The listing of its tree.
fn listing(alloc: Global, repo: &Repo<Global>) -> Result<Vec<u8>, Status>
    ensures ok { IfOk result (λ text. IsListing repo.now.patches text.items) }
    ensures err { IfErr result (λ why. why ≡ Status.NoMemory) }
{
    let mut text = Vec::new(alloc);
    push_listing(repo.tree(), &mut text)?;
    Ok(text)
}

/// The patch info at a place.
fn name(alloc: Global, repo: &Repo<Global>, place: usize) -> Result<Vec<u8>, Status>
    ensures ok { IfOk result (λ text. IsNameAt place repo.now.patches text.items) }
    ensures err { IfErr result (λ why. (why ≡ Status.NoMemory) ⊎ IsNoPlace place repo.now.patches why) }
{
    if place >= repo.len() {
        return Err(Status::Nothing);
    }
    let mut text = Vec::new(alloc);
    push_info(repo.patch(place).info(), &mut text)?;
    Ok(text)
}

/// Its names.
fn context(alloc: Global, repo: &Repo<Global>) -> Result<Vec<u8>, Status>
    ensures ok { IfOk result (λ text. IsContext repo.now.patches text.items) }
    ensures err { IfErr result (λ why. why ≡ Status.NoMemory) }
{
    let text = write_context(alloc, repo)?;
    Ok(text)
}

/// Its patches as one bundle.
fn all_in_one(alloc: Global, repo: &Repo<Global>) -> Result<Vec<u8>, Status>
    ensures ok { IfOk result (λ text. IsAllInOne repo.now.patches text.items) }
    ensures err { IfErr result (λ why. why ≡ Status.NoMemory) }
{
    let bundle = repo.to_bundle(alloc)?;
    let text = write_bundle(alloc, &bundle)?;
    Ok(text)
}

/// `dm_repo_listing`: its tree, as `dm apply` lists it.
#[unsafe(no_mangle)]
pub extern "C" fn dm_repo_listing(
    alloc: Global,
    repo: &mut Handle,
    out: &mut [u8],
    needed: &mut usize,
) -> u32
    ensures same { held repo.new ≡ held repo.old }
    ensures text { GivesOf IsListing NoOther (held repo.old) out.old out.new needed.old needed.new result }
{
    let Some(inside) = repo.take_out(alloc) else {
        return Status::NoRepo.number();
    };
    let text = listing(alloc, &inside);
    repo.put(inside);
    give_text(text, out, needed)
}

/// `dm_repo_name`: the patch info at a place; the oldest is at 0.
#[unsafe(no_mangle)]
pub extern "C" fn dm_repo_name(
    alloc: Global,
    repo: &mut Handle,
    place: usize,
    out: &mut [u8],
    needed: &mut usize,
) -> u32
    ensures same { held repo.new ≡ held repo.old }
    ensures text { GivesOf (IsNameAt place) (IsNoPlace place) (held repo.old) out.old out.new needed.old needed.new result }
{
    let Some(inside) = repo.take_out(alloc) else {
        return Status::NoRepo.number();
    };
    let text = name(alloc, &inside, place);
    repo.put(inside);
    give_text(text, out, needed)
}

/// `dm_repo_context`: its names, as `dm log --context` prints them.
#[unsafe(no_mangle)]
pub extern "C" fn dm_repo_context(
    alloc: Global,
    repo: &mut Handle,
    out: &mut [u8],
    needed: &mut usize,
) -> u32
    ensures same { held repo.new ≡ held repo.old }
    ensures text { GivesOf IsContext NoOther (held repo.old) out.old out.new needed.old needed.new result }
{
    let Some(inside) = repo.take_out(alloc) else {
        return Status::NoRepo.number();
    };
    let text = context(alloc, &inside);
    repo.put(inside);
    give_text(text, out, needed)
}

/// `dm_repo_bundle`: its patches as one bundle, as `dm apply --bundle` prints it.
#[unsafe(no_mangle)]
pub extern "C" fn dm_repo_bundle(
    alloc: Global,
    repo: &mut Handle,
    out: &mut [u8],
    needed: &mut usize,
) -> u32
    ensures same { held repo.new ≡ held repo.old }
    ensures text { GivesOf IsAllInOne NoOther (held repo.old) out.old out.new needed.old needed.new result }
{
    let Some(inside) = repo.take_out(alloc) else {
        return Status::NoRepo.number();
    };
    let text = all_in_one(alloc, &inside);
    repo.put(inside);
    give_text(text, out, needed)
}
