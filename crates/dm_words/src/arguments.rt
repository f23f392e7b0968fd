//! What a command takes.
ghost use Rattle.std.specs.Prelude.{codes, IfOk};
ghost use Rattle.dm_words.specs.Words.{Excludes, IsNamed, Wants};

use crate::help;
use clap::{Arg, ArgAction, value_parser};
use std::alloc::{AllocError, Global};

/// A word that names a file.
pub fn file<'a>(alloc: Global, name: &'a str, help: &'a str) -> Arg<'a>
    ensures { IsNamed result name.now }
{
    Arg::new(alloc, name)
        .long(name)
        .value_name("FILE")
        .help(help)
}

/// The word that names a repository of one's own.
pub fn repository<'a>(alloc: Global) -> Result<Arg<'a>, AllocError>
    ensures name { IfOk result (λ arg. IsNamed arg (codes "repository")) }
    ensures excludes { IfOk result (λ arg. Excludes arg (codes "base")) }
{
    let bare = file(alloc, "repository", help::REPOSITORY);
    let alone = bare.conflicts_with("base")?;
    Ok(alone)
}

/// The word that asks for a bundle.
pub fn bundle<'a>(alloc: Global) -> Arg<'a>
    ensures { IsNamed result (codes "bundle") }
{
    Arg::new(alloc, "bundle")
        .long("bundle")
        .action(ArgAction::SetTrue)
        .help(help::BUNDLE)
}

/// The word that has patches skipped.
pub fn skip<'a>(alloc: Global) -> Arg<'a>
    ensures { IsNamed result (codes "skip") }
{
    Arg::new(alloc, "skip")
        .long("skip")
        .action(ArgAction::SetTrue)
        .help(help::SKIP)
}

/// The word that asks for an explanation.
pub fn explain<'a>(alloc: Global) -> Arg<'a>
    ensures { IsNamed result (codes "explain") }
{
    Arg::new(alloc, "explain")
        .long("explain")
        .action(ArgAction::SetTrue)
        .help(help::EXPLAIN)
}

/// A word that takes a number, which has to be there.
pub fn number<'a>(alloc: Global, name: &'a str, value: &'a str, help: &'a str) -> Arg<'a>
    ensures { IsNamed result name.now }
{
    Arg::new(alloc, name)
        .long(name)
        .value_name(value)
        .value_parser(value_parser!(u32))
        .required(true)
        .help(help)
}

/// The words of posters with their files.
pub fn posters<'a>(alloc: Global) -> Arg<'a> {
    Arg::new(alloc, "posters")
        .value_name("POSTER=FILE")
        .action(ArgAction::Append)
        .help(help::POSTERS)
}

/// The word that says how many patches are sent.
pub fn first<'a>(alloc: Global) -> Arg<'a>
    ensures { IsNamed result (codes "first") }
{
    Arg::new(alloc, "first")
        .long("first")
        .value_name("N")
        .value_parser(value_parser!(u32))
        .help(help::FIRST)
}

/// The word that asks for the least context.
pub fn minimal<'a>(alloc: Global) -> Arg<'a>
    ensures { IsNamed result (codes "minimal") }
{
    Arg::new(alloc, "minimal")
        .long("minimal")
        .action(ArgAction::SetTrue)
        .help(help::MINIMAL)
}

/// The word that names a mirror's file.
pub fn mirror<'a>(alloc: Global, help: &'a str) -> Arg<'a>
    ensures { IsNamed result (codes "mirror") }
{
    file(alloc, "mirror", help)
}

/// The word that has nobody wait.
pub fn no_wait<'a>(alloc: Global) -> Arg<'a>
    ensures { IsNamed result (codes "no-wait") }
{
    Arg::new(alloc, "no-wait")
        .long("no-wait")
        .action(ArgAction::SetTrue)
        .help(help::NO_WAIT)
}

/// The same word, which stands beside `--mirror` alone.
pub fn no_wait_at_mirror<'a>(alloc: Global) -> Result<Arg<'a>, AllocError> {
    no_wait(alloc).requires_arg("mirror")
}

/// The word that leaves a mirror as it is, beside `--mirror` alone.
pub fn dry_run_at_mirror<'a>(alloc: Global) -> Result<Arg<'a>, AllocError> {
    flag(alloc, "dry-run", help::APPLY_DRY_RUN).requires_arg("mirror")
}

/// The word that leaves a mirror as it is.
pub fn dry_run<'a>(alloc: Global) -> Result<Arg<'a>, AllocError> {
    flag(alloc, "dry-run", help::OBLITERATE_DRY_RUN).conflicts_with("output")
}

/// The word that has verdicts printed alone.
pub fn quiet<'a>(alloc: Global) -> Result<Arg<'a>, AllocError> {
    flag(alloc, "quiet", help::QUIET).conflicts_with("bundle")
}

/// The word that asks for places.
pub fn places<'a>(alloc: Global) -> Result<Arg<'a>, AllocError> {
    flag(alloc, "places", help::PLACES)
        .conflicts_with("count")?
        .conflicts_with("context")
}

/// The word that asks for JSON.
pub fn json<'a>(alloc: Global) -> Result<Arg<'a>, AllocError> {
    flag(alloc, "json", help::JSON)
        .conflicts_with("verbose")?
        .conflicts_with("places")?
        .conflicts_with("count")?
        .conflicts_with("context")?
        .conflicts_with("kinds")
}

/// The word that asks for what rests on each patch of a repository, in JSON.
pub fn rests<'a>(alloc: Global) -> Result<Arg<'a>, AllocError> {
    flag(alloc, "rests", help::RESTS)
        .requires_arg("json")?
        .conflicts_with("bundle")
}

/// The word that asks for an answer as JSON, in the place of this one.
pub fn answer_as_json<'a>(alloc: Global, other: &'a str) -> Result<Arg<'a>, AllocError> {
    flag(alloc, "json", help::ANSWER_JSON).conflicts_with(other)
}

/// The word that has patches counted.
pub fn count<'a>(alloc: Global) -> Result<Arg<'a>, AllocError> {
    flag(alloc, "count", help::COUNT)
        .conflicts_with("verbose")?
        .conflicts_with("reverse")
}

/// The word that asks for a context.
pub fn context<'a>(alloc: Global) -> Result<Arg<'a>, AllocError> {
    flag(alloc, "context", help::CONTEXT)
        .conflicts_with("verbose")?
        .conflicts_with("reverse")?
        .conflicts_with("count")?
        .conflicts_with("last")
}

/// The word that has bundles come one after the other.
pub fn stream<'a>(alloc: Global) -> Result<Arg<'a>, AllocError>
    ensures name { IfOk result (λ arg. IsNamed arg (codes "stream")) }
    ensures wants { IfOk result (λ arg. Wants arg (codes "mirror")) }
    ensures excludes { IfOk result (λ arg. Excludes arg (codes "bundles")) }
{
    let bare = flag(alloc, "stream", help::STREAM);
    let alone = bare.conflicts_with("bundles")?;
    let arg = alone.requires_arg("mirror")?;
    Ok(arg)
}

/// The words that name bundles.
pub fn bundles<'a>(alloc: Global) -> Arg<'a> {
    Arg::new(alloc, "bundles")
        .value_name("BUNDLE")
        .action(ArgAction::Append)
        .help(help::BUNDLES)
}

/// The word that names one bundle.
pub fn one_bundle<'a>(alloc: Global, help: &'a str) -> Arg<'a> {
    place(alloc, "bundle", "BUNDLE", help)
}

/// A word that is there or not.
pub fn flag<'a>(alloc: Global, name: &'a str, help: &'a str) -> Arg<'a>
    ensures { IsNamed result name.now }
{
    Arg::new(alloc, name)
        .long(name)
        .action(ArgAction::SetTrue)
        .help(help)
}

/// The word that wants a right hash behind each bundle.
pub fn hash<'a>(alloc: Global) -> Arg<'a>
    ensures { IsNamed result (codes "hash") }
{
    flag(alloc, "hash", help::HASH)
}

/// The word that has binaries and changes of preferences read, too.
pub fn all_kinds<'a>(alloc: Global, help: &'a str) -> Arg<'a>
    ensures { IsNamed result (codes "all-kinds") }
{
    flag(alloc, "all-kinds", help)
}

/// The word by which a new mirror reads no more than six kinds.
pub fn six_kinds<'a>(alloc: Global) -> Result<Arg<'a>, AllocError> {
    flag(alloc, "six-kinds", help::SIX_KINDS).conflicts_with("all-kinds")
}

/// The same word, which stands beside `--mirror` alone.
pub fn six_kinds_at_mirror<'a>(alloc: Global) -> Result<Arg<'a>, AllocError> {
    six_kinds(alloc)?.requires_arg("mirror")
}

/// The word that has the kinds and the format of a mirror's file told.
pub fn told_kinds<'a>(alloc: Global) -> Result<Arg<'a>, AllocError> {
    flag(alloc, "kinds", help::KINDS)
        .conflicts_with("context")?
        .conflicts_with("count")?
        .conflicts_with("last")?
        .conflicts_with("places")?
        .conflicts_with("reverse")?
        .conflicts_with("verbose")?
        .conflicts_with("base")?
        .conflicts_with("repository")?
        .conflicts_with("bundle")
}

/// The word that has the text of each patch printed.
pub fn verbose<'a>(alloc: Global) -> Arg<'a> {
    flag(alloc, "verbose", help::VERBOSE).short('v')
}

/// The word that says how many entries are printed; `git log` has another name for it, too.
pub fn last<'a>(alloc: Global) -> Result<Arg<'a>, AllocError>
    ensures { IfOk result (λ arg. IsNamed arg (codes "last")) }
{
    Arg::new(alloc, "last")
        .long("last")
        .short('n')
        .value_name("N")
        .value_parser(value_parser!(u32))
        .help(help::LAST)
        .alias("max-count")
}

/// A word that takes a text.
pub fn text<'a>(alloc: Global, name: &'a str, value: &'a str, help: &'a str) -> Arg<'a>
    ensures { IsNamed result name.now }
{
    Arg::new(alloc, name)
        .long(name)
        .value_name(value)
        .help(help)
}

/// The word that names the file of a bundle that is made.
pub fn output<'a>(alloc: Global, help: &'a str) -> Arg<'a>
    ensures { IsNamed result (codes "output") }
{
    text(alloc, "output", "BUNDLE", help).short('o')
}

/// The word that names the patches that a tag covers.
pub fn names<'a>(alloc: Global) -> Result<Arg<'a>, AllocError>
    ensures name { IfOk result (λ arg. IsNamed arg (codes "names")) }
    ensures wants { IfOk result (λ arg. Wants arg (codes "folder")) }
    ensures excludes_base { IfOk result (λ arg. Excludes arg (codes "base")) }
    ensures excludes_repository { IfOk result (λ arg. Excludes arg (codes "repository")) }
{
    let arg = names_beside_repository(alloc)?;
    let alone = arg.conflicts_with("repository")?;
    Ok(alone)
}

/// The same word, which can stand beside `--repository`.
fn names_beside_repository<'a>(alloc: Global) -> Result<Arg<'a>, AllocError>
    ensures name { IfOk result (λ arg. IsNamed arg (codes "names")) }
    ensures wants { IfOk result (λ arg. Wants arg (codes "folder")) }
    ensures excludes { IfOk result (λ arg. Excludes arg (codes "base")) }
{
    let bare = text(alloc, "names", "NAMES", help::NAMES);
    let alone = bare.conflicts_with("base")?;
    let arg = alone.requires_arg("folder")?;
    Ok(arg)
}

/// The word that passes over what is neither a directory nor a file.
pub fn skip_special<'a>(alloc: Global) -> Result<Arg<'a>, AllocError>
    ensures name { IfOk result (λ arg. IsNamed arg (codes "skip-special")) }
    ensures wants { IfOk result (λ arg. Wants arg (codes "names")) }
{
    let bare = flag(alloc, "skip-special", help::SKIP_SPECIAL);
    let arg = bare.requires_arg("names")?;
    Ok(arg)
}

/// A word that stands for itself, by its place.
pub fn place<'a>(alloc: Global, name: &'a str, value: &'a str, help: &'a str) -> Arg<'a> {
    Arg::new(alloc, name).value_name(value).help(help)
}

/// The word that names the folder with which a mirror begins.
pub fn folder<'a>(alloc: Global) -> Result<Arg<'a>, AllocError>
    ensures wants { IfOk result (λ arg. Wants arg (codes "names")) }
    ensures excludes_base { IfOk result (λ arg. Excludes arg (codes "base")) }
    ensures excludes_repository { IfOk result (λ arg. Excludes arg (codes "repository")) }
{
    let arg = folder_beside_repository(alloc)?;
    let alone = arg.conflicts_with("repository")?;
    Ok(alone)
}

/// The same word, which can stand beside `--repository`.
fn folder_beside_repository<'a>(alloc: Global) -> Result<Arg<'a>, AllocError>
    ensures wants { IfOk result (λ arg. Wants arg (codes "names")) }
    ensures excludes { IfOk result (λ arg. Excludes arg (codes "base")) }
{
    let bare = place(alloc, "folder", "FOLDER", help::FOLDER);
    let alone = bare.conflicts_with("base")?;
    let arg = alone.requires_arg("names")?;
    Ok(arg)
}

/// The words that choose patches of a mirror.
pub fn patches<'a>(alloc: Global) -> Arg<'a> {
    Arg::new(alloc, "patches")
        .value_name("PATCH")
        .action(ArgAction::Append)
        .required(true)
        .help(help::PATCHES)
}
