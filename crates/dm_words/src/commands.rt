//! The commands.
use crate::arguments::{
    all_kinds, answer_as_json, bundle, bundles, context, count, dry_run, dry_run_at_mirror,
    explain, file, first, flag, folder, hash, json, last, minimal, mirror, names, no_wait,
    no_wait_at_mirror, number, one_bundle, output, patches, place, places, posters, quiet,
    repository, rests, six_kinds, six_kinds_at_mirror, skip, skip_special, stream, text,
    told_kinds, verbose,
};
use crate::building::Building;
use crate::help;
use clap::{ArgGroup, Command};
use std::alloc::{AllocError, Global};

/// What `dm --version` prints after the program's name. `install` writes the commit, and that it is proved, in the place of what is in
/// parentheses, which is as long.
pub const VERSION: &str = "0.2.0 (commit and proof not stated)";

/// The words of `dm apply`.
fn apply_words<'a>(alloc: Global) -> Result<Command<'a>, AllocError> {
    Building::new(alloc, "apply", help::APPLY, help::AFTER_APPLY)
        .arg(file(alloc, "base", help::APPLY_BASE))
        .try_arg(repository(alloc))
        .arg(mirror(alloc, help::APPLY_MIRROR))
        .try_arg(no_wait_at_mirror(alloc))
        .try_arg(dry_run_at_mirror(alloc))
        .arg(bundle(alloc))
        .try_arg(quiet(alloc))
        .try_arg(answer_as_json(alloc, "bundle"))
        .arg(hash(alloc))
        .arg(all_kinds(alloc, help::READ_ALL_HERE))
        .try_arg(six_kinds_at_mirror(alloc))
        .arg(explain(alloc))
        .arg(skip(alloc))
        .try_arg(stream(alloc))
        .arg(bundles(alloc))
        .done()
}

/// The words of `dm check`.
fn check_words<'a>(alloc: Global) -> Result<Command<'a>, AllocError> {
    Building::new(alloc, "check", help::CHECK, help::AFTER_CHECK)
        .arg(flag(alloc, "paths", help::PATHS))
        .try_arg(answer_as_json(alloc, "paths"))
        .arg(hash(alloc))
        .arg(all_kinds(alloc, help::READ_ALL))
        .arg(explain(alloc))
        .arg(one_bundle(alloc, help::CHECK_BUNDLE))
        .done()
}

/// The words of `dm init`.
fn init_words<'a>(alloc: Global) -> Result<Command<'a>, AllocError> {
    Building::new(alloc, "init", help::INIT, help::AFTER_INIT)
        .arg(mirror(alloc, help::INIT_MIRROR).required(true))
        .arg(file(alloc, "base", help::INIT_BASE))
        .try_arg(repository(alloc))
        .arg(all_kinds(alloc, help::REMEMBER_ALL))
        .try_arg(six_kinds(alloc))
        .try_arg(names(alloc))
        .try_arg(skip_special(alloc))
        .arg(flag(alloc, "json", help::ANSWER_JSON))
        .arg(no_wait(alloc))
        .arg(explain(alloc))
        .try_arg(folder(alloc))
        .done()
}

/// What `dm log` reads, one of these.
fn logged<'a>(alloc: Global) -> Result<ArgGroup<'a>, AllocError> {
    let group = ArgGroup::new(alloc, "what")
        .arg("mirror")?
        .arg("base")?
        .arg("repository")?
        .arg("bundle")?;
    Ok(group.required(true))
}

/// The words of `dm log`.
fn log_words<'a>(alloc: Global) -> Result<Command<'a>, AllocError> {
    Building::new(alloc, "log", help::LOG, help::AFTER_LOG)
        .arg(mirror(alloc, help::MIRROR))
        .arg(file(alloc, "base", help::LOG_BASE))
        .try_arg(repository(alloc))
        .arg(one_bundle(alloc, help::LOG_BUNDLE))
        .try_group(logged(alloc))
        .try_arg(last(alloc))
        .arg(flag(alloc, "reverse", help::REVERSE))
        .arg(verbose(alloc))
        .try_arg(places(alloc))
        .try_arg(json(alloc))
        .try_arg(rests(alloc))
        .try_arg(count(alloc))
        .try_arg(context(alloc))
        .try_arg(told_kinds(alloc))
        .arg(all_kinds(alloc, help::READ_ALL_HERE))
        .try_arg(no_wait_at_mirror(alloc))
        .done()
}

/// The words of `dm checkout`.
fn checkout_words<'a>(alloc: Global) -> Result<Command<'a>, AllocError> {
    Building::new(alloc, "checkout", help::CHECKOUT, help::AFTER_CHECKOUT)
        .arg(mirror(alloc, help::MIRROR).required(true))
        .arg(no_wait(alloc))
        .arg(flag(alloc, "all-names", help::ALL_NAMES))
        .arg(place(alloc, "folder", "FOLDER", help::CHECKOUT_FOLDER).required(true))
        .done()
}

/// The words of `dm obliterate`.
fn obliterate_words<'a>(alloc: Global) -> Result<Command<'a>, AllocError> {
    Building::new(
        alloc,
        "obliterate",
        help::OBLITERATE,
        help::AFTER_OBLITERATE,
    )
    .arg(mirror(alloc, help::MIRROR).required(true))
    .arg(output(alloc, help::OUTPUT))
    .arg(flag(alloc, "with-dependents", help::WITH_DEPENDENTS))
    .try_arg(dry_run(alloc))
    .arg(flag(alloc, "json", help::ANSWER_JSON))
    .arg(no_wait(alloc))
    .arg(explain(alloc))
    .arg(patches(alloc))
    .done()
}

/// The words of `dm rollback`.
fn rollback_words<'a>(alloc: Global) -> Result<Command<'a>, AllocError> {
    Building::new(alloc, "rollback", help::ROLLBACK, help::AFTER_ROLLBACK)
        .arg(mirror(alloc, help::MIRROR).required(true))
        .arg(text(alloc, "author", "AUTHOR", help::AUTHOR).required(true))
        .arg(text(alloc, "date", "DATE", help::DATE))
        .arg(text(alloc, "name", "NAME", help::NAME))
        .arg(text(alloc, "log", "TEXT", help::LOG_TEXT))
        .arg(flag(alloc, "json", help::ANSWER_JSON))
        .arg(no_wait(alloc))
        .arg(patches(alloc))
        .done()
}

/// The words of `dm run`.
fn run_words<'a>(alloc: Global) -> Result<Command<'a>, AllocError> {
    Building::new(alloc, "run", help::RUN, help::AFTER_RUN)
        .arg(number(alloc, "mirrors", "M", help::MIRRORS))
        .arg(number(alloc, "bound", "B", help::BOUND))
        .arg(file(alloc, "base", help::RUN_BASE))
        .try_arg(repository(alloc))
        .arg(explain(alloc))
        .arg(skip(alloc))
        .arg(posters(alloc))
        .done()
}

/// The words of `dm upgrade`.
fn upgrade_words<'a>(alloc: Global) -> Result<Command<'a>, AllocError> {
    Building::new(alloc, "upgrade", help::UPGRADE, help::AFTER_UPGRADE)
        .arg(mirror(alloc, help::MIRROR).required(true))
        .arg(no_wait(alloc))
        .done()
}

/// `dm version`, which people try who know it from elsewhere; the help has `--version` alone.
fn version_words<'a>(alloc: Global) -> Result<Command<'a>, AllocError> {
    Ok(Command::new(alloc, "version").hide(true))
}

/// From what `dm send` sends, one of these.
fn mine<'a>(alloc: Global) -> Result<ArgGroup<'a>, AllocError> {
    let group = ArgGroup::new(alloc, "mine")
        .arg("mirror")?
        .arg("base")?
        .arg("repository")?;
    Ok(group.required(true))
}

/// The words of `dm send`.
fn send_words<'a>(alloc: Global) -> Result<Command<'a>, AllocError> {
    Building::new(alloc, "send", help::SEND, help::AFTER_SEND)
        .arg(mirror(alloc, help::SEND_MIRROR))
        .arg(file(alloc, "base", help::SEND_BASE))
        .try_arg(repository(alloc))
        .try_group(mine(alloc))
        .arg(first(alloc))
        .arg(minimal(alloc))
        .arg(all_kinds(alloc, help::READ_ALL_HERE))
        .arg(flag(alloc, "json", help::ANSWER_JSON))
        .try_arg(no_wait_at_mirror(alloc))
        .arg(explain(alloc))
        .arg(output(alloc, help::SEND_OUTPUT))
        .arg(file(alloc, "to", help::SEND_TO))
        .done()
}

/// The program's own words, without its commands.
fn own_words<'a>(alloc: Global) -> Result<Command<'a>, AllocError> {
    let command = Command::new(alloc, "dm").bin_name("dm")?;
    let command = command.version(VERSION).about(help::DM);
    let command = command.after_help(help::AFTER_ALL);
    Ok(
        command
            .subcommand_required(true)
            .arg_required_else_help(true),
    )
}

/// The commands and their words.
pub fn program<'a>(alloc: Global) -> Result<Command<'a>, AllocError> {
    Building::of(own_words(alloc))
        .try_command(apply_words(alloc))
        .try_command(check_words(alloc))
        .try_command(checkout_words(alloc))
        .try_command(init_words(alloc))
        .try_command(log_words(alloc))
        .try_command(obliterate_words(alloc))
        .try_command(rollback_words(alloc))
        .try_command(run_words(alloc))
        .try_command(send_words(alloc))
        .try_command(upgrade_words(alloc))
        .try_command(version_words(alloc))
        .done()
}
