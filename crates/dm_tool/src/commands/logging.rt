//! `dm log`.
use dm_bundle::read_bundle_within;
use dm_commands::{ToolFault, context_of, repo_of};
use dm_files::{
    SystemFiles, WordFault, base_of, kinds_of, read_base, read_file, read_repo, refuse_kinds,
    say_base,
};
use dm_log::{LogOptions, Patches, write_context, write_entries, write_json};
use dm_remarks::Reading;
use dm_repo::Repo;
use dm_rests::write_rests;
use dm_scratch::Verdict;
use dm_words::Log;
use std::alloc::Global;
use std::io::{self, ErrorKind, Write};

/// The text that is asked for, of a repository whose first patches, so many of them, are its base.
fn text_of_repo(
    rt: &HostRuntime,
    asked: &Log<'_>,
    repo: &Repo<Global>,
    base: usize,
) -> Result<Vec<u8>, ToolFault> {
    if asked.context {
        return Ok(context_of(rt.alloc(), repo, base)?);
    }
    if asked.rests {
        return Ok(write_rests(rt.alloc(), repo, options_of(asked))?);
    }
    text_of(rt, asked, repo)
}

/// How many of the newest patches are asked for, if not all.
fn last_of(asked: &Log<'_>) -> Option<usize> {
    match asked.last {
        Some(last) => Some(last as usize),
        None => None,
    }
}

/// Which entries are asked for, and how they are shown.
fn options_of(asked: &Log<'_>) -> LogOptions {
    LogOptions {
        last: last_of(asked),
        reverse: asked.reverse,
        verbose: asked.verbose,
        places: asked.places,
    }
}

/// The text that is asked for, but for a context.
fn text_of<P: Patches>(
    rt: &HostRuntime,
    asked: &Log<'_>,
    patches: &P,
) -> Result<Vec<u8>, ToolFault> {
    if asked.count {
        let count = match last_of(asked) {
            Some(last) => patches.count().min(last),
            None => patches.count(),
        };
        let line = format!(in rt.alloc(); "{count}\n")?;
        return Ok(line.into_bytes());
    }
    let options = options_of(asked);
    if asked.json {
        return Ok(write_json(rt.alloc(), patches, options)?);
    }
    Ok(write_entries(rt.alloc(), patches, options)?)
}

/// Prints the text. Who reads it may stop early: that is no fault.
fn print<'a>(rt: &HostRuntime, text: &[u8]) -> Result<u8, WordFault<'a>> {
    let mut writer = io::writer(rt);
    let printed = match writer.write_all(text) {
        Ok(()) => writer.flush(),
        Err(error) => Err(error),
    };
    match printed {
        Ok(()) => Ok(0),
        Err(error) if error.kind() == ErrorKind::BrokenPipe => Ok(0),
        Err(_) => Err(WordFault::Tool(ToolFault::Write)),
    }
}

/// The log of the new patches of a bundle.
fn log_of_bundle<'a>(
    rt: &HostRuntime,
    asked: &Log<'a>,
    name: &'a str,
) -> Result<Vec<u8>, WordFault<'a>> {
    let limits = Reading::of_words(kinds_of(asked.all_kinds)).limits();
    let text = read_file(rt, name, limits)?;
    match read_bundle_within(rt.alloc(), &text, limits) {
        Ok(bundle) if asked.context => Ok(write_context(rt.alloc(), &bundle)?),
        Ok(bundle) => Ok(text_of(rt, asked, &bundle)?),
        Err(fault) => Err(WordFault::of_base(name, ToolFault::of_base(Verdict::unread(fault)))),
    }
}

/// The log of the repository that a base makes.
fn log_of_base<'a>(rt: &HostRuntime, asked: &Log<'a>) -> Result<Vec<u8>, WordFault<'a>> {
    let file = read_base(&SystemFiles::new(rt), asked.base, kinds_of(asked.all_kinds))?;
    match (repo_of(rt.alloc(), base_of(&file)), &file) {
        (Ok(repo), _) => Ok(text_of_repo(rt, asked, &repo, 0)?),
        (Err(fault), Some(file)) => Err(WordFault::of_base(file.name, fault)),
        (Err(fault), None) => Err(WordFault::Tool(fault)),
    }
}

/// `dm log`. The mirror's file is let go before anything is printed.
pub fn log<'a>(rt: &HostRuntime, asked: &Log<'a>, is_terminal: bool) -> Result<u8, WordFault<'a>> {
    let text = if let Some(path) = asked.mirror {
        refuse_kinds(asked.all_kinds)?;
        let kept = read_repo(rt, path, asked.no_wait, is_terminal)?;
        if asked.kinds {
            return print(rt, kept.told_kinds(rt.alloc())?.as_bytes());
        }
        say_base(rt, &kept.repo, kept.base);
        text_of_repo(rt, asked, &kept.repo, kept.base)?
    } else if let Some(name) = asked.bundle {
        log_of_bundle(rt, asked, name)?
    } else {
        log_of_base(rt, asked)?
    };
    print(rt, &text)
}
