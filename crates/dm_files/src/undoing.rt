//! `dm rollback`: the bundle of a patch that undoes others.
use crate::base_tag::refuse_before_base;
use crate::choosing::chosen_names;
use crate::mirror::{KeptRepo, read_repo};
use crate::obliterating::{refuse, refuse_bound};
use crate::take_back_fault::TakeBackFault;
use crate::telling::Output;
use crate::word_fault::WordFault;
use dm_commands::{names_base, text_of, undo_chosen, write_text};
use dm_date::is_readable;
use dm_info::Info;
use dm_repo::Repo;
use dm_send::UndoFault;
use dm_told::made_line;
use dm_words::Rollback;
use jiff_core::civil::DateTime;
use jiff_core::{Offset, Timestamp};
use std::alloc::Global;
use std::io;
use std::rt::Runtime;
use std::time::{SystemTime, UNIX_EPOCH};

/// What stands before the name of the first patch that is undone, where no other name is given.
const PREFIX: &[u8] = b"rollback: ";

/// The date and the time of the system's clock, in UTC.
fn read_clock(rt: &HostRuntime) -> Option<DateTime> {
    let Ok(now) = SystemTime::now(rt) else {
        return None;
    };
    let Ok(since) = now.duration_since(UNIX_EPOCH) else {
        return None;
    };
    let Ok(nanos) = i128::try_from(since.as_nanos()) else {
        return None;
    };
    let Ok(stamp) = Timestamp::from_nanosecond(nanos) else {
        return None;
    };
    Some(Offset::UTC.to_datetime(stamp))
}

/// The date of a new patch: the one that is given, or the system's.
fn date_of<'a>(rt: &HostRuntime, given: Option<&'a str>) -> Result<String, WordFault<'a>> {
    if let Some(date) = given {
        let are_digits = date.len() == 14 && date.bytes().all(|byte| byte.is_ascii_digit());
        if !are_digits || !is_readable(date.as_bytes()) {
            return Err(WordFault::TakeBack(TakeBackFault::BadDate(date)));
        }
        return Ok(format!(in rt.alloc(); "{date}")?);
    }
    let Some(now) = read_clock(rt) else {
        return Err(WordFault::TakeBack(TakeBackFault::NoClock));
    };
    let DateTime { date, time } = now;
    let (year, month, day) = (date.year, date.month, date.day);
    let (hour, minute, second) = (time.hour, time.minute, time.second);
    Ok(format!(in rt.alloc(); "{year:04}{month:02}{day:02}{hour:02}{minute:02}{second:02}")?)
}

/// The name of a new patch: the one that is given, or one made of the first that is undone.
fn name_of<'a>(
    rt: &HostRuntime,
    given: Option<&str>,
    chosen: &[Info<Global>],
) -> Result<Vec<u8>, WordFault<'a>> {
    let mut name = Vec::new(rt.alloc());
    if let Some(given) = given {
        name.extend_from_slice(given.as_bytes())?;
        return Ok(name);
    }
    name.extend_from_slice(PREFIX)?;
    if let Some(first) = chosen.first() {
        name.extend_from_slice(first.name())?;
    }
    Ok(name)
}

/// The patch info of a new patch.
fn info_of<'a>(
    rt: &HostRuntime,
    asked: &Rollback<'_, 'a>,
    chosen: &[Info<Global>],
) -> Result<Info<Global>, WordFault<'a>> {
    let name = name_of(rt, asked.name, chosen)?;
    let date = date_of(rt, asked.date)?;
    let mut lines = Vec::new(rt.alloc());
    if let Some(log) = asked.log {
        for line in log.as_bytes().split(|byte| *byte == b'\n') {
            lines.push(line)?;
        }
    }
    match Info::new(
        rt.alloc(),
        &name,
        asked.author.as_bytes(),
        date.as_bytes(),
        &lines,
    ) {
        Ok(info) => Ok(info),
        Err(fault) => Err(WordFault::TakeBack(TakeBackFault::BadInfo(fault))),
    }
}

/// Why no patch undoes the chosen ones: a line, or no answer.
fn refuse_undoing<'a>(
    rt: &HostRuntime,
    output: Output,
    repo: &Repo<Global>,
    fault: UndoFault<Global>,
) -> Result<u8, WordFault<'a>> {
    match fault {
        UndoFault::Held => Err(WordFault::TakeBack(TakeBackFault::NameIsHeld)),
        UndoFault::ChangesNothing => Err(WordFault::TakeBack(TakeBackFault::NothingToUndo)),
        UndoFault::Refused(why) => refuse(rt, output, repo, why),
        UndoFault::Bound(bound) => {
            let status = refuse_bound(rt, output, &bound)?;
            let _ = eprintln!(rt;
                "dm: no bundle was made; name these patches too, or roll them back before"
            );
            Ok(status)
        }
    }
}

/// `dm rollback`. The mirror's file is let go before anything is printed.
pub fn roll_back_chosen<'a>(
    rt: &HostRuntime,
    asked: &Rollback<'_, 'a>,
    is_terminal: bool,
) -> Result<u8, WordFault<'a>> {
    let KeptRepo {
        repo,
        base,
        kinds,
        ..
    } = read_repo(rt, asked.mirror, asked.no_wait, is_terminal)?;
    let chosen = chosen_names(rt, asked.patches.unwrap_or(&[]), &repo)?;
    let output = if asked.json {
        Output::Json
    } else {
        Output::Bundle
    };
    if names_base(&repo, base, &chosen) {
        return refuse_before_base(rt, output, &repo, base, "no bundle was made");
    }
    let info = info_of(rt, asked, &chosen)?;
    match undo_chosen(rt.alloc(), &repo, base, &chosen, info) {
        Ok(bundle) => {
            let text = text_of(rt.alloc(), kinds, &bundle)?;
            let shown = match output {
                Output::Json => made_line(rt.alloc(), "rolled-back", &bundle, Some(&text))?,
                _ => text,
            };
            write_text(&shown, &mut io::writer(rt))?;
            Ok(0)
        }
        Err(fault) => refuse_undoing(rt, output, &repo, fault),
    }
}
