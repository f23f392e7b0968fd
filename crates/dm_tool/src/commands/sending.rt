//! `dm send`.
use dm_commands::{Base, Sent, ToolFault, repo_of, send_over, sent_line, write_text};
use dm_files::{
    Manner, NO_ANSWER, NamesFault, SystemFiles, WordFault, base_of, kinds_of, label_of, read_base,
    read_file, read_repo, refuse_kinds, tell, write_bundle_file,
};
use dm_named::{Kinds, Limits};
use dm_remarks::{Colour, Reading, explain_base, explain_theirs};
use dm_repo::{Refusal, Repo};
use dm_send::read_names;
use dm_words::Send;
use std::alloc::{AllocError, Global};
use std::io;
use std::rt::Runtime;

/// Says on standard error how many names of theirs were passed over, and that nothing is sent or that it was refused.
fn say_sent<R: Runtime + AllocGlobal>(rt: &R, sent: &Sent) {
    let unheld = sent.unheld;
    let _ = match unheld {
        0 => Ok(()),
        1 => eprintln!(rt; "dm: passed over 1 patch that isn't held here"),
        _ => eprintln!(rt; "dm: passed over {unheld} patches that aren't held here"),
    };
    let _ = match sent.new {
        Some(0) => eprintln!(rt; "dm: nothing to send"),
        Some(_) => Ok(()),
        None => eprintln!(rt; "dm: no bundle was made"),
    };
}

/// Says which patch that they hold rests on one that they don't name.
fn say_bound(rt: &HostRuntime, repo: &Repo<Global>, why: Refusal) -> Result<(), AllocError> {
    let Refusal::ContextDepends(held, needed) = why else {
        return Ok(());
    };
    if held >= repo.len() || needed >= repo.len() {
        return Ok(());
    }
    let held = label_of(rt.alloc(), repo.patch(held).info())?;
    let needed = label_of(rt.alloc(), repo.patch(needed).info())?;
    let _ = eprintln!(rt; "dm: {held} rests on {needed}, which they don't name");
    let _ = eprintln!(rt; "dm: ask them for all that they hold:\n  darcs log --context > CONTEXT");
    Ok(())
}

/// Says which tag of theirs isn't held, the first of them that is told.
fn say_tag(
    rt: &HostRuntime,
    repo: &Repo<Global>,
    text: &[u8],
    limits: Limits,
) -> Result<(), AllocError> {
    let Ok(names) = read_names(rt.alloc(), text, limits) else {
        return Ok(());
    };
    for name in &names {
        if repo.position(name).is_none() && name.name().starts_with(b"TAG ") {
            let label = label_of(rt.alloc(), name)?;
            let _ = eprintln!(rt;
                "dm: the tag {label} isn't held: they have patches that are missing here; take a bundle of theirs first"
            );
            return Ok(());
        }
    }
    Ok(())
}

/// Says more of why less is sent than somebody may await.
fn explain_sent(
    rt: &HostRuntime,
    repo: &Repo<Global>,
    sent: &Sent,
    theirs: Option<Base<'_>>,
) -> Result<(), AllocError> {
    if let Some(why) = sent.why {
        say_bound(rt, repo, why)?;
    }
    match theirs {
        Some(theirs) if sent.unheld > 0 => say_tag(rt, repo, theirs.text, theirs.limits),
        _ => Ok(()),
    }
}

/// What is sent, to a file or to standard output.
#[derive(Drop)]
struct Sending<'a, 't> {
    theirs: Option<Base<'t>>,
    most: usize,
    is_minimal: bool,
    is_json: bool,
    output: Option<&'a str>,
}

/// Sends what is asked for, as JSON: the line has the bundle, unless a new file gets it.
fn send_told<'a>(
    rt: &HostRuntime,
    kinds: Kinds,
    repo: &Repo<Global>,
    base: usize,
    sending: &Sending<'a, '_>,
) -> Result<Sent, WordFault<'a>> {
    let mut text = Vec::new(rt.alloc());
    let mut refusal = Vec::new(rt.alloc());
    let sent = send_over(
        rt.alloc(),
        kinds,
        repo,
        base,
        sending.theirs,
        sending.most,
        sending.is_minimal,
        &mut text,
        &mut refusal,
    )?;
    let line = sent_line(
        rt.alloc(),
        kinds,
        repo,
        &sent,
        &text,
        sending.output.is_none(),
    )?;
    if let (Some(name), true) = (sending.output, sent.new.unwrap_or(0) > 0) {
        write_bundle_file(rt, name, &text)?;
    }
    write_text(&line, &mut io::writer(rt))?;
    Ok(sent)
}

/// Sends what is asked for: into a new file where there is something, or to standard output.
fn send_to<'a>(
    rt: &HostRuntime,
    kinds: Kinds,
    repo: &Repo<Global>,
    base: usize,
    sending: &Sending<'a, '_>,
) -> Result<Sent, WordFault<'a>> {
    if sending.is_json {
        return send_told(rt, kinds, repo, base, sending);
    }
    let mut errors = rt.stderr();
    let Some(name) = sending.output else {
        let mut writer = io::writer(rt);
        return Ok(send_over(
            rt.alloc(),
            kinds,
            repo,
            base,
            sending.theirs,
            sending.most,
            sending.is_minimal,
            &mut writer,
            &mut errors,
        )?);
    };
    let mut text = Vec::new(rt.alloc());
    let sent = send_over(
        rt.alloc(),
        kinds,
        repo,
        base,
        sending.theirs,
        sending.most,
        sending.is_minimal,
        &mut text,
        &mut errors,
    )?;
    if sent.new.unwrap_or(0) > 0 {
        write_bundle_file(rt, name, &text)?;
    }
    Ok(sent)
}

/// The file of what they hold, if one is named. It may be a repository of their own.
fn read_theirs<'a>(
    rt: &HostRuntime,
    name: Option<&'a str>,
) -> Result<Option<Vec<u8>>, WordFault<'a>> {
    match name {
        Some(name) => Ok(Some(read_file(rt, name, Limits::OWN)?)),
        None => Ok(None),
    }
}

/// `dm send` from a repository whose first patches, so many of them, are its base.
fn send_from<'a>(
    rt: &HostRuntime,
    colour: Colour,
    reading: Reading,
    asked: &Send<'a>,
    repo: &Repo<Global>,
    base: usize,
) -> Result<u8, WordFault<'a>> {
    let file = read_theirs(rt, asked.to)?;
    let theirs = match &file {
        Some(text) => Some(Base {
            text,
            limits: Limits::OWN.with_kinds(reading.kinds),
        }),
        None => None,
    };
    let most = match asked.first {
        Some(most) => most as usize,
        None => usize::MAX,
    };
    let sending = Sending {
        theirs,
        most,
        is_minimal: asked.minimal,
        is_json: asked.json,
        output: asked.output,
    };
    match send_to(rt, reading.kinds, repo, base, &sending) {
        Ok(sent) => {
            if asked.explain {
                explain_sent(rt, repo, &sent, sending.theirs)?;
            }
            say_sent(rt, &sent);
            Ok(sent.status)
        }
        Err(WordFault::Tool(ToolFault::BadNames(fault))) => {
            let name = asked.to.unwrap_or("");
            tell(
                rt,
                Manner::Full,
                WordFault::Names(NamesFault::BadNames(name, fault)),
            );
            if let (true, Some(text)) = (asked.explain, &file) {
                explain_theirs(rt, colour, reading, text, fault);
            }
            Ok(NO_ANSWER)
        }
        Err(fault) => Err(fault),
    }
}

/// `dm send`: what is sent from is read before what they hold. The file of a mirror is let go before anything is printed.
pub fn send<'a>(
    rt: &HostRuntime,
    colour: Colour,
    asked: &Send<'a>,
    is_terminal: bool,
) -> Result<u8, WordFault<'a>> {
    if let Some(path) = asked.mirror {
        refuse_kinds(asked.all_kinds)?;
        let kept = read_repo(rt, path, asked.no_wait, is_terminal)?;
        let reading = Reading::of_mirror(kept.kinds);
        return send_from(rt, colour, reading, asked, &kept.repo, kept.base);
    }
    let reading = Reading::of_words(kinds_of(asked.all_kinds));
    let file = read_base(&SystemFiles::new(rt), asked.base, reading.kinds)?;
    match (repo_of(rt.alloc(), base_of(&file)), &file) {
        (Ok(repo), _) => send_from(rt, colour, reading, asked, &repo, 0),
        (Err(fault), Some(file)) => {
            tell(rt, Manner::Full, WordFault::of_base(file.name, fault));
            if let (true, ToolFault::BadBase(verdict)) = (asked.explain, fault) {
                explain_base(rt, colour, reading, file.base(), verdict);
            }
            Ok(NO_ANSWER)
        }
        (Err(fault), None) => Err(WordFault::Tool(fault)),
    }
}
