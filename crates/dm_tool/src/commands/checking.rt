//! `dm check`.
use dm_commands::{
    CheckOutput, Checked, ToolFault, check_hash_within, check_over, check_paths_over, check_within,
    tell_within,
};
use dm_deliver::HashRule;
use dm_files::{INPUT, Input, WordFault, blame_input, kinds_of, read_file};
use dm_named::Kinds;
use dm_remarks::{Colour, Reading, explain_hash, explain_unread};
use dm_words::Check;
use std::io::{self, Read, Write};
use std::rt::Runtime;

/// What `dm check` prints of a bundle.
fn output_of(asked: &Check<'_>) -> CheckOutput {
    if asked.paths {
        CheckOutput::Paths
    } else {
        CheckOutput::Text
    }
}

/// What is asked of the hash of a bundle.
fn rule_of(asked: &Check<'_>) -> HashRule {
    if asked.hash {
        HashRule::Right
    } else {
        HashRule::Any
    }
}

/// What is asked of a text.
fn check_text<R: Read, W: Write>(
    rt: &HostRuntime,
    reading: Reading,
    asked: &Check<'_>,
    reader: &mut R,
    writer: &mut W,
) -> Result<Checked, ToolFault> {
    let output = output_of(asked);
    if asked.json {
        return tell_within(rt.alloc(), reading.limits(), rule_of(asked), reader, writer);
    }
    if asked.hash {
        return check_hash_within(rt.alloc(), reading.limits(), output, reader, writer);
    }
    match (reading.kinds, output) {
        (Kinds::Six, CheckOutput::Text) => check_over(rt.alloc(), reader, writer),
        (Kinds::Six, CheckOutput::Paths) => check_paths_over(rt.alloc(), reader, writer),
        (Kinds::All, _) => check_within(rt.alloc(), reading.limits(), output, reader, writer),
    }
}

/// `dm check` with explanations: the text is read first, since a sound bundle gives it up.
fn check_explained<'a>(
    rt: &HostRuntime,
    colour: Colour,
    asked: &Check<'a>,
    name: &'a str,
) -> Result<u8, WordFault<'a>> {
    let reading = Reading::of_words(kinds_of(asked.all_kinds));
    let text = read_file(rt, name, reading.limits())?;
    let mut writer = io::writer(rt);
    let mut reader = text.as_slice();
    let checked = check_text(rt, reading, asked, &mut reader, &mut writer)?;
    match &checked.unread {
        Some(unread) => explain_unread(rt, colour, reading, unread),
        None => explain_hash(rt, colour, reading, &text, asked.hash),
    }
    Ok(checked.status)
}

/// `dm check`.
pub fn check<'a>(rt: &HostRuntime, colour: Colour, asked: &Check<'a>) -> Result<u8, WordFault<'a>> {
    let name = asked.bundle.unwrap_or(INPUT);
    if asked.explain {
        return check_explained(rt, colour, asked, name);
    }
    let mut reader = Input::open(rt, name);
    let mut writer = io::writer(rt);
    match check_text(
        rt,
        Reading::of_words(kinds_of(asked.all_kinds)),
        asked,
        &mut reader,
        &mut writer,
    ) {
        Ok(checked) => Ok(checked.status),
        Err(fault) => Err(blame_input(&reader, name, fault)),
    }
}
