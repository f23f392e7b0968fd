//! `dm apply` without a mirror.
ghost use Rattle.std.specs.Prelude.{◌≡◌, ◌≢◌, IfOk, Option};
ghost use Rattle.dm_commands.specs.declared.base.Base.{Base as BaseText};
ghost use Rattle.dm_files.specs.Bases.{AreAlike};
ghost use Rattle.dm_tool.specs.Answers.{AsksMore, IsTaken, IsTakenAfter};

use crate::commands::running::refuse_base;
use dm_commands::{Applied, Base, ToolFault, apply_in, apply_over, repo_of};
use dm_files::{
    BaseFile, Files, INPUT, Input, Listing, WordFault, apply_each, base_of, blame_input, kinds_of,
    policy_of, read_base,
};
use dm_named::Kinds;
use dm_remarks::{Colour, Reading, explain_applied};
use dm_words::Apply;
use std::io::{Read, Write};
use std::rt::Runtime;

/// Takes one bundle after a base, and prints what is shown of both.
fn apply_as<R: Read, W: Write>(
    rt: &HostRuntime,
    reading: Reading,
    asked: &Apply<'_, '_>,
    base: Option<Base<'_>>,
    reader: &mut R,
    writer: &mut W,
) -> Result<Applied, ToolFault> {
    let as_bundle = asked.bundle;
    let policy = policy_of(asked.skip);
    match reading.kinds {
        Kinds::Six => apply_over(rt.alloc(), base, as_bundle, policy, reader, writer),
        Kinds::All => apply_in(
            rt.alloc(),
            reading.kinds,
            base,
            as_bundle,
            policy,
            reader,
            writer,
        ),
    }
}

/// `dm apply` of one bundle, without a mirror. The base is taken before the bundle is read.
fn apply_one<'a>(
    rt: &HostRuntime,
    colour: Colour,
    asked: &Apply<'_, '_>,
    base: Option<Base<'_>>,
    name: &'a str,
) -> Result<u8, WordFault<'a>> {
    let reading = Reading::of_words(kinds_of(asked.all_kinds));
    let mut reader = Input::open(rt, name);
    let mut writer = Listing::new(rt, asked.bundle);
    let applied = match apply_as(rt, reading, asked, base, &mut reader, &mut writer) {
        Ok(applied) => applied,
        Err(fault) => return Err(blame_input(&reader, name, fault)),
    };
    if asked.explain {
        explain_applied(rt, colour, reading, base, policy_of(asked.skip), &applied);
    }
    Ok(applied.status)
}

/// The one bundle that is named, or standard input; `None` where several are named.
fn only_name<'a>(asked: &Apply<'_, 'a>) -> Option<&'a str> {
    match asked.bundles {
        None => Some(INPUT),
        Some(names) if names.len() == 1 => Some(names[0]),
        Some(_) => None,
    }
}

/// `dm apply` after a base, without a mirror.
fn apply_after<'a, F: Files>(
    rt: &HostRuntime,
    files: &F,
    colour: Colour,
    asked: &Apply<'_, 'a>,
    base: Option<Base<'_>>,
) -> Result<u8, WordFault<'a>>
    ensures { IfOk result (λ status. AsksMore asked.now → IsTakenAfter (F.had files.now) base.entry asked.now status) }
{
    match only_name(asked) {
        Some(name) if !asked.hash && !asked.quiet && !asked.json => {
            apply_one(rt, colour, asked, base, name)
        }
        _ => {
            let repo = repo_of(rt.alloc(), base)?;
            apply_each(rt, files, colour, asked, repo)
        }
    }
}

/// Why nothing was taken: of a base that isn't taken, it is said at once.
fn refuse_bad_base<'a>(
    rt: &HostRuntime,
    colour: Colour,
    asked: &Apply<'_, 'a>,
    file: &Option<BaseFile<'_>>,
    fault: WordFault<'a>,
) -> Result<u8, WordFault<'a>>
    ensures { IfOk result (λ status. status ≡ 2) }
{
    match (fault, file) {
        (WordFault::Tool(ToolFault::BadBase(verdict)), Some(file)) => {
            let reading = Reading::of_words(kinds_of(asked.all_kinds));
            Ok(refuse_base(rt, colour, reading, asked.explain, file, verdict))
        }
        (fault, _) => Err(fault),
    }
}

/// `dm apply` after the base that a file is, without a mirror.
fn apply_from<'a, F: Files>(
    rt: &HostRuntime,
    files: &F,
    colour: Colour,
    asked: &Apply<'_, 'a>,
    file: &Option<BaseFile<'_>>,
) -> Result<u8, WordFault<'a>>
    ensures { IfOk result (λ status. status ≢ 2 → AsksMore asked.now → (base : Option BaseText) × AreAlike file.now base × IsTakenAfter (F.had files.now) base asked.now status) }
{
    match apply_after(rt, files, colour, asked, base_of(file)) {
        Ok(status) => Ok(status),
        Err(fault) => refuse_bad_base(rt, colour, asked, file, fault),
    }
}

/// `dm apply` without a mirror.
pub fn apply<'a, F: Files>(
    rt: &HostRuntime,
    files: &F,
    colour: Colour,
    asked: &Apply<'_, 'a>,
) -> Result<u8, WordFault<'a>>
    ensures { IfOk result (λ status. status ≢ 2 → AsksMore asked.now → IsTaken (F.had files.now) asked.now status) }
{
    let file = read_base(files, asked.base, kinds_of(asked.all_kinds))?;
    apply_from(rt, files, colour, asked, &file)
}
