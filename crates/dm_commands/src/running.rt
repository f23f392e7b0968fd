//! The command `dm run`.
ghost use Rattle.std.specs.Prelude.{◌≡◌, ◌≢◌, ◌⊎◌, ◌++◌, ℕ, List, map, IfOk, IfErr, OnOk};
ghost use Rattle.std.specs.Io.KnownBytes.{Keeps};
ghost use Rattle.dm_mirror.specs.declared.plan.PlanFault.{PlanFault};
ghost use Rattle.dm_mirror.specs.Plans.{IsFirstFault};
ghost use Rattle.dm_mirror.specs.Report.{IsReport};
ghost use Rattle.dm_commands.specs.Streams.{Writes, WritesPrefix};
ghost use Rattle.dm_commands.specs.Running.{IsRan, IsStatusOf, RunsTo, bytes_of, names_in, poster_line, posters_text, texts_in};

use crate::fault::ToolFault;
use crate::streams::write_text;
use dm_mirror::{Open, Outcome, Plan, report_text, run};
use dm_named::Limits;
use dm_repo::Policy;
use std::alloc::{AllocError, Global};
use std::io::Write;
use std::sync::Wait;
use std::thread::Threads;

/// The texts of each poster.
fn texts_of<'a>(
    alloc: Global,
    posters: &[(&'a str, &'a [&'a [u8]])],
) -> Result<Vec<&'a [&'a [u8]]>, AllocError>
    ensures { IfOk result (λ all. map (λ texts. bytes_of texts.now) all.items ≡ texts_in posters.now) }
{
    let mut all = Vec::with_capacity(alloc, posters.len())?;
    for poster in posters {
        all.push(poster.1)?;
    }
    Ok(all)
}

/// The line of a poster.
fn push_poster(number: usize, name: &str, out: &mut Vec<u8>) -> Result<(), AllocError>
    ensures { OnOk result (out.new.items ≡ out.old.items ++ poster_line number name.now) }
{
    let line = format!(in *out.allocator(); "poster {number} {name}\n")?;
    out.extend_from_slice(line.as_bytes())?;
    Ok(())
}

/// A line for each poster.
fn push_posters(posters: &[(&str, &[&[u8]])], out: &mut Vec<u8>) -> Result<(), AllocError>
    ensures { OnOk result (out.new.items ≡ out.old.items ++ posters_text 0 (names_in posters.now)) }
{
    for number in 0..posters.len() {
        push_poster(number, posters[number].0, out)?;
    }
    Ok(())
}

/// What is printed of a run: a line for each poster, and the report.
fn run_text(
    alloc: Global,
    posters: &[(&str, &[&[u8]])],
    outcome: &Outcome,
) -> Result<Vec<u8>, AllocError>
    ensures { IfOk result (λ text. (report : List ℕ) × IsReport outcome.now report × (text.items ≡ posters_text 0 (names_in posters.now) ++ report)) }
{
    let mut text = Vec::new(alloc);
    push_posters(posters, &mut text)?;
    let report = report_text(alloc, outcome)?;
    text.extend_from_slice(&report)?;
    Ok(text)
}

/// The exit status of a run: 0 where each mirror took all of every bundle or had its patches already, else 1.
fn status_of_run(outcome: &Outcome) -> u8
    ensures { IsStatusOf outcome.now result }
{
    if outcome.all_accepted() { 0 } else { 1 }
}

/// The base of each mirror.
#[derive(Clone, Copy, Debug)]
pub struct Bases<'a> {
    /// The text of each, where an empty one is an empty repository.
    pub texts: &'a [&'a [u8]],
    /// The limits within which they are read.
    pub limits: Limits,
}

/// What `dm run` answered.
#[derive(Drop)]
pub struct Ran {
    /// The exit status.
    pub status: u8,
    /// What the run left.
    pub outcome: Outcome,
}

/// What a run prints, and what it left.
fn answer_of<R: Threads + Wait + Sync>(
    rt: &R,
    alloc: Global,
    posters: &[(&str, &[&[u8]])],
    bases: Bases<'_>,
    policies: &[Policy],
    bound: usize,
) -> Result<(Vec<u8>, Ran), ToolFault>
    ensures ok { IfOk result (λ x. RunsTo (names_in posters.now) (texts_in posters.now) (bytes_of bases.entry.texts.now) bases.entry.limits policies.now bound x.0.items x.1.status) }
    ensures told { IfOk result (λ x. IsRan (texts_in posters.now) (bytes_of bases.entry.texts.now) bases.entry.limits policies.now bound x.1) }
    ensures bad_plan { IfErr result (λ e. (fault : PlanFault) → (e ≡ ToolFault.BadPlan fault) →
        IsFirstFault bases.entry.limits (texts_in posters.now) (bytes_of bases.entry.texts.now) policies.now bound fault) }
    ensures fault { IfErr result (λ e. ((fault : PlanFault) × (e ≡ ToolFault.BadPlan fault)) ⊎ ((e ≡ ToolFault.NoThread) ⊎ (e ≡ ToolFault.NoMemory))) }
{
    let texts = texts_of(alloc, posters)?;
    let plan = Plan::build_within(alloc, &texts, bases.texts, policies, bound, bases.limits)?;
    let outcome = run(rt, alloc, plan, &Open)?;
    let text = run_text(alloc, posters, &outcome)?;
    let status = status_of_run(&outcome);
    Ok((text, Ran { status, outcome }))
}

/// Runs a plan of posters, each with its name and the texts of its bundles, and of mirrors, each with its base and its policy.
/// Writes a line for each poster and then the report. Returns the exit status, 0 where each mirror took all of every bundle or
/// had its patches already, else 1, with what the run left.
///
/// Errors: [`ToolFault::BadPlan`] where there is no such plan; [`ToolFault::NoThread`]; [`ToolFault::NoMemory`];
/// [`ToolFault::Write`]. Only after the last has anything been written, which is a prefix of the output.
pub fn run_over<R: Threads + Wait + Sync, W: Write>(
    rt: &R,
    alloc: Global,
    posters: &[(&str, &[&[u8]])],
    bases: Bases<'_>,
    policies: &[Policy],
    bound: usize,
    writer: &mut W,
) -> Result<Ran, ToolFault>
    ensures ok { IfOk result (λ ran. Writes (RunsTo (names_in posters.now) (texts_in posters.now) (bytes_of bases.entry.texts.now) bases.entry.limits policies.now bound)
        (W.contents writer.old) (W.contents writer.new) ran.status) }
    ensures told { IfOk result (IsRan (texts_in posters.now) (bytes_of bases.entry.texts.now) bases.entry.limits policies.now bound) }
    ensures bad_plan { IfErr result (λ e. (fault : PlanFault) → (e ≡ ToolFault.BadPlan fault) →
        IsFirstFault bases.entry.limits (texts_in posters.now) (bytes_of bases.entry.texts.now) policies.now bound fault) }
    ensures silent { IfErr result (λ e. (e ≢ ToolFault.Write) → Keeps (W.contents writer.old) (W.contents writer.new)) }
    ensures prefix { IfErr result (λ e. (e ≡ ToolFault.Write) →
        WritesPrefix (RunsTo (names_in posters.now) (texts_in posters.now) (bytes_of bases.entry.texts.now) bases.entry.limits policies.now bound)
        (W.contents writer.old) (W.contents writer.new)) }
    ensures fault { IfErr result (λ e. ((fault : PlanFault) × (e ≡ ToolFault.BadPlan fault))
        ⊎ ((e ≡ ToolFault.NoThread) ⊎ ((e ≡ ToolFault.NoMemory) ⊎ (e ≡ ToolFault.Write)))) }
{
    let (out, ran) = answer_of(rt, alloc, posters, bases, policies, bound)?;
    write_text(&out, writer)?;
    Ok(ran)
}
