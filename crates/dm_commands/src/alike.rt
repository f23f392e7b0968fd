//! A run of mirrors that begin alike, as the words of `dm run` ask for them.
ghost use Rattle.std.specs.Prelude.{◌≡◌, ◌≢◌, ◌⊎◌, IfErr, IfOk};
ghost use Rattle.std.specs.Io.KnownBytes.{Keeps};
ghost use Rattle.dm_mirror.specs.declared.plan.PlanFault.{PlanFault};
ghost use Rattle.dm_commands.specs.Streams.{Writes, WritesPrefix};
ghost use Rattle.dm_commands.specs.Running.{names_in, texts_in};
ghost use Rattle.dm_commands.specs.Alike.{HasFaultAs, IsRanAs, RunsAs};

use crate::base::Base;
use crate::fault::ToolFault;
use crate::running::{Bases, Ran, run_over};
use dm_repo::Policy;
use std::alloc::Global;
use std::io::Write;
use std::sync::Wait;
use std::thread::Threads;

/// The most bases that are handed in, one more than any plan takes.
const MOST_BASES: u32 = 9;

/// Mirrors that begin alike.
#[derive(Clone, Copy, Debug)]
pub struct Mirrors<'a> {
    /// What each begins with.
    pub base: Base<'a>,
    /// What each does with patches that conflict.
    pub policy: Policy,
    /// How many there are.
    pub count: u32,
    /// How many mails may wait at each.
    pub bound: u32,
}

/// Runs the plan of these posters and mirrors as [`run_over`] does, but makes at most one mirror more than any plan takes: that
/// one is enough for its fault.
pub fn run_mirrors<R: Threads + Wait + Sync, W: Write>(
    rt: &R,
    alloc: Global,
    posters: &[(&str, &[&[u8]])],
    mirrors: Mirrors<'_>,
    writer: &mut W,
) -> Result<Ran, ToolFault>
    ensures ok { IfOk result (λ ran. Writes (RunsAs (names_in posters.now) (texts_in posters.now) mirrors.entry)
        (W.contents writer.old) (W.contents writer.new) ran.status) }
    ensures told { IfOk result (IsRanAs (texts_in posters.now) mirrors.entry) }
    ensures bad_plan { IfErr result (λ e. (fault : PlanFault) → (e ≡ ToolFault.BadPlan fault) → HasFaultAs (texts_in posters.now) mirrors.entry fault) }
    ensures silent { IfErr result (λ e. (e ≢ ToolFault.Write) → Keeps (W.contents writer.old) (W.contents writer.new)) }
    ensures prefix { IfErr result (λ e. (e ≡ ToolFault.Write) →
        WritesPrefix (RunsAs (names_in posters.now) (texts_in posters.now) mirrors.entry) (W.contents writer.old) (W.contents writer.new)) }
    ensures fault { IfErr result (λ e. ((fault : PlanFault) × (e ≡ ToolFault.BadPlan fault))
        ⊎ ((e ≡ ToolFault.NoThread) ⊎ ((e ≡ ToolFault.NoMemory) ⊎ (e ≡ ToolFault.Write)))) }
{
    let base = mirrors.base;
    let count = mirrors.count.min(MOST_BASES) as usize;
    let texts = vec![in alloc; base.text; count]?;
    let policies = vec![in alloc; mirrors.policy; count]?;
    let bases = Bases {
        texts: &texts,
        limits: base.limits,
    };
    let bound = mirrors.bound as usize;
    run_over(rt, alloc, posters, bases, &policies, bound, writer)
}
