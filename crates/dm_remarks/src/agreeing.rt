//! Whether the mirrors of a run had to end with one tree, which `dm run --explain` says.
ghost use Rattle.std.specs.Prelude.{◌≡◌, IfOk};
ghost use Rattle.dm_agree.specs.Laws.{sent_texts};
ghost use Rattle.dm_mirror.specs.Plans.{IsStart};
ghost use Rattle.dm_remarks.specs.Agreeing.{IsAgreement, IsRanOver, IsRunOver};
ghost use Rattle.dm_commands.specs.Running.{bytes_of, texts_in};

use crate::colour::{Colour, say};
use dm_agree::laws::{accepting_mirrors_agree, mirrors_agree};
use dm_agree::names_stand_for_one;
use dm_commands::{Base, Ran, ToolFault, repo_of_base};
use dm_explain::Who;
use dm_info::Info;
use dm_mirror::Outcome;
use dm_named::Limits;
use dm_repo::Repo;
use dm_scratch::laws::taking_has_one_outcome;
use std::alloc::{AllocError, Global};
use std::fmt::{self, Display, Formatter, Write};
use std::rt::Runtime;

/// Whether the mirrors of a run, which began with one base, had to end with one tree.
#[derive(Drop)]
pub enum Agreement {
    /// They had to, and did: each bundle was accepted, and each name stands for one patch.
    Equal,
    /// Nothing is promised: this name may stand for two patches.
    TwoMeanings(Info<Global>),
    /// A bundle was refused, or taken in part. Each name stands for one patch, so mirrors with the same names have one tree.
    NotAllTaken,
}

/// What is said where the mirrors had to agree.
const EQUAL: &str =
    "All mirrors have the same tree. They had to: each took all bundles, and each name stands for one patch.\n";

/// What is said before a name that may stand for two patches.
const TWO_MEANINGS: &str =
    "Mirrors may have different trees. A name may stand for two patches, since two bundles bring it differently, or the base has it";

/// What is said where not all was taken.
const NOT_ALL_TAKEN: &str =
    "Mirrors may have different trees: not all took all bundles. Those with the same patches have the same tree, since each name stands for one patch.\n";

impl Display for Agreement {
    fn fmt<W: Write>(&self, f: &mut Formatter<W>) -> fmt::Result {
        match self {
            Agreement::Equal => f.write_str(EQUAL),
            Agreement::TwoMeanings(info) => {
                let name = Who { info };
                write!(f, "{TWO_MEANINGS}:\n  {name}\n")
            }
            Agreement::NotAllTaken => f.write_str(NOT_ALL_TAKEN),
        }
    }
}

/// All texts that posters send.
fn texts_sent<'a>(
    alloc: Global,
    posters: &[(&str, &'a [&'a [u8]])],
) -> Result<Vec<&'a [u8]>, AllocError>
    ensures { IfOk result (λ all. bytes_of all.items ≡ sent_texts (texts_in posters.now)) }
{
    let mut all = Vec::new(alloc);
    for poster in posters {
        all.extend_from_slice(poster.1)?;
    }
    Ok(all)
}

/// Whether the mirrors had to agree, all of which began with this repository.
fn agreement_of(
    alloc: Global,
    posters: &[(&str, &[&[u8]])],
    base: &Repo<Global>,
    outcome: &Outcome,
) -> Result<Agreement, AllocError>
    requires { IsRunOver (texts_in posters.now) base.now.patches outcome.now }
    ensures { IfOk result (IsAgreement (texts_in posters.now) base.now.patches outcome.now) }
{
    let texts = texts_sent(alloc, posters)?;
    let shared = names_stand_for_one(alloc, &texts, base, Limits::STANDARD)?;
    if let Some(name) = shared {
        return Ok(Agreement::TwoMeanings(name));
    }
    mirrors_agree();
    accepting_mirrors_agree();
    if outcome.all_accepted() {
        return Ok(Agreement::Equal);
    }
    Ok(Agreement::NotAllTaken)
}

/// The repository that each mirror of a run began with.
fn start_of(alloc: Global, base: Base<'_>) -> Result<Repo<Global>, ToolFault>
    ensures { IfOk result (λ repo. IsStart base.entry.limits base.entry.text.now repo.patches) }
{
    if base.text.is_empty() {
        return Ok(Repo::new(alloc));
    }
    repo_of_base(alloc, base)
}

/// Says whether the mirrors of a run had to end with one tree, all of which had this base; and if not, why.
pub fn explain_agreement<R: Runtime + AllocGlobal>(
    rt: &R,
    colour: Colour,
    posters: &[(&str, &[&[u8]])],
    base: Base<'_>,
    ran: &Ran,
)
    requires { IsRanOver (texts_in posters.now) base.limits base.text.now ran.now }
{
    let Ok(repo) = start_of(rt.alloc(), base) else {
        return;
    };
    taking_has_one_outcome();
    if let Ok(agreement) = agreement_of(rt.alloc(), posters, &repo, &ran.outcome) {
        say(rt, colour, &agreement);
    }
}
