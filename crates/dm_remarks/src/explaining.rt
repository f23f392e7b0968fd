//! What `--explain` adds on standard error. The answer stands by then: where nothing can be printed, or memory runs out, the
//! explanation is cut.
ghost use Rattle.std.specs.Prelude.{◌<◌};
ghost use Rattle.dm_mirror.specs.Runs.{mirror_count};

use crate::colour::{Colour, say};
use crate::reading::Reading;
use bumpalo::Bump;
use dm_bundle::{Bundle, read_bundle_within};
use dm_commands::{Applied, Base, Unread, base_tag, repo_of};
use dm_deliver::{HashFault, HashFaultKind, HashRule, hash_fault_within};
use dm_explain::{Account, AccountWithSkips, Malformed, account_of, has_signed_dashes, skips_of};
use dm_mail::{Body, Mail};
use dm_mirror::Outcome;
use dm_named::{FaultKind, ReadFault};
use dm_repo::{Policy, Repo, Skip, find_skips};
use dm_scratch::{Verdict, take};
use std::alloc::Global;
use std::rt::Runtime;

/// Says why a text is no bundle.
pub fn explain_unread<R: Runtime + AllocGlobal>(
    rt: &R,
    colour: Colour,
    reading: Reading,
    unread: &Unread,
) {
    if unread.fault.kind == FaultKind::NoMemory {
        return;
    }
    let malformed = Malformed::new(&unread.text, unread.fault, reading.remedy);
    say(rt, colour, &malformed);
}

/// Says why a base isn't taken.
pub fn explain_base<R: Runtime + AllocGlobal>(
    rt: &R,
    colour: Colour,
    reading: Reading,
    base: Base<'_>,
    verdict: Verdict,
) {
    let repo = Repo::new(rt.alloc());
    explain_verdict(
        rt,
        colour,
        reading,
        &repo,
        base.text,
        Policy::Refuse,
        verdict,
        None,
    );
}

/// Says why a text tells no names.
pub fn explain_theirs<R: Runtime + AllocGlobal>(
    rt: &R,
    colour: Colour,
    reading: Reading,
    text: &[u8],
    fault: ReadFault,
) {
    let malformed = Malformed::new(text, fault, reading.remedy);
    say(rt, colour, &malformed);
}

/// Says what is wrong with the hash of a bundle.
pub fn explain_hash_fault<R: Runtime + AllocGlobal>(
    rt: &R,
    colour: Colour,
    text: &[u8],
    fault: HashFault,
) {
    let at = fault.at;
    match fault.kind {
        HashFaultKind::WrongHash if has_signed_dashes(text) => say(
            rt,
            colour,
            &format_args!(
                "The hash at byte {at} isn't that of the patches. Lines begin with `- -`, as a signature leaves them: turn them with `sed 's/^- -/-/'`, or ask for the bundle once more.\n"
            ),
        ),
        HashFaultKind::WrongHash => say(
            rt,
            colour,
            &format_args!(
                "The hash at byte {at} isn't that of the patches: the bundle was changed since it was made. Ask for it once more.\n"
            ),
        ),
        HashFaultKind::NoHash => say(
            rt,
            colour,
            &format_args!(
                "No hash of the patches stands behind the context, at byte {at}. Ask for the bundle as darcs send writes it, or leave out --hash.\n"
            ),
        ),
    }
}

/// Says what to do where a bundle doesn't rest on the tag with which a repository begins whose first patches, so many of them, are its
/// base.
pub fn explain_before_base<R: Runtime + AllocGlobal>(
    rt: &R,
    colour: Colour,
    repo: &Repo<Global>,
    base: usize,
) {
    if let Some(tag) = base_tag(repo, base) {
        say(
            rt,
            colour,
            &format_args!(
                "The bundle doesn't rest on {tag}, with which the mirror begins. The sender pulls that tag, and sends the whole context:\n  darcs pull\n  darcs send --no-minimize\n"
            ),
        );
    }
}

/// Says of a date that Darcs can't read what that means.
pub fn explain_date<R: Runtime + AllocGlobal>(rt: &R, colour: Colour, at: usize) {
    say(
        rt,
        colour,
        &format_args!(
            "Darcs can't read the date of a new patch, which stands at byte {at}, so darcs apply would end with an exception. Its sender has to make the patch anew.\n"
        ),
    );
}

/// Says where the hash of a bundle is wrong; and where one has to stand, that there is none.
pub fn explain_hash<R: Runtime + AllocGlobal>(
    rt: &R,
    colour: Colour,
    reading: Reading,
    text: &[u8],
    is_wanted: bool,
) {
    let rule = if is_wanted {
        HashRule::Right
    } else {
        HashRule::NotWrong
    };
    if let Ok(Some(fault)) = hash_fault_within(rt.alloc(), text, reading.limits(), rule) {
        explain_hash_fault(rt, colour, text, fault);
    }
}

/// Which patches of a text are skipped where it is taken into this repository with `--skip`, and why.
fn skips_of_text<R: Runtime + AllocGlobal>(
    rt: &R,
    reading: Reading,
    before: &Repo<Global>,
    text: &[u8],
) -> Option<Vec<Skip>> {
    let Ok(bundle) = read_bundle_within(rt.alloc(), text, reading.limits()) else {
        return None;
    };
    match find_skips(rt.alloc(), before, &bundle) {
        Ok(skips) => Some(skips),
        Err(_) => None,
    }
}

/// The same where some were. The repository is the one that the text wasn't taken into yet.
fn skips_in<R: Runtime + AllocGlobal>(
    rt: &R,
    reading: Reading,
    before: &Repo<Global>,
    text: &[u8],
    verdict: Verdict,
) -> Option<Vec<Skip>> {
    let Verdict::TakenSome(_, _) = verdict else {
        return None;
    };
    skips_of_text(rt, reading, before, text)
}

/// Which patches of a text will be skipped, and why, where it is taken into this repository by the policy.
pub fn skips_ahead<R: Runtime + AllocGlobal>(
    rt: &R,
    reading: Reading,
    before: &Repo<Global>,
    text: &[u8],
    policy: Policy,
) -> Option<Vec<Skip>> {
    match policy {
        Policy::Refuse => None,
        Policy::Skip => skips_of_text(rt, reading, before, text),
    }
}

/// The same as [`skips_in`] after a base, which is taken once more.
fn skips_after<R: Runtime + AllocGlobal>(
    rt: &R,
    reading: Reading,
    base: Option<Base<'_>>,
    text: &[u8],
    verdict: Verdict,
) -> Option<Vec<Skip>> {
    let Verdict::TakenSome(_, _) = verdict else {
        return None;
    };
    let Ok(before) = repo_of(rt.alloc(), base) else {
        return None;
    };
    skips_in(rt, reading, &before, text, verdict)
}

/// Prints an account, with why patches were skipped where that is known.
fn print_account<R: Runtime + AllocGlobal>(
    rt: &R,
    colour: Colour,
    repo: &Repo<Global>,
    bundle: &Bundle<Global>,
    account: &Account<'_>,
    skips: Option<Vec<Skip>>,
) {
    if let Some(skips) = skips {
        if let Ok(skips) = skips_of(rt.alloc(), repo, bundle, &skips) {
            let skips = &skips;
            say(rt, colour, &AccountWithSkips { account, skips });
            return;
        }
    }
    say(rt, colour, account);
}

/// Says whom the verdict on a text is about, and why patches were skipped where that is known. The repository is the one that
/// taking the text by the policy left.
fn explain_verdict<R: Runtime + AllocGlobal>(
    rt: &R,
    colour: Colour,
    reading: Reading,
    repo: &Repo<Global>,
    text: &[u8],
    policy: Policy,
    verdict: Verdict,
    skips: Option<Vec<Skip>>,
) {
    if let Verdict::Malformed(fault) = verdict {
        let malformed = Malformed::new(text, fault, reading.remedy);
        say(rt, colour, &malformed);
        return;
    }
    let Ok(bundle) = read_bundle_within(rt.alloc(), text, reading.limits()) else {
        return;
    };
    let Ok(account) = account_of(rt.alloc(), repo, &bundle, policy, verdict) else {
        return;
    };
    print_account(rt, colour, repo, &bundle, &account, skips);
}

/// Says whom the verdict of `dm apply` is about, after its base, if there is one.
pub fn explain_applied<R: Runtime + AllocGlobal>(
    rt: &R,
    colour: Colour,
    reading: Reading,
    base: Option<Base<'_>>,
    policy: Policy,
    applied: &Applied,
) {
    let skips = skips_after(rt, reading, base, &applied.text, applied.verdict);
    explain_verdict(
        rt,
        colour,
        reading,
        &applied.repo,
        &applied.text,
        policy,
        applied.verdict,
        skips,
    );
    explain_hash(rt, colour, reading, &applied.text, false);
}

/// Says whom the verdict on a text is about that was taken into this repository, and why patches were skipped, where
/// [`skips_ahead`] has told before.
pub fn explain_taken<R: Runtime + AllocGlobal>(
    rt: &R,
    colour: Colour,
    reading: Reading,
    repo: &Repo<Global>,
    text: &[u8],
    policy: Policy,
    verdict: Verdict,
    skips: Option<Vec<Skip>>,
) {
    let skips = match verdict {
        Verdict::TakenSome(_, _) => skips,
        _ => None,
    };
    explain_verdict(rt, colour, reading, repo, text, policy, verdict, skips);
}

/// Takes the text of a mail once more, and says whom its verdict is about. Returns whether the verdict is the one that the
/// mirror gave: else memory ran out.
fn explain_mail<R: Runtime + AllocGlobal>(
    rt: &R,
    colour: Colour,
    mirror: usize,
    mail: &Mail,
    verdict: Verdict,
    policy: Policy,
    arena: &mut Bump,
    repo: &mut Repo<Global>,
) -> bool {
    let Body::Bundle(text) = &mail.body else {
        return true;
    };
    let reading = Reading::of_run();
    let skips = skips_in(rt, reading, repo, text.as_bytes(), verdict);
    if take(repo, arena, text.as_bytes(), policy) != verdict {
        return false;
    }
    let poster = mail.poster;
    let number = mail.number;
    say(
        rt,
        colour,
        &format_args!("mirror {mirror} bundle {poster} {number} {verdict}\n"),
    );
    explain_verdict(
        rt,
        colour,
        reading,
        repo,
        text.as_bytes(),
        policy,
        verdict,
        skips,
    );
    true
}

/// Says of each bundle that a mirror took whom its verdict is about: the bundles are taken once more, in the same order.
fn explain_mirror<R: Runtime + AllocGlobal>(
    rt: &R,
    colour: Colour,
    outcome: &Outcome,
    mirror: usize,
    base: Option<Base<'_>>,
    policy: Policy,
)
    requires { mirror < mirror_count outcome.now }
{
    let Ok(mut repo) = repo_of(rt.alloc(), base) else {
        return;
    };
    let mut arena = Bump::new(rt.alloc());
    let mails = outcome.mails(mirror);
    for k in 0..mails.len() {
        let Some(verdict) = outcome.verdict(mirror, k) else {
            continue;
        };
        let mail = &mails[k];
        if !explain_mail(
            rt, colour, mirror, mail, verdict, policy, &mut arena, &mut repo,
        ) {
            return;
        }
    }
}

/// Says of each bundle that a mirror took whom its verdict is about, for one mirror after the other. Each began with the base.
pub fn explain_run<R: Runtime + AllocGlobal>(
    rt: &R,
    colour: Colour,
    outcome: &Outcome,
    base: Option<Base<'_>>,
    policy: Policy,
) {
    for mirror in 0..outcome.mirrors() {
        explain_mirror(rt, colour, outcome, mirror, base, policy);
    }
}
