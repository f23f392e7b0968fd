//! What a mirror's thread does.
ghost use Rattle.std.specs.Prelude.{◌≡◌, [], length};
ghost use Rattle.dm_mail.specs.Ends.{SameInlet, inlet_posters, all_taken};
ghost use Rattle.dm_mail.specs.Mails.{AllBelow};
ghost use Rattle.dm_mirror.specs.Mirrors.{IsReady};
ghost use Rattle.dm_mirror.specs.PlainFolds.{IsPlainFold, TakesBody};

use crate::gate::Gate;
use crate::jobs::Kept;
use crate::mirror::{Mirror, MirrorOf};
use bumpalo::Bump;
use dm_mail::{Body, Inlet};
use dm_repo::{Policy, Repo};
use dm_scratch::{Verdict, take};
use std::alloc::Global;
use std::sync::Wait;
use std::thread;

/// Takes the bundle of a mail into the repository. A mark is passed over.
fn take_body(
    repo: &mut Repo<Global>,
    arena: &mut Bump,
    body: &Body,
    policy: Policy,
) -> Option<Verdict>
    ensures { TakesBody repo.old.patches body.now policy result repo.new.patches }
{
    match body {
        Body::Bundle(text) => Some(take(repo, arena, text.as_bytes(), policy)),
        Body::Close => None,
    }
}

/// Takes so many mails, for which there is room, and the bundle of each into the mirror's repository, under this policy. Where
/// the inlet says that no mail comes, it asks again.
pub(crate) fn take_mails<R: Wait, G: Gate>(
    rt: &R,
    arena: &mut Bump,
    gate: &G,
    number: usize,
    policy: Policy,
    inlet: Inlet,
    mirror: Mirror,
    expected: usize,
) -> Kept
    requires fresh { all_taken inlet ≡ [] }
    requires ready { IsReady (inlet_posters inlet) expected mirror }
    ensures same { SameInlet inlet result.inlet }
    ensures taken { all_taken result.inlet ≡ result.mirror.mails.items }
    ensures count { length result.mirror.mails.items ≡ expected }
    ensures posters { AllBelow (inlet_posters inlet) result.mirror.mails.items }
    ensures fold { IsPlainFold mirror.repo.patches result.mirror.mails.items policy result.mirror.verdicts.items result.mirror.repo.patches }
    ensures receipts { result.mirror.receipts ≡ mirror.receipts }
{
    let mut inlet = inlet;
    let MirrorOf {
        mut repo,
        mut mails,
        mut verdicts,
        receipts,
    } = mirror;
    for _ in rt.forever() {
        let taken = mails.len();
        if taken >= expected {
            break;
        }
        gate.before_take(number, taken);
        match inlet.take(rt) {
            Ok(mail) => {
                verdicts.push_reserved(take_body(&mut repo, arena, &mail.body, policy));
                mails.push_reserved(mail);
                gate.after_take(number, taken);
            }
            Err(_) => thread::yield_now(),
        }
    }
    let mirror = MirrorOf {
        repo,
        mails,
        verdicts,
        receipts,
    };
    Kept { inlet, mirror }
}
