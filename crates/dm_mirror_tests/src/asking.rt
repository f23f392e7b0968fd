//! What tests ask. A yes is proved to be one, so that no test passes for want of asking.
ghost use Rattle.std.specs.Prelude.{◌≡◌, ◌++◌, [], ◌∷◌, IsTrue, IfSome};
ghost use Rattle.dm_mail.specs.Ends.{outlet_mails};
ghost use Rattle.dm_mail.specs.declared.mail.Mail.{Mail};
ghost use Rattle.dm_mirror.specs.Plans.{plan_bound, plan_policies, plan_starts, plan_texts};
ghost use Rattle.dm_mirror.specs.Report.{IsReport};
ghost use Rattle.dm_mirror.specs.Runs.{IsRunOf};
ghost use Rattle.dm_mirror.specs.declared.outcome.Outcome.{Outcome};

use dm_mail::{Outlet, Text, Why};
use dm_mirror::{Gate, Plan, report_text, run};
use std::alloc::{AllocError, Global};
use std::sync::Wait;
use std::thread::Threads;

/// The text of a bundle that is sent.
fn text_of(alloc: Global, bytes: &[u8]) -> Result<Text, AllocError> {
    Text::new(alloc, Vec::from_slice(alloc, bytes)?)
}

/// Whether a bundle is sent.
pub(crate) fn sends<R: Wait>(rt: &R, alloc: Global, outlet: &mut Outlet) -> bool
    ensures { IsTrue result → (mail : Mail) × (outlet_mails outlet.new ≡ outlet_mails outlet.old ++ mail ∷ []) }
{
    match text_of(alloc, b"x") {
        Ok(text) => outlet.send(rt, text).is_ok(),
        Err(_) => false,
    }
}

/// Whether a bundle comes back, since the inlet is gone.
pub(crate) fn is_sent_back<R: Wait>(rt: &R, alloc: Global, outlet: &mut Outlet) -> bool
    ensures { IsTrue result → outlet_mails outlet.new ≡ outlet_mails outlet.old }
{
    let Ok(text) = text_of(alloc, b"x") else {
        return false;
    };
    match outlet.send(rt, text) {
        Ok(()) => false,
        Err(unsent) => unsent.why == Why::Gone,
    }
}

/// The report of a run whose gate this is. `None` where it wasn't run, or memory ran out.
pub(crate) fn report_of<R: Threads + Wait + Sync, G: Gate + Sync>(
    rt: &R,
    alloc: Global,
    plan: Plan,
    gate: &G,
) -> Option<Vec<u8>>
    ensures { IfSome result (λ text. (o : Outcome) × IsRunOf (plan_texts plan) (plan_starts plan) (plan_policies plan) (plan_bound plan) o × IsReport o text.items) }
{
    match run(rt, alloc, plan, gate) {
        Ok(outcome) => match report_text(alloc, &outcome) {
            Ok(text) => Some(text),
            Err(_) => None,
        },
        Err(_) => None,
    }
}
