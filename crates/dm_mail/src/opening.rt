//! How a mirror's mail begins.
ghost use Rattle.std.specs.Prelude.{◌≡◌, ◌<◌, ◌≤◌, [], ℕ, length, IfOk, OnOk, IfErr};
ghost use Rattle.dm_mail.specs.declared.opening.MailFault.{MailFault};
ghost use Rattle.dm_mail.specs.declared.opening.MailFault.TheVariants.{NoMemory};
ghost use Rattle.dm_mail.specs.Faults.{IsOpenable, IsFirstFault};
ghost use Rattle.dm_mail.specs.Ends.{inlet_posters, all_taken, AreNewOutlets, inlet_bound};

use crate::ends::{Inlet, Outlet};
use crate::mail::Mail;
use crate::rule::{Bound, ForPoster, InOrder};
use crate::view::View;
use crossbeam_channel::bounded_with;
use std::alloc::{AllocError, Global};
use std::marker::Brand;
use std::sync::Wait;

/// The most posters that a mirror's mail has.
pub const MOST_POSTERS: usize = 8;

/// The most mails that may wait.
pub const MOST_WAITING: usize = 64;

/// Why no mail was opened, in the order in which it is reported. The first two take no memory.
#[derive(Clone, Copy, PartialEq, Eq, Debug)]
pub enum MailFault {
    /// The count of posters isn't 1 to 8.
    BadPosters,
    /// The bound isn't 1 to 64.
    BadBound,
    /// An allocation failed.
    NoMemory,
}

impl From<AllocError> for MailFault {
    ghost from_gives = { λ _ fault. fault ≡ NoMemory };

    fn from(_: AllocError) -> MailFault {
        MailFault::NoMemory
    }
}

/// Opens the mail of one mirror: an outlet for each poster, in order, and the inlet. At most `bound` mails wait. All
/// memory that the ends need is taken here.
pub fn open<R: Wait>(
    rt: &R,
    alloc: Global,
    posters: usize,
    bound: usize,
) -> Result<(Vec<Outlet>, Inlet), MailFault>
    ensures valid { OnOk result (IsOpenable posters bound) }
    ensures outlets { IfOk result (λ r. (length r.0.items ≡ posters) × AreNewOutlets r.1 0 r.0.items) }
    ensures inlet { IfOk result (λ r. (inlet_posters r.1 ≡ posters) × (all_taken r.1 ≡ [])) }
    ensures bound { IfOk result (λ r. inlet_bound r.1 ≡ bound) }
    ensures fault { IfErr result (IsFirstFault posters bound) }
{
    if posters == 0 || posters > MOST_POSTERS {
        return Err(MailFault::BadPosters);
    }
    if bound == 0 || bound > MOST_WAITING {
        return Err(MailFault::BadBound);
    }
    Ok(open_within::<Brand>(alloc, posters, bound)?)
}

/// The same for any number of posters, and within a bound that has a name, by which the rule of the channel knows it.
fn open_within<B: Bound>(
    alloc: Global,
    posters: usize,
    bound: usize,
) -> Result<(Vec<Outlet>, Inlet), AllocError>
    requires { (0 < posters) × (0 < bound) × (bound ≡ B.bound) }
    ensures outlets { IfOk result (λ r. (length r.0.items ≡ posters) × AreNewOutlets r.1 0 r.0.items) }
    ensures inlet { IfOk result (λ r. (inlet_posters r.1 ≡ posters) × (all_taken r.1 ≡ [])) }
    ensures bound { IfOk result (λ r. inlet_bound r.1 ≡ bound) }
{
    let mut outlets = Vec::new(alloc);
    outlets.reserve(posters)?;
    let (sender, receiver, mut pass) = bounded_with::<Mail, View, InOrder, Global>(alloc, bound)?;
    for poster in 0..posters {
        let sender = sender.try_clone()?;
        let own_pass = sender.another::<ForPoster<B>>(&mut pass);
        outlets.push_reserved(Outlet {
            sender,
            pass: own_pass,
            poster,
            count: 0,
        });
    }
    let inlet = Inlet {
        receiver,
        pass,
        posters,
        marks: 0,
    };
    Ok((outlets, inlet))
}
