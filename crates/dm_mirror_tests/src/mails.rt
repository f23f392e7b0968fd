//! Mails of one poster and of two: that they come, and what becomes of them once an end is gone. Which mail comes, and why one
//! isn't sent, is in contracts.

use crate::asking::{is_sent_back, sends};
use dm_mail::{Body, Inlet, MOST_BUNDLES, MailFault, Outlet, open};
use std::alloc::Global;
use std::sync::Wait;

/// Why there is no mail of so many posters, of which so many may wait.
fn fault_of<R: Wait>(rt: &R, alloc: Global, posters: usize, bound: usize) -> Option<MailFault> {
    open(rt, alloc, posters, bound).err()
}

#[test]
fn mail_of_one_to_eight_posters_is_opened(rt: HostRuntime) {
    let posters = Some(MailFault::BadPosters);
    let bound = Some(MailFault::BadBound);
    assert!(rt; fault_of(&rt, rt.alloc(), 0, 1) == posters, "no poster");
    assert!(rt; fault_of(&rt, rt.alloc(), 1, 1).is_none(), "one poster");
    assert!(rt; fault_of(&rt, rt.alloc(), 8, 64).is_none(), "eight posters");
    assert!(rt; fault_of(&rt, rt.alloc(), 9, 1) == posters, "nine posters");
    assert!(rt;
        fault_of(&rt, rt.alloc(), 2, 0) == bound,
        "no mail may wait"
    );
    assert!(rt;
        fault_of(&rt, rt.alloc(), 2, 65) == bound,
        "65 mails may wait"
    );
}

/// Opens the mail of one poster.
fn open_one<R: Wait>(
    rt: &R,
    alloc: Global,
    bound: usize,
) -> Result<(Option<Outlet>, Inlet), MailFault> {
    let (mut outlets, inlet) = open(rt, alloc, 1, bound)?;
    Ok((outlets.pop(), inlet))
}

/// Whether as many bundles as may be come, each taken at once, and not one more is sent.
fn sends_all<R: Wait>(rt: &R, alloc: Global, outlet: &mut Outlet, inlet: &mut Inlet) -> bool {
    for _ in 0..MOST_BUNDLES {
        if !sends(rt, alloc, outlet) || inlet.take(rt).is_err() {
            return false;
        }
    }
    !sends(rt, alloc, outlet)
}

/// Whether all bundles come, then the mark, and then no mail, although what was sent isn't settled.
fn ends_with_its_mark<R: Wait>(rt: &R, alloc: Global, outlet: Outlet, inlet: &mut Inlet) -> bool {
    let mut outlet = outlet;
    let are_taken = sends_all(rt, alloc, &mut outlet, inlet);
    match outlet.close(rt) {
        Ok(_sent) => are_taken && inlet.take(rt).is_ok() && inlet.take(rt).is_err(),
        Err(_) => false,
    }
}

/// Whether a poster sends all that it may within this bound, and then its mark.
fn sends_all_within<R: Wait>(rt: &R, alloc: Global, bound: usize) -> bool {
    let Ok((outlet, mut inlet)) = open_one(rt, alloc, bound) else {
        return false;
    };
    match outlet {
        Some(outlet) => ends_with_its_mark(rt, alloc, outlet, &mut inlet),
        None => false,
    }
}

#[test]
fn a_poster_sends_a_thousand_bundles(rt: HostRuntime) {
    assert!(rt; sends_all_within(&rt, rt.alloc(), 1), "one mail waits");
    assert!(rt; sends_all_within(&rt, rt.alloc(), 64), "64 mails may wait");
}

/// Whether a bundle and the mark come back.
fn is_refused<R: Wait>(rt: &R, alloc: Global, outlet: Outlet) -> bool {
    let mut outlet = outlet;
    is_sent_back(rt, alloc, &mut outlet) && outlet.close(rt).is_err()
}

#[test]
fn an_inlet_that_is_gone_takes_nothing(rt: HostRuntime) {
    let Ok((outlet, inlet)) = open_one(&rt, rt.alloc(), 1) else {
        return assert!(rt; false, "an outlet and an inlet");
    };
    drop(inlet);
    let is_back = match outlet {
        Some(outlet) => is_refused(&rt, rt.alloc(), outlet),
        None => false,
    };
    assert!(rt; is_back, "a bundle and a mark come back");
}

/// Whether what one poster sends comes, also once the poster is gone, and then no mail.
fn is_cut_after<R: Wait>(rt: &R, alloc: Global, outlet: Outlet, inlet: &mut Inlet) -> bool {
    let mut outlet = outlet;
    let is_taken = sends(rt, alloc, &mut outlet) && inlet.take(rt).is_ok();
    let is_sent = sends(rt, alloc, &mut outlet);
    drop(outlet.leave());
    is_taken && is_sent && inlet.take(rt).is_ok() && inlet.take(rt).is_err()
}

#[test]
fn outlets_that_are_all_gone_cut_the_mail(rt: HostRuntime) {
    let Ok((mut outlets, mut inlet)) = open(&rt, rt.alloc(), 2, 4) else {
        return assert!(rt; false, "two outlets and an inlet");
    };
    let second = outlets.pop();
    drop(outlets);
    let is_cut = match second {
        Some(outlet) => is_cut_after(&rt, rt.alloc(), outlet, &mut inlet),
        None => false,
    };
    assert!(rt; is_cut, "what the second sends, and then no mail");
}

/// Whether the next mail is of this poster and has this number, and whether it is a mark.
fn takes<R: Wait>(rt: &R, inlet: &mut Inlet, poster: usize, number: usize, is_mark: bool) -> bool {
    match inlet.take(rt) {
        Ok(mail) => {
            mail.poster == poster
                && mail.number == number
                && matches!(mail.body, Body::Close) == is_mark
        }
        Err(_) => false,
    }
}

/// Whether a bundle of each of two posters comes, then their marks, and then no mail.
fn come_in_turn<R: Wait>(rt: &R, inlet: &mut Inlet) -> bool {
    takes(rt, inlet, 0, 0, false)
        && takes(rt, inlet, 1, 0, false)
        && takes(rt, inlet, 0, 1, true)
        && takes(rt, inlet, 1, 1, true)
        && inlet.take(rt).is_err()
}

/// Whether what two posters send in turn, a bundle each and then their marks, comes so.
fn come_as_sent<R: Wait>(
    rt: &R,
    alloc: Global,
    first: Outlet,
    second: Outlet,
    inlet: &mut Inlet,
) -> bool {
    let mut first = first;
    let mut second = second;
    if !sends(rt, alloc, &mut first) || !sends(rt, alloc, &mut second) {
        return false;
    }
    match (first.close(rt), second.close(rt)) {
        (Ok(_one), Ok(_other)) => come_in_turn(rt, inlet),
        _ => false,
    }
}

#[test]
fn two_posters_send_in_turn(rt: HostRuntime) {
    let Ok((mut outlets, mut inlet)) = open(&rt, rt.alloc(), 2, 4) else {
        return assert!(rt; false, "two outlets and an inlet");
    };
    let second = outlets.pop();
    let first = outlets.pop();
    let came = match (first, second) {
        (Some(first), Some(second)) => come_as_sent(&rt, rt.alloc(), first, second, &mut inlet),
        _ => false,
    };
    assert!(rt; came, "two bundles, two marks, and then no mail");
}
