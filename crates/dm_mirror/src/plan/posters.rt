//! The posters of a plan.
ghost use Rattle.std.specs.Prelude.{◌≡◌, ◌<◌, ◌≤◌, ◌↔◌, map, length, IfOk, IsTrue};
ghost use Rattle.std.specs.List.{All};
ghost use Rattle.dm_mirror.specs.Deliveries.{mails_in};
ghost use Rattle.dm_mail.specs.Limits.{most_posters};
ghost use Rattle.dm_mirror.specs.Plans.{AreFew};

use crate::poster::Poster;
use dm_mail::MOST_BUNDLES;
use std::alloc::{AllocError, Global};
use std::collections::VecDeque;

/// Whether no poster has too many bundles.
pub(crate) fn are_few(posters: &[&[&[u8]]]) -> bool
    ensures { IsTrue result ↔ AreFew (map (λ texts. map (λ text. text.now) texts.now) posters.now) }
{
    for texts in posters {
        if texts.len() > MOST_BUNDLES {
            return false;
        }
    }
    true
}

/// How many mails these posters send to each mirror.
pub(crate) fn count_mails(posters: &[&[&[u8]]]) -> usize
    requires few { AreFew (map (λ texts. map (λ text. text.now) texts.now) posters.now) }
    requires most { length posters.now ≤ most_posters }
    ensures { result ≡ mails_in (map (λ texts. map (λ text. text.now) texts.now) posters.now) }
{
    let mut count = 0;
    for texts in posters {
        count += texts.len() + 1;
    }
    count
}

/// The posters of these texts.
pub(crate) fn posters_of(
    alloc: Global,
    posters: &[&[&[u8]]],
    mirrors: usize,
) -> Result<VecDeque<Poster>, AllocError>
    requires few { AreFew (map (λ texts. map (λ text. text.now) texts.now) posters.now) }
    requires some { 0 < mirrors }
    ensures texts { IfOk result (λ made. map (λ poster. poster.texts.value.items) made.items ≡ map (λ texts. map (λ text. text.now) texts.now) posters.now) }
    ensures copies { IfOk result (λ made. All (λ poster. length poster.copies.items ≡ mirrors) made.items) }
{
    let mut made = VecDeque::with_capacity(alloc, posters.len())?;
    for texts in posters {
        made.push_back(Poster::new(alloc, texts, mirrors)?)?;
    }
    Ok(made)
}
