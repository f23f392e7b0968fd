//! What a poster sends.
ghost use Rattle.std.specs.Prelude.{◌≡◌, ◌<◌, ◌≤◌, length, map, IfOk};
ghost use Rattle.std.specs.List.{All};
ghost use Rattle.dm_mail.specs.Limits.{most_bundles};

use dm_mail::Text;
use std::alloc::{AllocError, Global};
use std::collections::VecDeque;
use std::snapshot::Snapshot;

// A poster's texts, once for each mirror, which share their bytes, and how many they are.
#[derive(Drop)]
pub(crate) struct Poster {
    pub(crate) copies: VecDeque<VecDeque<Text>>,
    pub(crate) count: usize,
    pub(crate) texts: Snapshot<VecDeque<Text>>,
    ghost alike: { All (λ copy. copy.items ≡ texts.value.items) copies.items },
    ghost counted: { length texts.value.items ≡ count },
    ghost few: { count ≤ most_bundles },
}

impl Poster {
    /// A poster of these texts, which all of so many mirrors share.
    pub(crate) fn new(alloc: Global, texts: &[&[u8]], mirrors: usize) -> Result<Poster, AllocError>
        requires few { length texts.now ≤ most_bundles }
        requires some { 0 < mirrors }
        ensures texts { IfOk result (λ poster. poster.texts.value.items ≡ map (λ text. text.now) texts.now) }
        ensures copies { IfOk result (λ poster. length poster.copies.items ≡ mirrors) }
    {
        let made = texts_of(alloc, texts)?;
        let first = shares_of(alloc, &made)?;
        let all = Snapshot::of(&first);
        let mut copies = VecDeque::with_capacity(alloc, mirrors)?;
        copies.push_back(first)?;
        for _ in 1..mirrors {
            copies.push_back(shares_of(alloc, &made)?)?;
        }
        Ok(Poster {
            copies,
            count: texts.len(),
            texts: all,
        })
    }
}

/// The texts of these bytes, which are copied.
fn texts_of(alloc: Global, texts: &[&[u8]]) -> Result<Vec<Text>, AllocError>
    ensures { IfOk result (λ made. made.items ≡ map (λ text. text.now) texts.now) }
{
    let mut made = Vec::with_capacity(alloc, texts.len())?;
    for text in texts {
        made.push(Text::new(alloc, Vec::from_slice(alloc, text)?)?)?;
    }
    Ok(made)
}

/// The same texts once more, without a copy of their bytes.
fn shares_of(alloc: Global, texts: &[Text]) -> Result<VecDeque<Text>, AllocError>
    ensures { IfOk result (λ shares. shares.items ≡ texts.now) }
{
    let mut shares = VecDeque::with_capacity(alloc, texts.len())?;
    for text in texts {
        shares.push_back(text.share()?)?;
    }
    Ok(shares)
}
