//! How a text and its policy stand in the journal, and the text of a whole repository.
ghost use Rattle.std.specs.Prelude.{◌≡◌, ◌<◌, ◌^◌, List, ℕ, [], IfSome, IfNone, IfOk, IfErr};
ghost use Rattle.dm_journal.specs.declared.device.DeviceError.TheVariants.{Memory};
ghost use Rattle.dm_journal.specs.declared.fault.WriteError.TheVariants.{Device as WritingDevice};
ghost use Rattle.dm_store.specs.Entries.{policy_byte, entry_of, whole_entry, counted_entry};

use dm_journal::{WriteError, read_length};
use dm_repo::Policy;
use std::alloc::{AllocError, Global};

// The first byte of the entry of a whole repository whose base its form tells.
const WHOLE: u8 = 2;

// The first byte of the entry of a whole repository that tells how many patches are its base.
const COUNTED: u8 = 3;

// The entry of a text that was taken under a policy.
pub fn make_entry(alloc: Global, text: &[u8], policy: Policy) -> Result<Vec<u8>, WriteError>
    ensures entry { IfOk result (λ entry. entry.items ≡ entry_of policy text.now) }
    ensures err { IfErr result (λ e. e ≡ WritingDevice Memory) }
{
    let mut entry = Vec::with_capacity(alloc, text.len() + 1)?;
    entry.push(byte_of(policy))?;
    entry.extend_from_slice(text)?;
    Ok(entry)
}

// The entry of a whole repository, so many of whose patches are its base, without its text.
pub fn begin_counted_entry(alloc: Global, base: usize) -> Result<Vec<u8>, AllocError>
    ensures { IfOk result (λ entry. entry.items ≡ counted_entry base []) }
{
    let mut entry = Vec::new(alloc);
    entry.push(COUNTED)?;
    entry.extend_from_slice(&(base as u64).to_le_bytes())?;
    Ok(entry)
}

fn byte_of(policy: Policy) -> u8
    ensures { result ≡ policy_byte policy }
{
    match policy {
        Policy::Refuse => 0,
        Policy::Skip => 1,
    }
}

// The policy and the text of an entry.
pub fn split_entry(entry: &[u8]) -> Option<(Policy, &[u8])>
    ensures some { IfSome result (λ r. entry.now ≡ entry_of r.0 r.1.now) }
    ensures none { IfNone result ((policy : Policy) (text : List ℕ) → entry.now ≡ entry_of policy text → ⊥) }
{
    let [byte, text @ ..] = entry else {
        return None;
    };
    match *byte {
        0 => Some((Policy::Refuse, text)),
        1 => Some((Policy::Skip, text)),
        _ => None,
    }
}

// The text of an entry of a whole repository.
pub fn strip_whole(entry: &[u8]) -> Option<&[u8]>
    ensures some { IfSome result (λ text. entry.now ≡ whole_entry text.now) }
    ensures none { IfNone result ((text : List ℕ) → entry.now ≡ whole_entry text → ⊥) }
{
    let [byte, text @ ..] = entry else {
        return None;
    };
    if *byte != WHOLE {
        return None;
    }
    Some(text)
}

// The base and the text of an entry of a whole repository that tells its base.
pub fn strip_counted(entry: &[u8]) -> Option<(usize, &[u8])>
    ensures some { IfSome result (λ r. entry.now ≡ counted_entry r.0 r.1.now) }
    ensures none { IfNone result ((base : ℕ) (text : List ℕ) → base < 2 ^ 64 → entry.now ≡ counted_entry base text → ⊥) }
{
    let [byte, rest @ ..] = entry else {
        return None;
    };
    if *byte != COUNTED {
        return None;
    }
    let Some((base, text)) = read_length(rest) else {
        return None;
    };
    Some((base as usize, text))
}
