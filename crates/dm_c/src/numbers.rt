//! The numbers that C has for values: written, and read again.
//!
//! What comes from C may be any number. So each is read as an `Option`, and what was written is read as the same value: the numbers of
//! a value are the contract of either way. A verdict of out of memory is never told, and its numbers are no verdict's.
ghost use Rattle.std.specs.Prelude.{◌≡◌, MatchOption, IfSome, Some};
ghost use Rattle.dm_named.specs.declared.fault.FaultKind.{FaultKind};
ghost use Rattle.dm_named.specs.declared.fault.FaultKind.TheVariants as faults;
ghost use Rattle.dm_named.specs.declared.limits.Kinds.{Kinds};
ghost use Rattle.dm_named.specs.declared.limits.Limits.{Limits};
ghost use Rattle.dm_repo.specs.declared.policy.Policy.{Policy};
ghost use Rattle.dm_repo.specs.declared.refusal.Refusal.{Refusal};
ghost use Rattle.dm_repo.specs.declared.refusal.Refusal.TheVariants as refusals;
ghost use Rattle.dm_scratch.specs.declared.verdict.Verdict.{Verdict};
ghost use Rattle.dm_c.specs.Numbers.{IsTellable, fault_number, kinds_number, limit_numbers, policy_number, refusal_numbers, verdict_numbers};
ghost use Rattle.dm_c.specs.Numbers.{bare, refused};
ghost use Rattle.dm_c.specs.Seeming.{seeming, seeming_malformed, seeming_refusal, seeming_refused, told_fault};

use dm_named::{FaultKind, Kinds, Limits, ReadFault};
use dm_repo::{Policy, Refusal};
use dm_scratch::Verdict;

/// How much of a text is read: `dm_limits`.
#[repr(C)]
#[derive(Clone, Copy)]
pub struct LimitNumbers {
    /// The most bytes of a text.
    pub bytes: usize,
    /// The most new patches of a bundle.
    pub patches: usize,
    /// The most primitives of a patch.
    pub prims: usize,
    /// The most replaces of a bundle.
    pub replaces: usize,
    /// The number of the kinds of primitives.
    pub kinds: u32,
}

/// What became of a text: `dm_verdict`. A number that its kind doesn't name is 0.
#[repr(C)]
#[derive(Clone, Copy, PartialEq, Eq)]
pub struct VerdictNumbers {
    /// Which verdict it is.
    pub kind: u32,
    /// The number of the fault or of the refusal.
    pub why: u32,
    /// How many patches were taken.
    pub taken: usize,
    /// How many were skipped.
    pub skipped: usize,
    /// The byte at which the fault is.
    pub at: usize,
    /// The first place of a refusal.
    pub place: usize,
    /// The second place of a refusal.
    pub other: usize,
}

/// The kinds of a number.
fn kinds_of(number: u32) -> Option<Kinds>
    ensures { MatchOption result ((kinds : Kinds) → kinds_number kinds ≡ number → ⊥) (λ kinds. kinds_number kinds ≡ number) }
{
    match number {
        0 => Some(Kinds::Six),
        1 => Some(Kinds::All),
        _ => None,
    }
}

/// The policy of a number.
pub(crate) fn policy_of(number: u32) -> Option<Policy>
    ensures { MatchOption result ((policy : Policy) → policy_number policy ≡ number → ⊥) (λ policy. policy_number policy ≡ number) }
{
    match number {
        0 => Some(Policy::Refuse),
        1 => Some(Policy::Skip),
        _ => None,
    }
}

impl LimitNumbers {
    /// The limits of these numbers.
    pub(crate) fn limits(&self) -> Option<Limits>
        ensures { MatchOption result ((limits : Limits) → limit_numbers limits ≡ self.now → ⊥) (λ limits. limit_numbers limits ≡ self.now) }
    {
        let kinds = kinds_of(self.kinds)?;
        Some(Limits {
            bytes: self.bytes,
            patches: self.patches,
            prims: self.prims,
            replaces: self.replaces,
            kinds,
        })
    }
}

/// The number of a fault.
fn number_of_fault(kind: FaultKind) -> u32
    ensures { result ≡ fault_number kind }
{
    match kind {
        FaultKind::TooLarge => 0,
        FaultKind::NoNewPatches => 1,
        FaultKind::BadInfo => 2,
        FaultKind::Inverted => 3,
        FaultKind::BadDepends => 4,
        FaultKind::BadPatch => 5,
        FaultKind::Unsupported => 6,
        FaultKind::BadPath => 7,
        FaultKind::BadNumber => 8,
        FaultKind::EmptyHunk => 9,
        FaultKind::Unclosed => 10,
        FaultKind::NoContext => 11,
        FaultKind::Doubled => 12,
        FaultKind::TooMany => 13,
        FaultKind::NoMemory => 14,
        FaultKind::BadHex => 15,
        FaultKind::BadPreference => 16,
        FaultKind::BadTokens => 17,
    }
}

/// The fault of a number. Out of memory is never told.
fn fault_of(number: u32) -> Option<FaultKind>
    ensures { result ≡ told_fault number }
{
    match number {
        0 => Some(FaultKind::TooLarge),
        1 => Some(FaultKind::NoNewPatches),
        2 => Some(FaultKind::BadInfo),
        3 => Some(FaultKind::Inverted),
        4 => Some(FaultKind::BadDepends),
        5 => Some(FaultKind::BadPatch),
        6 => Some(FaultKind::Unsupported),
        7 => Some(FaultKind::BadPath),
        8 => Some(FaultKind::BadNumber),
        9 => Some(FaultKind::EmptyHunk),
        10 => Some(FaultKind::Unclosed),
        11 => Some(FaultKind::NoContext),
        12 => Some(FaultKind::Doubled),
        13 => Some(FaultKind::TooMany),
        14 => None,
        15 => Some(FaultKind::BadHex),
        16 => Some(FaultKind::BadPreference),
        17 => Some(FaultKind::BadTokens),
        _ => None,
    }
}

impl VerdictNumbers {
    /// Those of a verdict that says no more than its kind.
    fn of_kind(kind: u32) -> VerdictNumbers
        ensures { result ≡ bare kind }
    {
        VerdictNumbers {
            kind,
            why: 0,
            taken: 0,
            skipped: 0,
            at: 0,
            place: 0,
            other: 0,
        }
    }

    /// Those of a fault.
    fn of_fault(fault: ReadFault) -> VerdictNumbers
        ensures { result ≡ verdict_numbers (Verdict.Malformed fault) }
    {
        let mut numbers = VerdictNumbers::of_kind(3);
        numbers.why = number_of_fault(fault.kind);
        numbers.at = fault.at;
        numbers
    }

    /// Those of a refusal with these places.
    fn of_places(why: u32, place: usize, other: usize) -> VerdictNumbers
        ensures { result ≡ refused why place other }
    {
        let mut numbers = VerdictNumbers::of_kind(4);
        numbers.why = why;
        numbers.place = place;
        numbers.other = other;
        numbers
    }

    /// Those of a refusal.
    fn of_refusal(refusal: Refusal) -> VerdictNumbers
        ensures { result ≡ refusal_numbers refusal }
    {
        match refusal {
            Refusal::MissingContext(c) => VerdictNumbers::of_places(0, c, 0),
            Refusal::MissingDependency(n, d) => VerdictNumbers::of_places(1, n, d),
            Refusal::ContextDepends(h, r) => VerdictNumbers::of_places(2, h, r),
            Refusal::HeldDepends(h, n) => VerdictNumbers::of_places(3, h, n),
            Refusal::DoesNotFit(n) => VerdictNumbers::of_places(4, n, 0),
            Refusal::Conflicts(n, h) => VerdictNumbers::of_places(5, n, h),
            Refusal::Full => VerdictNumbers::of_places(6, 0, 0),
            Refusal::NoMemory => VerdictNumbers::of_places(7, 0, 0),
        }
    }

    /// Those of a verdict.
    pub(crate) fn of(verdict: Verdict) -> VerdictNumbers
        ensures { result ≡ verdict_numbers verdict }
    {
        match verdict {
            Verdict::Taken(taken) => {
                let mut numbers = VerdictNumbers::of_kind(0);
                numbers.taken = taken;
                numbers
            }
            Verdict::TakenSome(taken, skipped) => {
                let mut numbers = VerdictNumbers::of_kind(1);
                numbers.taken = taken;
                numbers.skipped = skipped;
                numbers
            }
            Verdict::NothingNew => VerdictNumbers::of_kind(2),
            Verdict::Malformed(fault) => VerdictNumbers::of_fault(fault),
            Verdict::Refused(refusal) => VerdictNumbers::of_refusal(refusal),
        }
    }

    /// The refusal that these numbers would be of. Out of memory is never told.
    fn seeming_refusal(&self) -> Option<Refusal>
        ensures { result ≡ seeming_refusal self.now }
    {
        match self.why {
            0 => Some(Refusal::MissingContext(self.place)),
            1 => Some(Refusal::MissingDependency(self.place, self.other)),
            2 => Some(Refusal::ContextDepends(self.place, self.other)),
            3 => Some(Refusal::HeldDepends(self.place, self.other)),
            4 => Some(Refusal::DoesNotFit(self.place)),
            5 => Some(Refusal::Conflicts(self.place, self.other)),
            6 => Some(Refusal::Full),
            _ => None,
        }
    }

    /// The malformed text that these numbers would be of.
    fn seeming_fault(&self) -> Option<Verdict>
        ensures { result ≡ seeming_malformed self.now }
    {
        match fault_of(self.why) {
            Some(kind) => Some(Verdict::Malformed(ReadFault { kind, at: self.at })),
            None => None,
        }
    }

    /// The refused bundle that these numbers would be of.
    fn seeming_refused(&self) -> Option<Verdict>
        ensures { result ≡ seeming_refused self.now }
    {
        match self.seeming_refusal() {
            Some(refusal) => Some(Verdict::Refused(refusal)),
            None => None,
        }
    }

    /// The verdict that these numbers would be of, if no other number than it names is set.
    fn seeming(&self) -> Option<Verdict>
        ensures { result ≡ seeming self.now }
    {
        match self.kind {
            0 => Some(Verdict::Taken(self.taken)),
            1 => Some(Verdict::TakenSome(self.taken, self.skipped)),
            2 => Some(Verdict::NothingNew),
            3 => self.seeming_fault(),
            4 => self.seeming_refused(),
            _ => None,
        }
    }

    /// The verdict of these numbers.
    pub(crate) fn verdict(&self) -> Option<Verdict>
        ensures some { IfSome result (λ verdict. IsTellable verdict × (verdict_numbers verdict ≡ self.now)) }
        ensures all { (verdict : Verdict) → IsTellable verdict → verdict_numbers verdict ≡ self.now → result ≡ Some verdict }
    {
        let verdict = self.seeming()?;
        if VerdictNumbers::of(verdict) != *self {
            return None;
        }
        Some(verdict)
    }
}
