//! What holds of the numbers of all values.
ghost use Rattle.std.specs.Prelude.{◌≡◌};
ghost use Rattle.dm_named.specs.declared.limits.Limits.{Limits};
ghost use Rattle.dm_repo.specs.declared.policy.Policy.{Policy};
ghost use Rattle.dm_c.specs.Numbers.{limit_numbers, policy_number};

/// No two policies have one number, and no two limits the same numbers: so each is read again as what was written. That a verdict is
/// read again is in the contract of its reader.
pub fn numbers_tell_apart()
    ensures policies { (p q : Policy) → policy_number p ≡ policy_number q → p ≡ q }
    ensures limits { (l m : Limits) → limit_numbers l ≡ limit_numbers m → l ≡ m }
{}
