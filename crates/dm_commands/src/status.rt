//! The exit status of an answer.
ghost use Rattle.std.specs.Prelude.{◌≡◌};
ghost use Rattle.dm_commands.specs.Printing.{status_of};

use dm_scratch::Verdict;

/// The exit status that tells a verdict: 0 where all of the bundle was taken or it brought nothing new, else 1.
pub fn status_of(verdict: Verdict) -> u8
    ensures { result ≡ status_of verdict }
{
    if verdict.is_accepted() { 0 } else { 1 }
}
