//! Laws of the definitions alone. A call of them does nothing.
ghost use Rattle.dm_store.specs.Laws.{KeepsOneRepo, KeepsABase, KeepsItsKinds, KeepsOrHasBadEntry, TwiceIsOnce, RepositoryIsTakenAgain};

use dm_journal::laws::a_file_has_one_answer;

/// A file keeps at most one repository with one base, and then it has no bad entry.
pub fn a_file_keeps_one_repository()
    ensures one { KeepsOneRepo }
    ensures no_bad_entry { KeepsOrHasBadEntry }
{
    a_file_has_one_answer();
}

/// A file that is for some kinds of primitives keeps no others.
pub fn a_file_keeps_its_kinds()
    ensures { KeepsItsKinds }
{}

/// What a file keeps may have the base that the file tells.
pub fn a_file_keeps_a_base()
    ensures { KeepsABase }
{}

/// A bundle that was accepted, under either policy, and comes again, under either, to any repository that begins with the
/// patches which it left, brings nothing new. One that was taken in part isn't accepted.
pub fn twice_is_once()
    ensures { TwiceIsOnce }
{}

/// A text that stands for all patches of a repository, both within the limits for one's own, is taken into an empty
/// repository, which has then just these patches.
pub fn a_repository_is_taken_again()
    ensures { RepositoryIsTakenAgain }
{}
