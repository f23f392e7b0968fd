//! Laws of the definitions alone. A call of them does nothing.
ghost use Rattle.dm_begin.specs.Alike.{AnswersAlike, CommonAlike, TreesStayAlike, WeighsAlike, WholeIsTaken};
ghost use Rattle.dm_begin.specs.BaseLaws.{BaseIsBrought, BaseStays, BeginningIsBase, BoundAnswerAlike, CutAnswersAlike};
ghost use Rattle.dm_begin.specs.Spreading.{BeginningIsTaken, SpreadIsBeginning};

/// The primitives that make a tree, spread over distinct names, are a beginning: patches of just these names in this order, each of
/// which depends on the one before it, which are a repository that keeps the tree. An empty repository takes them.
pub fn a_tree_has_a_beginning()
    ensures beginning { SpreadIsBeginning }
    ensures taken { BeginningIsTaken }
{}

/// A repository and another one of the same names and the same tree, with the same later patches after them, answer alike to a
/// bundle that has all these names in common with both: the same refusal with the same places, that nothing is new, or the same
/// merged patches, and as many skipped. So it is under either policy. And they make the same trees.
pub fn answers_alike()
    ensures answers { AnswersAlike }
    ensures trees { TreesStayAlike }
{}

/// What [`dm_repo::weigh`] returns for the one is right for the other, with the tree after it.
pub fn weighing_alike<A>()
    ensures { WeighsAlike A }
{}

/// Where the patches of the same names also name the same dependencies, a bundle has them in common with both, or with neither.
pub fn same_dependencies_are_common_alike()
    ensures { CommonAlike }
{}

/// A whole repository is merged into an empty one as it is, under either policy.
pub fn a_whole_repository_is_taken()
    ensures { WholeIsTaken }
{}

/// A beginning whose last name is a tag and whose tree has an entry has the form of a base, all of it.
pub fn a_beginning_is_a_base()
    ensures { BeginningIsBase }
{}

/// What is taken behind a base leaves it as it is: the same patches may be the base, and no others are the first.
pub fn a_base_stays()
    ensures { BaseStays }
{}

/// Two bundles of the same new patches are answered alike where both contexts are held, with the same in their closed sets. So it is
/// with a bundle of which the base was cut, in each repository where the last name of the base brings the others with it, as
/// it does in the repository whose base it is.
pub fn cut_contexts_answer_alike()
    ensures bound { BoundAnswerAlike }
    ensures brought { BaseIsBrought }
    ensures cut { CutAnswersAlike }
{}
