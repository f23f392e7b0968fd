//! The laws of chains, for ports of any type. Each call does nothing; whoever calls it knows the law
//! from there on.
ghost use Rattle.dm_chain.specs.Laws.{CommutedHunksStepAlike, HunksInTurnAddUp, InversesStepBack, LeftPortsOfAChain, LinesHaveAChain, OneWayToStep, ReplacedLinesHaveAStep, SameChangesSameFile, StepsChangeTheSet, StepsKeepChains, StepsKeepPortsApart, StepsKeepTheSum, StepsReplaceLines, SumsForgetOrder, SumsJoin, TokensDetermineTheChain, TokensDetermineTheHunk};

/// A hunk that steps from one chain to another replaces its old lines by its new ones.
pub fn steps_replace_lines<I>()
    ensures { StepsReplaceLines I }
{}

/// The inverse of a hunk steps back; it takes what the hunk added, and adds what the hunk took.
pub fn inverses_step_back<I>()
    ensures { InversesStepBack I }
{}

/// A hunk steps from a chain to a chain, with the same first and last port.
pub fn steps_keep_chains<I>()
    ensures { StepsKeepChains I }
{}

/// Where two hunks of one file change places, each takes and adds the same tokens as before.
pub fn commuted_hunks_step_alike<I>()
    ensures { CommutedHunksStepAlike I }
{}

/// A hunk that replaces lines of a chain's file steps from that chain, with new ports that it is given.
pub fn replaced_lines_have_a_step<I>()
    ensures { ReplacedLinesHaveAStep I }
{}

/// Any lines are those of a chain, with new ports that it is given.
pub fn lines_have_a_chain<I>()
    ensures { LinesHaveAChain I }
{}

/// The chain and the hunk decide what it takes, and with the ports within it what it adds.
pub fn one_way_to_step<I>()
    ensures { OneWayToStep I }
{}

/// What a hunk takes and adds decides where it stands in a chain, and what it makes of it.
pub fn tokens_determine_the_hunk<I>()
    ensures { TokensDetermineTheHunk I }
{}

/// The tokens of a chain, in any order, determine it.
pub fn tokens_determine_the_chain<I>()
    ensures { TokensDetermineTheChain I }
{}

/// A step takes some tokens out of the set, and puts some into it.
pub fn steps_change_the_set<I>()
    ensures { StepsChangeTheSet I }
{}

/// The first port of a chain and those between its tokens are its left ports.
pub fn left_ports_of_a_chain<I>()
    ensures { LeftPortsOfAChain I }
{}

/// No port becomes the left port of two tokens by a step whose ports are new.
pub fn steps_keep_ports_apart<I>()
    ensures { StepsKeepPortsApart I }
{}

/// The tokens before a step and those added are the tokens after it and those taken, each as often.
pub fn steps_keep_the_sum<I>()
    ensures { StepsKeepTheSum I }
{}

/// Hunks in turn are a sum of what each takes and adds, and so are the ports.
pub fn hunks_in_turn_add_up<I>()
    ensures { HunksInTurnAddUp I }
{}

/// What changes come to, and what further ones come to from there, all of them come to.
pub fn sums_join<X>()
    ensures { SumsJoin X }
{}

/// What changes come to doesn't depend on their order.
pub fn sums_forget_order<X>()
    ensures { SumsForgetOrder X }
{}

/// Hunks that take and add the same tokens make the same file, in whatever order they come.
pub fn same_changes_same_file<I>()
    ensures { SameChangesSameFile I }
{}
