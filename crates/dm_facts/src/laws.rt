//! The laws of trees with identities of any type `I`, and of heaps of replaces. Each call does nothing; whoever calls it knows the law from there on.
ghost use Rattle.dm_facts.specs.Laws.{EffectsDetermineTheEnd, EffectsStay, FactsDetermineTheTree, HeapsForgetOrder, HeapsSpellInTurn, InversesStepBack, ListEffectsStay, MergedEffectsStay, StepsApply, StepsKeepTheSum, StepsKeepTrees, TextsHaveOneSymbol, WhatLeadsSteps};

/// A step of a tree with identities is one of the tree with none.
pub fn steps_apply<I>()
    ensures { StepsApply I }
{}

/// Primitives that lead from a tree with its identities left out make steps of that tree, with identities from a list of enough
/// new ones.
pub fn what_leads_steps<I>()
    ensures { WhatLeadsSteps I }
{}

/// A primitive makes one tree of another exactly where its inverse makes the other of the one, with the inverse effect.
pub fn inverses_step_back<I>()
    ensures { InversesStepBack I }
{}

/// Two primitives that commute make the same tree in both orders, and each takes and adds the same facts in both.
pub fn effects_stay<I>()
    ensures { EffectsStay I }
{}

/// Two lists that commute make the same tree in both orders, and each has the same effects in both.
pub fn list_effects_stay<I>()
    ensures { ListEffectsStay I }
{}

/// Two lists that start at one tree and are merged: each has the same effects after the other.
pub fn merged_effects_stay<I>()
    ensures { MergedEffectsStay I }
{}

/// A step that adds what is new leads from a tree to a tree.
pub fn steps_keep_trees<I>()
    ensures { StepsKeepTrees I }
{}

/// A step is a sum of facts: what was there with what is added is what is there then with what is taken away.
pub fn steps_keep_the_sum<I>()
    ensures { StepsKeepTheSum I }
{}

/// Two trees with one root in which the same facts hold are the same.
pub fn facts_determine_the_tree<I>()
    ensures { FactsDetermineTheTree I }
{}

/// Two runs from one tree that have the same effects, in any order, end in one tree, as long as all that they introduce is new.
pub fn effects_determine_the_end<I>()
    ensures { EffectsDetermineTheEnd I }
{}

/// Two replaces that don't lean on each other make the same heap in both orders.
pub fn heaps_forget_order()
    ensures { HeapsForgetOrder }
{}

/// With a replace put on, a heap spells each symbol as before, and then with the two tokens exchanged.
pub fn heaps_spell_in_turn()
    ensures { HeapsSpellInTurn }
{}

/// A heap spells each text of one symbol.
pub fn texts_have_one_symbol()
    ensures { TextsHaveOneSymbol }
{}
