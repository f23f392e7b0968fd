//! The laws of the mirrors of a run. Each call does nothing; whoever calls it knows the law from there on.
ghost use Rattle.dm_agree.specs.Laws.{AcceptingMirrorsAgree, MirrorsAgree, MirrorsTakeWhatIsSent};

/// Two mirrors of a run over one base whose repositories hold the same names have the same tree, in whatever order they took the
/// bundles, under whatever policies, and whatever was refused, where a name stands for one patch in what is read of what the posters
/// send.
pub fn mirrors_agree()
    ensures { MirrorsAgree }
{}

/// A mirror of a run took the texts that the posters send, all of them and no other.
pub fn mirrors_take_what_is_sent()
    ensures { MirrorsTakeWhatIsSent }
{}

/// Where a run accepted all, two of its mirrors over one base have the same names and the same tree, in whatever order they took the
/// bundles and under whatever policies, where a name stands for one patch in what is read of what the posters send.
pub fn accepting_mirrors_agree()
    ensures { AcceptingMirrorsAgree }
{}
