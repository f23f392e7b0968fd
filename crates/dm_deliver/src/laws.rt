//! Laws of the definitions alone. A call of them does nothing.
ghost use Rattle.dm_deliver.specs.Laws.{AnswersFold};

/// Texts that are answered leave what those of them leave that are taken in turn, with their verdicts: a text whose hash is
/// refused, or that comes before the base, counts for nothing.
pub fn answers_fold()
    ensures { AnswersFold }
{}
