//! `dm run`: the words of posters, and the plan that they make.
ghost use Rattle.std.specs.Prelude.{◌≡◌, ◌≢◌, ◌⊎◌, ℕ, List, [], ◌∷◌, ◌++◌, OnOk, IfErr, IfOk, MatchOption, option_map};
ghost use Rattle.dm_mirror.specs.declared.plan.PlanFault.{PlanFault};
ghost use Rattle.dm_commands.specs.declared.fault.ToolFault.TheVariants as ToolFault;
ghost use Rattle.dm_commands.specs.declared.running.Ran.{Ran};
ghost use Rattle.dm_commands.specs.Alike.{HasFaultAs, IsRanAs};
ghost use Rattle.dm_commands.specs.Running.{texts_in};
ghost use Rattle.dm_files.specs.Bases.{IsBaseOrEmpty};
ghost use Rattle.dm_tool.specs.Posters.{AreRead, AreSplit, IsFirstBad, IsNoPosterWord, IsPosterWord, ReadWord, by_poster, bytes_of, texts_sent};
ghost use Rattle.dm_tool.specs.Answers.{IsRun};
ghost use Rattle.dm_tool.specs.Held.{items_of, listed, named, posters_in, words_in};

use dm_commands::{Base, Mirrors, ToolFault, run_mirrors};
use dm_files::{
    BaseFile, Files, Manner, NO_ANSWER, WordFault, fixed_manner, policy_of, read_base, tell,
};
use dm_mirror::PlanFault;
use dm_named::{Kinds, Limits};
use dm_remarks::{Colour, Reading, explain_agreement, explain_base, explain_run};
use dm_scratch::Verdict;
use dm_words::Run;
use indexmap::IndexMap;
use std::alloc::{AllocError, Global};
use std::io;
use std::rt::Runtime;
use std::sync::Wait;
use std::thread::Threads;

/// Posters in the order in which they were first named, each with its texts.
type Posters<'a> = IndexMap<&'a str, Vec<Vec<u8>>>;

/// The poster and the file of a word `POSTER=FILE`. The file may be empty, the poster not.
fn split_word(word: &str) -> Option<(&str, &str)>
    ensures { MatchOption result (IsNoPosterWord word.now) (λ pair. IsPosterWord word.now pair.0.now pair.1.now) }
{
    let (poster, file) = word.split_once('=')?;
    if poster.is_empty() {
        return None;
    }
    Some((poster, file))
}

/// The poster and the file of each of these words.
fn split_words<'a>(
    alloc: Global,
    words: &[&'a str],
) -> Result<Vec<(&'a str, &'a str)>, WordFault<'a>>
    ensures split { IfOk result (λ pairs. AreSplit (bytes_of words.now) (words_in pairs.items)) }
    ensures bad { IfErr result (λ fault. (word : _) → fault ≡ WordFault.BadPosterWord word → IsFirstBad (bytes_of words.now) word.now) }
{
    let mut pairs = Vec::with_capacity(alloc, words.len())?;
    for word in words {
        let Some(pair) = split_word(word) else {
            return Err(WordFault::BadPosterWord(word));
        };
        pairs.push(pair)?;
    }
    Ok(pairs)
}

/// Gives this poster one text more, if there is one; a new poster goes last.
fn add_text<'a>(
    alloc: Global,
    posters: &mut Posters<'a>,
    poster: &'a str,
    text: Option<Vec<u8>>,
) -> Result<(), WordFault<'a>>
    ensures { OnOk result ((words : List ReadWord) → posters_in posters.old ≡ by_poster words → posters_in posters.new ≡ by_poster (words ++ (poster.now, option_map (λ t. t.items) text) ∷ [])) }
{
    let texts = posters.entry(poster)?.or_insert(Vec::new(alloc));
    match text {
        Some(text) => Ok(texts.push(text)?),
        None => Ok(()),
    }
}

/// Each poster with the texts of its files, which are read in this order.
fn read_posters<'a, F: Files>(
    alloc: Global,
    words: &[(&'a str, &'a str)],
    files: &F,
) -> Result<Posters<'a>, WordFault<'a>>
    ensures { IfOk result (λ posters. (read_words : List ReadWord) × AreRead (F.had files.now) words.now read_words × (posters_in posters ≡ by_poster read_words)) }
{
    let mut posters = IndexMap::new(alloc);
    for word in words {
        let text = if word.1.is_empty() {
            None
        } else {
            Some(files.text_of(word.1, Limits::STANDARD)?)
        };
        add_text(alloc, &mut posters, word.0, text)?;
    }
    Ok(posters)
}

/// Each of these texts, borrowed.
fn slices_of<'t>(alloc: Global, texts: &'t [Vec<u8>]) -> Result<Vec<&'t [u8]>, AllocError>
    ensures { IfOk result (λ slices. bytes_of slices.items ≡ items_of texts.now) }
{
    let mut slices = Vec::with_capacity(alloc, texts.len())?;
    for text in texts {
        slices.push(text.as_slice())?;
    }
    Ok(slices)
}

/// Each poster with its texts, borrowed.
fn lists_of<'n, 't>(
    alloc: Global,
    posters: &'t Posters<'n>,
) -> Result<Vec<(&'n str, Vec<&'t [u8]>)>, AllocError>
    ensures { IfOk result (λ lists. listed lists.items ≡ posters_in posters.now) }
{
    let mut lists = Vec::with_capacity(alloc, posters.len())?;
    for (poster, texts) in posters.iter() {
        lists.push((*poster, slices_of(alloc, texts)?))?;
    }
    Ok(lists)
}

/// Each poster with its texts, as a run takes them.
fn named_lists<'n, 'l, 't>(
    alloc: Global,
    lists: &'l [(&'n str, Vec<&'t [u8]>)],
) -> Result<Vec<(&'n str, &'l [&'t [u8]])>, AllocError>
    ensures { IfOk result (λ run. named run.items ≡ listed lists.now) }
{
    let mut named = Vec::with_capacity(alloc, lists.len())?;
    for list in lists {
        named.push((list.0, list.1.as_slice()))?;
    }
    Ok(named)
}

/// Runs the plan of these posters and mirrors on standard output, and explains what it left where that is asked for. Returns the
/// exit status.
fn run_lists<R: Runtime + AllocGlobal + Threads + Wait + Sync>(
    rt: &R,
    posters: &[(&str, &[&[u8]])],
    mirrors: Mirrors<'_>,
    explained: Option<Colour>,
) -> Result<u8, ToolFault>
    ensures status { IfOk result (λ status. (ran : Ran) × IsRanAs (texts_in posters.now) mirrors.entry ran × (ran.status ≡ status)) }
    ensures bad_plan { IfErr result (λ e. (fault : PlanFault) → e ≡ ToolFault.BadPlan fault → HasFaultAs (texts_in posters.now) mirrors.entry fault) }
    ensures fault { IfErr result (λ e. ((fault : PlanFault) × (e ≡ ToolFault.BadPlan fault))
        ⊎ ((e ≡ ToolFault.NoThread) ⊎ ((e ≡ ToolFault.NoMemory) ⊎ (e ≡ ToolFault.Write)))) }
{
    let mut writer = io::writer(rt);
    let ran = run_mirrors(rt, rt.alloc(), posters, mirrors, &mut writer)?;
    if let Some(colour) = explained {
        let base = mirrors.base;
        explain_run(rt, colour, &ran.outcome, taken(base), mirrors.policy);
        explain_agreement(rt, colour, posters, base, &ran);
    }
    Ok(ran.status)
}

/// Runs the plan of these posters, each with its texts, and of these mirrors. Returns the exit status.
fn run_texts<'a, R: Runtime + AllocGlobal + Threads + Wait + Sync>(
    rt: &R,
    posters: &Posters<'a>,
    mirrors: Mirrors<'_>,
    explained: Option<Colour>,
) -> Result<u8, ToolFault>
    ensures status { IfOk result (λ status. (ran : Ran) × IsRanAs (texts_sent (posters_in posters.now)) mirrors.entry ran × (ran.status ≡ status)) }
    ensures bad_plan { IfErr result (λ e. (fault : PlanFault) → e ≡ ToolFault.BadPlan fault → HasFaultAs (texts_sent (posters_in posters.now)) mirrors.entry fault) }
    ensures fault { IfErr result (λ e. ((fault : PlanFault) × (e ≡ ToolFault.BadPlan fault))
        ⊎ ((e ≡ ToolFault.NoThread) ⊎ ((e ≡ ToolFault.NoMemory) ⊎ (e ≡ ToolFault.Write)))) }
{
    let lists = lists_of(rt.alloc(), posters)?;
    let named = named_lists(rt.alloc(), &lists)?;
    run_lists(rt, &named, mirrors, explained)
}

/// The base that a file is, or an empty text.
fn base_or_empty<'f>(file: &'f Option<BaseFile<'_>>) -> Base<'f>
    ensures { IsBaseOrEmpty file.now result }
{
    match file {
        Some(file) => file.base(),
        None => Base {
            text: &[],
            limits: Limits::STANDARD,
        },
    }
}

/// The base that a mirror takes: none where its text is empty.
fn taken(base: Base<'_>) -> Option<Base<'_>> {
    if base.text.is_empty() {
        return None;
    }
    Some(base)
}

/// The most bundles of one poster.
fn most_bundles(posters: &Posters<'_>) -> usize {
    let mut most = 0;
    for (_, texts) in posters.iter() {
        most = most.max(texts.len());
    }
    most
}

/// How many there are of what a plan has too many or too few of.
fn count_of(fault: PlanFault, posters: &Posters<'_>, mirrors: Mirrors<'_>) -> usize {
    match fault {
        PlanFault::Posters => posters.len(),
        PlanFault::Mirrors => mirrors.count as usize,
        PlanFault::Bound => mirrors.bound as usize,
        _ => most_bundles(posters),
    }
}

/// Says that the base isn't taken, and why where that is asked for.
pub fn refuse_base(
    rt: &HostRuntime,
    colour: Colour,
    reading: Reading,
    explains: bool,
    file: &BaseFile<'_>,
    verdict: Verdict,
) -> u8
    ensures { result ≡ 2 }
{
    let manner = fixed_manner(explains);
    tell(rt, manner, WordFault::BadBase(file.name, verdict));
    if manner == Manner::Explained {
        explain_base(rt, colour, reading, file.base(), verdict);
    }
    NO_ANSWER
}

/// Why a plan isn't run, or not to its end: of a base that isn't taken, it is said at once.
fn refuse_run<'a>(
    rt: &HostRuntime,
    colour: Colour,
    explains: bool,
    file: &Option<BaseFile<'_>>,
    posters: &Posters<'_>,
    mirrors: Mirrors<'_>,
    fault: ToolFault,
) -> Result<u8, WordFault<'a>>
    ensures { IfOk result (λ status. status ≡ 2) }
{
    match (fault, file) {
        (ToolFault::BadPlan(PlanFault::BadBase(_, verdict)), Some(file)) => {
            let reading = Reading::of_run();
            Ok(refuse_base(rt, colour, reading, explains, file, verdict))
        }
        (ToolFault::BadPlan(fault), _) => {
            let count = count_of(fault, posters, mirrors);
            Err(WordFault::BadPlan(fault, count))
        }
        (fault, _) => Err(WordFault::Tool(fault)),
    }
}

/// Runs the plan that is asked for: the base is read first, then the files in the order of the words. Returns the exit
/// status.
pub fn run_plan<'a, R: Runtime + AllocGlobal + Threads + Wait + Sync, F: Files>(
    rt: &R,
    host: &HostRuntime,
    files: &F,
    colour: Colour,
    asked: &Run<'_, 'a>,
) -> Result<u8, WordFault<'a>>
    ensures { IfOk result (λ status. status ≢ 2 → IsRun (F.had files.now) asked.now status) }
{
    let words = split_words(rt.alloc(), asked.posters.unwrap_or(&[]))?;
    let file = read_base(files, asked.base, Kinds::Six)?;
    let posters = read_posters(rt.alloc(), &words, files)?;
    let mirrors = Mirrors {
        base: base_or_empty(&file),
        policy: policy_of(asked.skip),
        count: asked.mirrors,
        bound: asked.bound,
    };
    let explained = if asked.explain { Some(colour) } else { None };
    match run_texts(rt, &posters, mirrors, explained) {
        Ok(status) => Ok(status),
        Err(fault) => refuse_run(host, colour, asked.explain, &file, &posters, mirrors, fault),
    }
}
