//! What the words of the command line ask for: a command, with what its own words say.
ghost use Rattle.std.specs.Prelude.{IfNone, IfSome};
ghost use Rattle.dm_words.specs.Requests.{LacksCheckout, LacksInit, LacksObliterate, LacksRollback, LacksRun, LacksUpgrade};
ghost use Rattle.dm_words.specs.Requests.{AreTexts, IsBase, IsFlag, IsNumber, IsText, IsAsked, AsksNothing};
ghost use Rattle.dm_words.specs.Requests.{IsApply, IsCheck, IsCheckout, IsInit, IsLog, IsObliterate, IsRollback, IsRun, IsSend, IsUpgrade};

use clap::ArgMatches;

/// Whether a flag is there.
fn flag(words: &ArgMatches<'_>, name: &str) -> bool
    ensures { IsFlag words.now name.now result }
{
    words.get_flag(name)
}

/// The text of a word, if it is there.
fn text<'a>(words: &ArgMatches<'a>, name: &str) -> Option<&'a str>
    ensures { IsText words.now name.now result }
{
    words.get_str(name)
}

/// The texts of a word that may stand often, if it is there.
fn texts<'m, 'a>(words: &'m ArgMatches<'a>, name: &str) -> Option<&'m [&'a str]>
    ensures { AreTexts words.now name.now result }
{
    words.get_strs(name)
}

/// The number of a word, if it is there.
fn number(words: &ArgMatches<'_>, name: &str) -> Option<u32>
    ensures { IsNumber words.now name.now result }
{
    words.get_one(name)
}

/// The file that a repository begins with, or none.
#[derive(Clone, Copy)]
pub struct BaseWords<'a> {
    /// The file of a bundle.
    pub base: Option<&'a str>,
    /// The file of a repository of one's own, read within wider limits.
    pub repository: Option<&'a str>,
}

impl<'a> BaseWords<'a> {
    fn of(words: &ArgMatches<'a>) -> BaseWords<'a>
        ensures { IsBase words.now result }
    {
        BaseWords {
            base: text(words, "base"),
            repository: text(words, "repository"),
        }
    }
}

/// What `dm apply` is asked for.
#[derive(Clone, Copy)]
pub struct Apply<'m, 'a> {
    /// The files of bundles, in their order; standard input where none is named.
    pub bundles: Option<&'m [&'a str]>,
    /// The file of the mirror that takes them.
    pub mirror: Option<&'a str>,
    /// What a new repository begins with.
    pub base: BaseWords<'a>,
    /// A mirror that somebody else has open isn't waited for.
    pub no_wait: bool,
    /// The mirror stays as it is.
    pub dry_run: bool,
    /// The repository is printed as a bundle.
    pub bundle: bool,
    /// The repository isn't printed.
    pub quiet: bool,
    /// Answers are printed as JSON.
    pub json: bool,
    /// Each bundle must have a right hash.
    pub hash: bool,
    /// Primitives of all kinds are read.
    pub all_kinds: bool,
    /// A new mirror reads six kinds.
    pub six_kinds: bool,
    /// Answers are explained.
    pub explain: bool,
    /// Patches that conflict are skipped.
    pub skip: bool,
    /// Bundles come one after the other on standard input.
    pub stream: bool,
}

impl<'m, 'a> Apply<'m, 'a> {
    fn of(words: &'m ArgMatches<'a>) -> Apply<'m, 'a>
        ensures { IsApply words.now result }
    {
        Apply {
            bundles: texts(words, "bundles"),
            mirror: text(words, "mirror"),
            base: BaseWords::of(words),
            no_wait: flag(words, "no-wait"),
            dry_run: flag(words, "dry-run"),
            bundle: flag(words, "bundle"),
            quiet: flag(words, "quiet"),
            json: flag(words, "json"),
            hash: flag(words, "hash"),
            all_kinds: flag(words, "all-kinds"),
            six_kinds: flag(words, "six-kinds"),
            explain: flag(words, "explain"),
            skip: flag(words, "skip"),
            stream: flag(words, "stream"),
        }
    }
}

/// What `dm check` is asked for.
#[derive(Clone, Copy)]
pub struct Check<'a> {
    /// The file of the bundle, or else standard input.
    pub bundle: Option<&'a str>,
    /// The paths that it touches are printed.
    pub paths: bool,
    /// The answer is printed as JSON.
    pub json: bool,
    /// The bundle must have a right hash.
    pub hash: bool,
    /// Primitives of all kinds are read.
    pub all_kinds: bool,
    /// The answer is explained.
    pub explain: bool,
}

impl<'a> Check<'a> {
    fn of(words: &ArgMatches<'a>) -> Check<'a>
        ensures { IsCheck words.now result }
    {
        Check {
            bundle: text(words, "bundle"),
            paths: flag(words, "paths"),
            json: flag(words, "json"),
            hash: flag(words, "hash"),
            all_kinds: flag(words, "all-kinds"),
            explain: flag(words, "explain"),
        }
    }
}

/// What `dm checkout` is asked for.
#[derive(Clone, Copy)]
pub struct Checkout<'a> {
    /// The file of the mirror.
    pub mirror: &'a str,
    /// The folder that gets the tree.
    pub folder: &'a str,
    /// A mirror that somebody else has open isn't waited for.
    pub no_wait: bool,
    /// Names that other tools obey are written all the same.
    pub all_names: bool,
}

impl<'a> Checkout<'a> {
    fn of(words: &ArgMatches<'a>) -> Option<Checkout<'a>>
        ensures asked { IfSome result (IsCheckout words.now) }
        ensures lacks { IfNone result (LacksCheckout words.now) }
    {
        Some(Checkout {
            mirror: text(words, "mirror")?,
            folder: text(words, "folder")?,
            no_wait: flag(words, "no-wait"),
            all_names: flag(words, "all-names"),
        })
    }
}

/// What `dm init` is asked for.
#[derive(Clone, Copy)]
pub struct Init<'a> {
    /// The file of the new mirror.
    pub mirror: &'a str,
    /// What it begins with.
    pub base: BaseWords<'a>,
    /// The file of the names that the mirror's first tag covers.
    pub names: Option<&'a str>,
    /// The folder of the tree that goes with them.
    pub folder: Option<&'a str>,
    /// The mirror reads six kinds.
    pub six_kinds: bool,
    /// What is neither a directory nor a file is passed over in the folder.
    pub skip_special: bool,
    /// The answer is printed as JSON.
    pub json: bool,
    /// A mirror that somebody else has open isn't waited for.
    pub no_wait: bool,
    /// The answer is explained.
    pub explain: bool,
}

impl<'a> Init<'a> {
    fn of(words: &ArgMatches<'a>) -> Option<Init<'a>>
        ensures asked { IfSome result (IsInit words.now) }
        ensures lacks { IfNone result (LacksInit words.now) }
    {
        Some(Init {
            mirror: text(words, "mirror")?,
            base: BaseWords::of(words),
            names: text(words, "names"),
            folder: text(words, "folder"),
            six_kinds: flag(words, "six-kinds"),
            skip_special: flag(words, "skip-special"),
            json: flag(words, "json"),
            no_wait: flag(words, "no-wait"),
            explain: flag(words, "explain"),
        })
    }
}

/// What `dm log` is asked for: of a mirror, a repository of a base, or one bundle.
#[derive(Clone, Copy)]
pub struct Log<'a> {
    /// The file of the mirror.
    pub mirror: Option<&'a str>,
    /// What makes the repository.
    pub base: BaseWords<'a>,
    /// The file of the bundle whose patches are told.
    pub bundle: Option<&'a str>,
    /// How many patches are told, the newest.
    pub last: Option<u32>,
    /// The oldest is told first.
    pub reverse: bool,
    /// The text of each patch is printed.
    pub verbose: bool,
    /// The place of each patch is printed.
    pub places: bool,
    /// Patches are told as JSON.
    pub json: bool,
    /// And what rests on each.
    pub rests: bool,
    /// Patches are counted.
    pub count: bool,
    /// A context is printed.
    pub context: bool,
    /// The kinds that the mirror reads and its format are printed.
    pub kinds: bool,
    /// Primitives of all kinds are read.
    pub all_kinds: bool,
    /// A mirror that somebody else has open isn't waited for.
    pub no_wait: bool,
}

impl<'a> Log<'a> {
    fn of(words: &ArgMatches<'a>) -> Log<'a>
        ensures { IsLog words.now result }
    {
        Log {
            mirror: text(words, "mirror"),
            base: BaseWords::of(words),
            bundle: text(words, "bundle"),
            last: number(words, "last"),
            reverse: flag(words, "reverse"),
            verbose: flag(words, "verbose"),
            places: flag(words, "places"),
            json: flag(words, "json"),
            rests: flag(words, "rests"),
            count: flag(words, "count"),
            context: flag(words, "context"),
            kinds: flag(words, "kinds"),
            all_kinds: flag(words, "all-kinds"),
            no_wait: flag(words, "no-wait"),
        }
    }
}

/// What `dm obliterate` is asked for.
#[derive(Clone, Copy)]
pub struct Obliterate<'m, 'a> {
    /// The file of the mirror.
    pub mirror: &'a str,
    /// What chooses the patches that go.
    pub patches: Option<&'m [&'a str]>,
    /// The new file that gets the bundle of what goes, or else standard output.
    pub output: Option<&'a str>,
    /// Patches that rest on those go too.
    pub with_dependents: bool,
    /// The mirror stays as it is.
    pub dry_run: bool,
    /// The answer is printed as JSON.
    pub json: bool,
    /// A mirror that somebody else has open isn't waited for.
    pub no_wait: bool,
    /// The answer is explained.
    pub explain: bool,
}

impl<'m, 'a> Obliterate<'m, 'a> {
    fn of(words: &'m ArgMatches<'a>) -> Option<Obliterate<'m, 'a>>
        ensures asked { IfSome result (IsObliterate words.now) }
        ensures lacks { IfNone result (LacksObliterate words.now) }
    {
        Some(Obliterate {
            mirror: text(words, "mirror")?,
            patches: texts(words, "patches"),
            output: text(words, "output"),
            with_dependents: flag(words, "with-dependents"),
            dry_run: flag(words, "dry-run"),
            json: flag(words, "json"),
            no_wait: flag(words, "no-wait"),
            explain: flag(words, "explain"),
        })
    }
}

/// What `dm rollback` is asked for.
#[derive(Clone, Copy)]
pub struct Rollback<'m, 'a> {
    /// The file of the mirror.
    pub mirror: &'a str,
    /// What chooses the patches that are undone.
    pub patches: Option<&'m [&'a str]>,
    /// The author of the new patch.
    pub author: &'a str,
    /// Its date, or else the system's.
    pub date: Option<&'a str>,
    /// Its name, or else one made of the first patch's.
    pub name: Option<&'a str>,
    /// Its log.
    pub log: Option<&'a str>,
    /// The answer is printed as JSON.
    pub json: bool,
    /// A mirror that somebody else has open isn't waited for.
    pub no_wait: bool,
}

impl<'m, 'a> Rollback<'m, 'a> {
    fn of(words: &'m ArgMatches<'a>) -> Option<Rollback<'m, 'a>>
        ensures asked { IfSome result (IsRollback words.now) }
        ensures lacks { IfNone result (LacksRollback words.now) }
    {
        Some(Rollback {
            mirror: text(words, "mirror")?,
            patches: texts(words, "patches"),
            author: text(words, "author")?,
            date: text(words, "date"),
            name: text(words, "name"),
            log: text(words, "log"),
            json: flag(words, "json"),
            no_wait: flag(words, "no-wait"),
        })
    }
}

/// What `dm run` is asked for.
#[derive(Clone, Copy)]
pub struct Run<'m, 'a> {
    /// How many mirrors there are.
    pub mirrors: u32,
    /// How many mails may wait at a mirror.
    pub bound: u32,
    /// What each mirror begins with.
    pub base: BaseWords<'a>,
    /// The answer is explained.
    pub explain: bool,
    /// Patches that conflict are skipped.
    pub skip: bool,
    /// The posters with their files, each as `POSTER=FILE`.
    pub posters: Option<&'m [&'a str]>,
}

impl<'m, 'a> Run<'m, 'a> {
    fn of(words: &'m ArgMatches<'a>) -> Option<Run<'m, 'a>>
        ensures asked { IfSome result (IsRun words.now) }
        ensures lacks { IfNone result (LacksRun words.now) }
    {
        Some(Run {
            mirrors: number(words, "mirrors")?,
            bound: number(words, "bound")?,
            base: BaseWords::of(words),
            explain: flag(words, "explain"),
            skip: flag(words, "skip"),
            posters: texts(words, "posters"),
        })
    }
}

/// What `dm send` is asked for, from a mirror or the repository of a base.
#[derive(Clone, Copy)]
pub struct Send<'a> {
    /// The file of the mirror.
    pub mirror: Option<&'a str>,
    /// What makes the repository.
    pub base: BaseWords<'a>,
    /// The file of what they hold.
    pub to: Option<&'a str>,
    /// The new file that gets the bundle, or else standard output.
    pub output: Option<&'a str>,
    /// How many patches are sent at most.
    pub first: Option<u32>,
    /// The context names no more than is needed.
    pub minimal: bool,
    /// Primitives of all kinds are read.
    pub all_kinds: bool,
    /// The answer is printed as JSON.
    pub json: bool,
    /// A mirror that somebody else has open isn't waited for.
    pub no_wait: bool,
    /// The answer is explained.
    pub explain: bool,
}

impl<'a> Send<'a> {
    fn of(words: &ArgMatches<'a>) -> Send<'a>
        ensures { IsSend words.now result }
    {
        Send {
            mirror: text(words, "mirror"),
            base: BaseWords::of(words),
            to: text(words, "to"),
            output: text(words, "output"),
            first: number(words, "first"),
            minimal: flag(words, "minimal"),
            all_kinds: flag(words, "all-kinds"),
            json: flag(words, "json"),
            no_wait: flag(words, "no-wait"),
            explain: flag(words, "explain"),
        }
    }
}

/// What `dm upgrade` is asked for.
#[derive(Clone, Copy)]
pub struct Upgrade<'a> {
    /// The file of the mirror.
    pub mirror: &'a str,
    /// A mirror that somebody else has open isn't waited for.
    pub no_wait: bool,
}

impl<'a> Upgrade<'a> {
    fn of(words: &ArgMatches<'a>) -> Option<Upgrade<'a>>
        ensures asked { IfSome result (IsUpgrade words.now) }
        ensures lacks { IfNone result (LacksUpgrade words.now) }
    {
        Some(Upgrade {
            mirror: text(words, "mirror")?,
            no_wait: flag(words, "no-wait"),
        })
    }
}

/// A command, with what its words ask for.
#[derive(Clone, Copy)]
pub enum Request<'m, 'a> {
    /// `dm apply`.
    Apply(Apply<'m, 'a>),
    /// `dm check`.
    Check(Check<'a>),
    /// `dm checkout`.
    Checkout(Checkout<'a>),
    /// `dm init`.
    Init(Init<'a>),
    /// `dm log`.
    Log(Log<'a>),
    /// `dm obliterate`.
    Obliterate(Obliterate<'m, 'a>),
    /// `dm rollback`.
    Rollback(Rollback<'m, 'a>),
    /// `dm run`.
    Run(Run<'m, 'a>),
    /// `dm send`.
    Send(Send<'a>),
    /// `dm upgrade`.
    Upgrade(Upgrade<'a>),
    /// `dm version`.
    Version,
}

impl<'m, 'a> Request<'m, 'a> {
    /// What these words ask for; `None` where they name no command, or a word that it needs isn't there.
    pub(crate) fn of(matches: &'m ArgMatches<'a>) -> Option<Request<'m, 'a>>
        ensures asked { IfSome result (IsAsked matches.now) }
        ensures nothing { IfNone result (AsksNothing matches.now) }
    {
        let (name, words) = matches.subcommand()?;
        match name {
            "apply" => Some(Request::Apply(Apply::of(words))),
            "check" => Some(Request::Check(Check::of(words))),
            "checkout" => Some(Request::Checkout(Checkout::of(words)?)),
            "init" => Some(Request::Init(Init::of(words)?)),
            "log" => Some(Request::Log(Log::of(words))),
            "obliterate" => Some(Request::Obliterate(Obliterate::of(words)?)),
            "rollback" => Some(Request::Rollback(Rollback::of(words)?)),
            "run" => Some(Request::Run(Run::of(words)?)),
            "send" => Some(Request::Send(Send::of(words))),
            "upgrade" => Some(Request::Upgrade(Upgrade::of(words)?)),
            "version" => Some(Request::Version),
            _ => None,
        }
    }
}
