//! What the help says.

/// Of `dm apply`.
pub const APPLY: &str = "Take patch bundles; print the verdicts and the listing of the tree";

/// Of `dm apply --base`.
pub const APPLY_BASE: &str = "Take the bundle of FILE first";

/// Of `dm apply --mirror`.
pub const APPLY_MIRROR: &str =
    "Take bundles into the mirror that FILE keeps; it is made where there is none";

/// Of `dm apply --dry-run`.
pub const APPLY_DRY_RUN: &str = "Answer as ever, and leave the mirror as it is";

/// Of `--quiet`.
pub const QUIET: &str = "Print the verdicts alone";

/// Of `dm check`.
pub const CHECK: &str = "Read a patch bundle; print its canonical text, or what is wrong with it";

/// Of `--paths`.
pub const PATHS: &str = "Print the paths that its patches touch, in place of its text";

/// Of the bundle of `dm check`.
pub const CHECK_BUNDLE: &str = "The file of the bundle; without one, or for -, standard input";

/// Of `dm init`.
pub const INIT: &str = "Make a mirror";

/// Of `dm init --mirror`.
pub const INIT_MIRROR: &str = "The file to make, which keeps the mirror";

/// Of `dm init --base`.
pub const INIT_BASE: &str = "Begin with the bundle of FILE";

/// Of `dm log`.
pub const LOG: &str = "Print the patches of a mirror, a repository or a bundle, newest last";

/// Of `--mirror`.
pub const MIRROR: &str = "The mirror that FILE keeps";

/// Of `dm log --base`.
pub const LOG_BASE: &str = "What an empty repository has once it has taken the bundle of FILE";

/// Of the bundle of `dm log`.
pub const LOG_BUNDLE: &str = "The new patches of a bundle";

/// Of `--reverse`.
pub const REVERSE: &str = "Newest first";

/// Of `--verbose`.
pub const VERBOSE: &str = "Print the text of each patch, too";

/// Of `--places`.
pub const PLACES: &str = "Print the place of each patch, counted from the oldest";

/// Of `--json`.
pub const JSON: &str = "Print a line of JSON for each patch, for programs";

/// Of `--rests`.
pub const RESTS: &str = "With --json: tell which patches rest on each, too";

/// Of `--json` where a bundle is answered.
pub const ANSWER_JSON: &str = "Print the answer as JSON, a line each, for programs";

/// Of `--count`.
pub const COUNT: &str = "Print how many patches there are, and nothing else";

/// Of `--context`.
pub const CONTEXT: &str =
    "Print what darcs log --context does, so that a sender can make a bundle for it";

/// Of `dm checkout`.
pub const CHECKOUT: &str = "Write the tree of a mirror to a folder, which is made, or is empty";

/// Of `--all-names`.
pub const ALL_NAMES: &str = "Write names that other tools obey too, such as .git and .envrc";

/// Of the folder of `dm checkout`.
pub const CHECKOUT_FOLDER: &str = "Where the tree is written; nothing is written outside it";

/// Of `dm obliterate`.
pub const OBLITERATE: &str =
    "Take patches out of a mirror; print the bundle that brings them back, or keep it in a file";

/// Of `--with-dependents`.
pub const WITH_DEPENDENTS: &str = "Take out the patches that rest on these, too";

/// Of `dm obliterate --dry-run`.
pub const OBLITERATE_DRY_RUN: &str = "Print the bundle, and leave the mirror as it is";

/// Of `dm rollback`.
pub const ROLLBACK: &str = "Print the bundle of a new patch that undoes patches of a mirror";

/// Of `--author`.
pub const AUTHOR: &str = "Who undoes them";

/// Of `--date`.
pub const DATE: &str = "The date of the new patch: fourteen digits, in UTC; without it, now";

/// Of `--name`.
pub const NAME: &str =
    "The name of the new patch; without it, rollback: and the name of the first PATCH";

/// Of `dm rollback --log`.
pub const LOG_TEXT: &str = "The log of the new patch";

/// Of `dm run`.
pub const RUN: &str =
    "Let posters send bundles to mirrors, all at once; print what each mirror took, and its tree";

/// Of `--mirrors`.
pub const MIRRORS: &str = "How many mirrors there are; one to eight";

/// Of `dm send`.
pub const SEND: &str = "Print the bundle of the patches that somebody lacks";

/// Of `dm send --mirror`.
pub const SEND_MIRROR: &str = "Send from the mirror that FILE keeps";

/// Of `--bound`.
pub const BOUND: &str = "How many mails may wait at a mirror, 1 to 64";

/// Of `dm run --base`.
pub const RUN_BASE: &str = "Let each mirror take the bundle of FILE first";

/// Of `dm send --base`.
pub const SEND_BASE: &str =
    "The repository to send from: what an empty one has once it has taken the bundle of FILE";

/// Of `dm send --to`.
pub const SEND_TO: &str =
    "What they hold: the patches that the bundle or the context of FILE names; \
    without this word they hold nothing";

/// Of `dm`.
pub const DM: &str = "Reads Darcs patch bundles and takes them into repositories";

/// Of `--repository`.
pub const REPOSITORY: &str =
    "The same for a repository of your own: up to 100,000 patches in 1 GiB";

/// Of `--bundle`.
pub const BUNDLE: &str = "Print the repository as a bundle in place of the listing";

/// Of `--skip`.
pub const SKIP: &str = "Skip patches that conflict, and take the others";

/// Of `--explain`.
pub const EXPLAIN: &str =
    "Say on standard error which patches the verdict is about, what is wrong with a text, and why a file can't be read";

/// Of the posters of `dm run`.
pub const POSTERS: &str =
    "A poster, and the next bundle that it sends; POSTER= alone names one that sends none";

/// Of `--first`.
pub const FIRST: &str = "Send the first N patches of them alone";

/// Of `--minimal`.
pub const MINIMAL: &str = "Name in the context only what the patches rest on";

/// Of `--no-wait`.
pub const NO_WAIT: &str = "Where somebody else has the mirror open, say so and end";

/// Of `--stream`.
pub const STREAM: &str =
    "Read bundles from standard input, each after a line with its length in bytes, and answer each at once";

/// Of the bundles of `dm apply`.
pub const BUNDLES: &str = "Files of bundles, taken in turn; without one, or for -, standard input";

/// Of `--hash`.
pub const HASH: &str = "Refuse a bundle that doesn't end with the right hash of its patches";

/// Of `--last`.
pub const LAST: &str = "Print the newest N patches alone";

/// Of `--output`.
pub const OUTPUT: &str =
    "Keep the bundle in a new file, which is on the disk before the mirror changes";

/// Of `dm send --output`.
pub const SEND_OUTPUT: &str =
    "Write the bundle to a new file; where there is none, no file is made";

/// Of `--names`.
pub const NAMES: &str =
    "Begin at a tag: the context NAMES tells all patches that it covers, the tag first";

/// Of `--skip-special`.
pub const SKIP_SPECIAL: &str = "Pass over links and special files in FOLDER";

/// Of the folder of `dm init`.
pub const FOLDER: &str = "With --names: the tree at the tag";

/// Of the patches of `dm obliterate` and `dm rollback`.
pub const PATCHES: &str = "A patch's name, the first digits of its hash, or its place";

/// What the exit status of `dm apply` says, and an example.
pub const AFTER_APPLY: &str = "\
Exit status: 0 if all of each bundle was taken or brought nothing new, 1 if one was refused or taken in part, 2 if there is no answer.

Example: dm apply --mirror shelf.dm first.dpatch second.dpatch";

/// What the exit status of `dm check` says, and an example.
pub const AFTER_CHECK: &str = "\
Exit status: 0 if the text is a bundle, 1 if it isn't, 2 if there is no answer.

Example: dm check --hash --explain first.dpatch";

/// What the exit status of `dm init` says, and an example.
pub const AFTER_INIT: &str = "\
Exit status: 0 if the mirror was made, 2 if it wasn't.

Example: dm init --mirror shelf.dm --repository all.dpatch
Example: dm init --mirror shelf.dm --names tag.context shelf";

/// What the exit status of `dm log` says, and an example.
pub const AFTER_LOG: &str = "\
Exit status: 0 if the patches were printed, 2 if they weren't.

Example: dm log --mirror shelf.dm --context > shelf.context";

/// What the exit status of `dm checkout` says, and an example.
pub const AFTER_CHECKOUT: &str = "\
Exit status: 0 if the tree was written, 2 if it wasn't.

Example: dm checkout --mirror shelf.dm shelf";

/// What the exit status of `dm obliterate` says, and an example.
pub const AFTER_OBLITERATE: &str = "\
PATCH is the name of one patch of the mirror, the first digits of its hash, seven at least, both with a space between them, or its place such as #3, as dm log --places prints it.
Exit status: 0 if the patches were taken out, 1 if others rest on them, 2 if there is no answer.

Example: dm obliterate --mirror shelf.dm -o gone.dpatch 5e1f9a2";

/// What the exit status of `dm rollback` says, and an example.
pub const AFTER_ROLLBACK: &str = "\
PATCH is the name of one patch of the mirror, the first digits of its hash, seven at least, both with a space between them, or its place such as #3, as dm log --places prints it.
Exit status: 0 if a bundle was made, 1 if other patches rest on these, 2 if there is no answer.

Example: dm rollback --mirror shelf.dm --author 'Ann <ann@example.org>' 5e1f9a2 > undo.dpatch";

/// What the exit status of `dm run` says, and an example.
pub const AFTER_RUN: &str = "\
Exit status: 0 if each mirror took all of each bundle or had it already, 1 if one refused a bundle or took a part, 2 if there is no answer.

Example: dm run --mirrors 2 --bound 4 ann=first.dpatch bob=second.dpatch";

/// What the exit status of `dm send` says, and an example.
pub const AFTER_SEND: &str = "\
Exit status: 0 if a bundle was made or there is nothing to send, 1 if it was refused, 2 if there is no answer.

Example: dm send --mirror shelf.dm --to ann.context > for-ann.dpatch";

/// What is said of the kinds that one call reads, and of those of a mirror.
pub const READ_ALL: &str = "Read binaries, replaces and changes of preferences, too";

pub const READ_ALL_HERE: &str =
    "Read binaries, replaces and changes of preferences, too; a mirror remembers whether it does";

pub const REMEMBER_ALL: &str =
    "Have the mirror read binaries, replaces and changes of preferences, too, as it does by itself";

pub const SIX_KINDS: &str =
    "Have a new mirror read no binaries, replaces or changes of preferences";

/// Of `dm log --kinds`.
pub const KINDS: &str =
    "Print which kinds of primitives the mirror reads, and the format of its file";

/// Of `dm upgrade`.
pub const UPGRADE: &str = "Have a mirror read binaries, replaces and changes of preferences, too";

/// What the exit status of `dm upgrade` says, and an example.
pub const AFTER_UPGRADE: &str = "\
The patches stay the same. A crash leaves the old file or the new one.
Exit status: 0 if the mirror reads all kinds, 2 if there is no answer.

Example: dm upgrade --mirror shelf.dm";

/// What the exit status says.
pub const AFTER_ALL: &str = "\
Exit status: 0 if all was taken, read or made, 1 if a verdict refuses something, 2 if there is no answer.
FILE and BUNDLE may be -: standard input.";
