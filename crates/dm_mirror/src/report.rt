//! The report of a run.
ghost use Rattle.std.specs.Prelude.{◌≡◌, ◌++◌, ℕ, List, codes, length, take, IfOk, OnOk, OnErr};
ghost use Rattle.std.specs.Fmt.{decimal};
ghost use Rattle.std.specs.Io.KnownBytes.{Appends};
ghost use Rattle.dm_tree.specs.Trees.{Tree};
ghost use Rattle.dm_repo.specs.Repositories.{IsTreeOf};
ghost use Rattle.dm_scratch.specs.Printing.{line_of, listing_text};
ghost use Rattle.dm_mirror.specs.Mirrors.{IsComplete};
ghost use Rattle.dm_mirror.specs.Report.{answer_word, closed_line, closed_text, mail_text, mails_text, IsMirrorText, receipt_text, sent_text, receipts_text, IsReport};

use crate::mirror::Mirror;
use crate::outcome::Outcome;
use dm_mail::Mail;
use dm_repo::Repo;
use dm_scratch::{Verdict, push_listing};
use std::alloc::{AllocError, Global};
use std::io::Write;

/// Why a report wasn't written whole.
#[derive(Clone, Copy, PartialEq, Eq, Debug)]
pub enum WriteFault {
    /// The writer returned an error, or took no byte. A prefix of the text was written.
    Device,
}

/// The word of an answer.
fn word_of(answer: bool) -> &'static str
    ensures { result.now ≡ answer_word answer }
{
    if answer { "yes" } else { "no" }
}

/// The line of a mail. A mark has none.
fn push_mail(mail: &Mail, verdict: Option<Verdict>, out: &mut Vec<u8>) -> Result<(), AllocError>
    ensures { OnOk result (out.new.items ≡ out.old.items ++ mail_text mail.now verdict) }
{
    let Some(verdict) = verdict else {
        return Ok(());
    };
    let line = format!(in *out.allocator(); "bundle {} {} {verdict}\n", mail.poster, mail.number)?;
    out.extend_from_slice(line.as_bytes())?;
    Ok(())
}

/// The lines of mails with their verdicts.
fn push_mails(
    mails: &[Mail],
    verdicts: &[Option<Verdict>],
    out: &mut Vec<u8>,
) -> Result<(), AllocError>
    requires { length verdicts.now ≡ length mails.now }
    ensures { OnOk result (out.new.items ≡ out.old.items ++ mails_text mails.now verdicts.now) }
{
    for k in 0..mails.len() {
        push_mail(&mails[k], verdicts[k], out)?;
    }
    Ok(())
}

/// The line of a poster: whether its mark was taken.
fn push_closed(mirror: &Mirror, poster: usize, out: &mut Vec<u8>) -> Result<(), AllocError>
    ensures { OnOk result (out.new.items ≡ out.old.items ++ closed_line mirror.now.mails.items poster) }
{
    let answer = word_of(mirror.has_mark(poster));
    let line = format!(in *out.allocator(); "closed {poster} {answer}\n")?;
    out.extend_from_slice(line.as_bytes())?;
    Ok(())
}

/// The lines of so many posters.
fn push_marks(mirror: &Mirror, posters: usize, out: &mut Vec<u8>) -> Result<(), AllocError>
    ensures { OnOk result (out.new.items ≡ out.old.items ++ closed_text mirror.now.mails.items posters) }
{
    for poster in 0..posters {
        push_closed(mirror, poster, out)?;
    }
    Ok(())
}

/// The number of a mirror.
fn push_number(number: usize, out: &mut Vec<u8>) -> Result<(), AllocError>
    ensures { OnOk result (out.new.items ≡ out.old.items ++ line_of (codes "mirror " ++ decimal number)) }
{
    let line = format!(in *out.allocator(); "mirror {number}\n")?;
    out.extend_from_slice(line.as_bytes())?;
    Ok(())
}

/// How many patches there are.
fn push_count(count: usize, out: &mut Vec<u8>) -> Result<(), AllocError>
    ensures { OnOk result (out.new.items ≡ out.old.items ++ line_of (codes "patches " ++ decimal count)) }
{
    let line = format!(in *out.allocator(); "patches {count}\n")?;
    out.extend_from_slice(line.as_bytes())?;
    Ok(())
}

/// How many patches a repository holds, and the listing of its tree.
fn push_repo(repo: &Repo<Global>, out: &mut Vec<u8>) -> Result<(), AllocError>
    ensures { OnOk result ((tree : Tree) × IsTreeOf repo.now.patches tree ×
        (out.new.items ≡ out.old.items ++ (line_of (codes "patches " ++ decimal (length repo.now.patches)) ++ listing_text tree))) }
{
    push_count(repo.len(), out)?;
    push_listing(repo.tree(), out)?;
    Ok(())
}

/// The part of a mirror.
fn push_mirror(
    posters: usize,
    number: usize,
    mirror: &Mirror,
    out: &mut Vec<u8>,
) -> Result<(), AllocError>
    requires { IsComplete posters mirror.now }
    ensures { OnOk result ((text : List ℕ) × IsMirrorText posters number mirror.now text × (out.new.items ≡ out.old.items ++ text)) }
{
    push_number(number, out)?;
    push_mails(&mirror.mails, &mirror.verdicts, out)?;
    push_marks(mirror, posters, out)?;
    push_repo(&mirror.repo, out)?;
    Ok(())
}

/// The line of what a poster sent to a mirror, if anything is said.
fn push_receipt(
    poster: usize,
    number: usize,
    receipt: Option<(usize, bool)>,
    out: &mut Vec<u8>,
) -> Result<(), AllocError>
    ensures { OnOk result (out.new.items ≡ out.old.items ++ receipt_text poster number receipt) }
{
    let Some((count, closed)) = receipt else {
        return Ok(());
    };
    let answer = word_of(closed);
    let line = format!(in *out.allocator(); "sent {poster} {number} {count} {answer}\n")?;
    out.extend_from_slice(line.as_bytes())?;
    Ok(())
}

/// What a poster sent to each mirror.
fn push_sent(poster: usize, mirrors: &[Mirror], out: &mut Vec<u8>) -> Result<(), AllocError>
    ensures { OnOk result (out.new.items ≡ out.old.items ++ sent_text poster 0 mirrors.now) }
{
    for number in 0..mirrors.len() {
        push_receipt(poster, number, mirrors[number].receipt(poster), out)?;
    }
    Ok(())
}

/// What so many posters sent, poster by poster.
fn push_receipts(mirrors: &[Mirror], posters: usize, out: &mut Vec<u8>) -> Result<(), AllocError>
    ensures { OnOk result (out.new.items ≡ out.old.items ++ receipts_text mirrors.now posters) }
{
    for poster in 0..posters {
        push_sent(poster, mirrors, out)?;
    }
    Ok(())
}

/// The report of a run: for each mirror the verdict of each bundle, in the order in which it took them, the marks, how many
/// patches it holds and the listing of its tree; then what each poster sent to each mirror.
pub fn report_text(alloc: Global, outcome: &Outcome) -> Result<Vec<u8>, AllocError>
    ensures { IfOk result (λ text. IsReport outcome.now text.items) }
{
    let mut text = Vec::new(alloc);
    for number in 0..outcome.mirrors.len() {
        push_mirror(outcome.posters, number, &outcome.mirrors[number], &mut text)?;
    }
    push_receipts(&outcome.mirrors, outcome.posters, &mut text)?;
    Ok(text)
}

/// Writes all of the text. It takes no memory.
///
/// Error: [`WriteFault::Device`] at any error of the writer, an interruption too, and where it takes no byte; a prefix of
/// the text was written.
pub fn write_report<W: Write>(text: &[u8], writer: &mut W) -> Result<(), WriteFault>
    ensures ok { OnOk result (Appends (W.contents writer.old) (W.contents writer.new) text.now) }
    ensures prefix { OnErr result ((count : ℕ) × Appends (W.contents writer.old) (W.contents writer.new) (take count text.now)) }
{
    let mut written = 0;
    while written < text.len() {
        match writer.write(&text[written..]) {
            Ok(0) => return Err(WriteFault::Device),
            Ok(count) => written += count,
            Err(_) => return Err(WriteFault::Device),
        }
    }
    match writer.flush() {
        Ok(()) => Ok(()),
        Err(_) => Err(WriteFault::Device),
    }
}
