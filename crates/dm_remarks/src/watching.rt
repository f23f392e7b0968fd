//! What `--explain` says while bundles are taken.
use crate::colour::{Colour, say};
use crate::explaining::{
    explain_before_base, explain_date, explain_hash, explain_hash_fault, explain_taken, skips_ahead,
};
use crate::reading::Reading;
use dm_deliver::{Answer, Observer};
use dm_repo::{Policy, Repo, Skip};
use std::alloc::Global;
use std::rt::Runtime;

/// Explains each answer after its line, if it is to. With more than one bundle it names the file first.
#[derive(Drop)]
pub struct Watcher<'w, 'a> {
    rt: HostRuntime,
    colour: Colour,
    explains: bool,
    reading: Reading,
    // How many patches are the base of the mirror.
    base: usize,
    // The files that are still to come; none where bundles have no files.
    names: &'w [&'a str],
    has_several: bool,
    skips: Option<Vec<Skip>>,
}

impl<'w, 'a> Watcher<'w, 'a> {
    /// One for bundles in the files of these names, or in none, that are taken into a mirror whose first patches, so many of them, are
    /// its base.
    pub fn new(
        rt: HostRuntime,
        colour: Colour,
        explains: bool,
        reading: Reading,
        base: usize,
        names: &'w [&'a str],
    ) -> Watcher<'w, 'a> {
        Watcher {
            rt,
            colour,
            explains,
            reading,
            base,
            names,
            has_several: names.len() > 1,
            skips: None,
        }
    }

    // Says which file comes next.
    fn name_file(&mut self) {
        let [name, rest @ ..] = self.names else {
            return;
        };
        if self.has_several {
            say(&self.rt, self.colour, &format_args!("{name}:\n"));
        }
        self.names = rest;
    }
}

impl Observer for Watcher<'_, '_> {
    fn before(&mut self, repo: &Repo<Global>, text: &[u8], policy: Policy) {
        if self.explains {
            self.skips = skips_ahead(&self.rt, self.reading, repo, text, policy);
        }
    }

    fn after(&mut self, repo: &Repo<Global>, text: &[u8], policy: Policy, answer: Answer) {
        if !self.explains {
            return;
        }
        self.name_file();
        match answer {
            Answer::Verdict(verdict) => {
                let skips = self.skips.take();
                let reading = self.reading;
                explain_taken(
                    &self.rt,
                    self.colour,
                    reading,
                    repo,
                    text,
                    policy,
                    verdict,
                    skips,
                );
                explain_hash(&self.rt, self.colour, reading, text, false);
            }
            Answer::Hash(fault) => explain_hash_fault(&self.rt, self.colour, text, fault),
            Answer::Date(at) => explain_date(&self.rt, self.colour, at),
            Answer::BeforeBase => { explain_before_base(&self.rt, self.colour, repo, self.base) },
        }
    }
}
