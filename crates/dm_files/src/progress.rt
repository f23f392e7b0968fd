//! How far a checkout is, on a terminal.
use dm_checkout::Progress;
use std::time::{Duration, Instant};

/// A line on standard error, written over once a second; none where that is no terminal, or for what takes less.
#[derive(Drop)]
pub struct Meter {
    rt: HostRuntime,
    // When the last line was written, or the meter made. `None` where nothing is to be written.
    last: Option<Instant>,
    has_line: bool,
}

impl Meter {
    pub fn new(rt: HostRuntime, is_terminal: bool) -> Meter {
        let last = if is_terminal {
            Instant::now(&rt).ok()
        } else {
            None
        };
        Meter {
            rt,
            last,
            has_line: false,
        }
    }

    /// Whether it is time for a line.
    fn is_due(&self) -> bool {
        match self.last {
            Some(last) => match last.elapsed(&self.rt) {
                Ok(passed) => passed >= Duration::from_secs(1),
                Err(_) => false,
            },
            None => false,
        }
    }

    /// Ends the line.
    pub fn end(&self) {
        if self.has_line {
            let _ = eprintln!(&self.rt);
        }
    }
}

impl Progress for Meter {
    fn wrote(&mut self, count: usize, all: usize) {
        if self.is_due() {
            let _ = eprint!(&self.rt; "\rdm: {count} of {all} entries");
            self.has_line = true;
            self.last = Instant::now(&self.rt).ok();
        }
    }
}
