//! Reports that are written whole, and to writers that fail.

use crate::mirrors::REPORT;
use dm_mirror::{WriteFault, write_report};
use std::io;
use std::io::{ErrorKind, Write};

/// Takes so many bytes, as long as they are those of the report, and then fails. Its flush fails where it is told to.
#[derive(Drop)]
struct Stops {
    left: usize,
    taken: usize,
    is_flushed: bool,
}

impl Write for Stops {
    fn write(&mut self, buf: &[u8]) -> io::Result<usize> {
        let count = buf.len().min(self.left);
        let part = &buf[..count];
        let is_next = match REPORT.get(self.taken..) {
            Some(rest) => rest.starts_with(part),
            None => false,
        };
        if count == 0 || !is_next {
            return Err(io::Error::from(ErrorKind::Other));
        }
        self.left -= count;
        self.taken = self.taken.saturating_add(count);
        Ok(count)
    }

    fn flush(&mut self) -> io::Result<()> {
        if self.is_flushed {
            return Ok(());
        }
        Err(io::Error::from(ErrorKind::Interrupted))
    }
}

/// What becomes of the report, written to a writer that takes so many bytes, and how many it took.
fn written(left: usize, is_flushed: bool) -> (bool, usize) {
    let mut writer = Stops {
        left,
        taken: 0,
        is_flushed,
    };
    let answer = write_report(REPORT, &mut writer);
    (answer == Ok(()), writer.taken)
}

#[test]
fn a_report_is_written_whole_or_the_writer_failed(rt: HostRuntime) {
    for left in 0..REPORT.len() {
        assert!(rt;
            written(left, true) == (false, left),
            "the writer fails after {left} bytes"
        );
    }
    assert!(rt;
        written(REPORT.len(), true) == (true, REPORT.len()),
        "all of it"
    );
    assert!(rt;
        written(usize::MAX, false) == (false, REPORT.len()),
        "a flush that fails"
    );
}
