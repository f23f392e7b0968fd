//! Standard output, on which a listing is printed.
use dm_quoted::Lines;
use std::io::{self, IsTerminal, Write};

/// Standard output. Where it is a terminal, and a listing is printed, it is shown as [`Lines`], so that no name moves what stands on
/// the screen; elsewhere each byte stays as it is.
#[derive(Drop)]
pub struct Listing {
    rt: HostRuntime,
    is_shown: bool,
}

impl Listing {
    /// Standard output, for a listing or a bundle.
    pub fn new(rt: &HostRuntime, as_bundle: bool) -> Listing {
        Listing {
            rt: *rt,
            is_shown: !as_bundle && rt.stdout().is_terminal(),
        }
    }
}

impl Write for Listing {
    fn write(&mut self, bytes: &[u8]) -> io::Result<usize> {
        let mut writer = io::writer(&self.rt);
        if !self.is_shown {
            return writer.write(bytes);
        }
        let lines = Lines { text: bytes };
        let shown = format!(in self.rt.alloc(); "{lines}")?;
        writer.write_all(shown.as_bytes())?;
        Ok(bytes.len())
    }

    fn flush(&mut self) -> io::Result<()> {
        io::writer(&self.rt).flush()
    }
}
