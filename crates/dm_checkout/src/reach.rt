//! Places whose path is longer than a call of the system takes.
use std::fs::{self, File};
use std::io;
use std::os::fd::AsRawFd;

/// The most bytes of a path that is handed to the system, which takes 4,095.
const MOST_BYTES: usize = 4_000;

/// A place, by a path that the system takes.
#[derive(Drop)]
pub struct Reached {
    // The folder on the way that the path begins at, which stays open for it.
    folder: Option<File>,
    path: String,
}

impl Reached {
    /// Goes down the folders of the path until what is left of it is short enough.
    pub fn at(rt: &HostRuntime, place: &str) -> io::Result<Reached> {
        let mut reached = Reached {
            folder: None,
            path: place.to_string(rt.alloc())?,
        };
        for _ in 0..place.len() {
            if reached.path.len() <= MOST_BYTES {
                return Ok(reached);
            }
            reached = reached.step(rt)?;
        }
        Ok(reached)
    }

    /// The same place, from a folder further down.
    fn step(&self, rt: &HostRuntime) -> io::Result<Reached> {
        let path = self.path.as_str();
        let Some((way, rest)) = cut(path) else {
            return Err(io::Error::from(io::ErrorKind::InvalidFilename));
        };
        let folder = File::open(rt, way)?;
        // The system's own name for an open folder.
        let path = format!(in rt.alloc(); "/proc/self/fd/{}/{rest}", folder.as_raw_fd())?;
        Ok(Reached {
            folder: Some(folder),
            path,
        })
    }

    /// The path that the system takes.
    pub fn path(&self) -> &str {
        self.path.as_str()
    }

    pub(crate) fn make_dir(&self, rt: &HostRuntime) -> io::Result<()> {
        fs::create_dir(rt, self.path.as_str())
    }

    pub(crate) fn make_file(&self, rt: &HostRuntime) -> io::Result<File> {
        File::create_new(rt, self.path.as_str())
    }
}

/// The path up to the last slash that is near enough, and what is behind that.
fn cut(path: &str) -> Option<(&str, &str)> {
    let near = path.get(..path.floor_char_boundary(MOST_BYTES))?;
    let (way, _) = near.rsplit_once('/')?;
    let rest = path.get(way.len() + 1..)?;
    Some((way, rest))
}
