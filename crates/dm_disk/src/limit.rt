//! The limit on the size of files. The system ends a process that writes past it by a signal, so no write goes there.
use std::fs::{self, File};
use std::io;
use std::os::unix::fs::FileExt;

const LIMITS: &str = "/proc/self/limits";

const NAME: &[u8] = b"Max file size";

// What the system says where a write goes past the limit.
const EFBIG: i32 = 27;

// How many bytes a file may have that this process writes. All numbers where there is no limit, or the system doesn't tell.
pub(crate) fn size_limit(rt: &HostRuntime) -> io::Result<u64> {
    match fs::read(rt, LIMITS) {
        Ok(text) => Ok(limit_in(&text)),
        Err(error) => match error.kind() {
            io::ErrorKind::NotFound | io::ErrorKind::PermissionDenied => Ok(u64::MAX),
            _ => Err(error),
        },
    }
}

fn limit_in(text: &[u8]) -> u64 {
    for at in 0..text.len() {
        if let Some(rest) = text[at..].strip_prefix(NAME) {
            return first_number(rest);
        }
    }
    u64::MAX
}

// The number behind the blanks, if one is there.
fn first_number(text: &[u8]) -> u64 {
    let mut number = None;
    for &byte in text {
        if byte.is_ascii_digit() {
            let digit = u64::from(byte.wrapping_sub(b'0'));
            let before: u64 = number.unwrap_or(0);
            number = Some(before.saturating_mul(10).saturating_add(digit));
        } else if byte != b' ' || number.is_some() {
            break;
        }
    }
    number.unwrap_or(u64::MAX)
}

// Writes the bytes at this place, if a file may have so many.
pub(crate) fn write_within(limit: u64, file: &File, bytes: &[u8], at: u64) -> io::Result<()> {
    if bytes.len() as u64 > limit.saturating_sub(at) {
        return Err(io::Error::from_raw_os_error(EFBIG));
    }
    file.write_all_at(bytes, at)
}
