//! A journal: texts of any length on one file, each on the disk before it is acknowledged.
//!
//! After a crash at any moment, the file stands for the texts from before the call, with the new one or without; once
//! [`Journal::append`] has returned `Ok`, every crash leaves a file that has it. [`Journal::replace`] leaves the old texts
//! or the new ones, and [`Journal::open`] writes nothing. The [`laws`] say that a file has one answer: the texts that it
//! stands for, or one fault.
//!
//! A file begins with a header, which tells its format ([`Format`]): all are read and appended to. A new file is given its
//! format. One that takes the place of a journal has a header of named fields, and a checksum at the speed of memory, of which
//! the laws say that another word in a text makes another one.
//!
//! The crate knows the disk as a [`Device`], and [`Memory`] is one. No contract can say that a real file is such a device.
#![tactic(auto)]

mod device;
mod fault;
mod fields;
mod format;
mod journal;
mod lanes;
pub mod laws;
mod memory;
mod reading;
mod texts;
mod writing;

pub use device::{Device, DeviceError};
pub use fault::{Fault, OpenError, WriteError};
pub use fields::unknown_field;
pub use format::{ChecksumField, Format, KindsField};
pub use journal::Journal;
pub use memory::Memory;
pub use reading::read_length;
pub use texts::Texts;
pub use writing::{MOST_BYTES, replace_file};
