//! A clock for a thread that has none.

use std::io;
use std::io::ErrorKind;
use std::time::{Clock, Duration};

/// Can't be read. So a run whose time is limited is over at once.
#[derive(Clone, Copy)]
pub(crate) struct NoClock;

impl Clock for NoClock {
    fn monotonic(&self) -> io::Result<Duration> {
        Err(io::Error::from(ErrorKind::Unsupported))
    }

    fn since_1970(&self) -> io::Result<Duration> {
        Err(io::Error::from(ErrorKind::Unsupported))
    }
}
