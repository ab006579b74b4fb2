//! What a terminal shows.

use crate::progress::Watched;
use std::cell::Cell;
use std::io;
use std::io::Read;
use std::test::Fail;
use std::time::{Clock, Duration};

/// A clock on which 400 milliseconds pass between two looks.
#[derive(Drop)]
struct Steps {
    looks: Cell<u32>,
}

impl Clock for Steps {
    fn monotonic(&self) -> io::Result<Duration> {
        let looks = self.looks.get();
        self.looks.set(looks.saturating_add(1));
        Ok(Duration::from_millis(u64::from(looks) * 400))
    }

    fn since_1970(&self) -> io::Result<Duration> {
        self.monotonic()
    }
}

/// A reader that has always more.
#[derive(Drop)]
struct Endless;

impl Read for Endless {
    fn read(&mut self, buf: &mut [u8]) -> io::Result<usize> {
        Ok(buf.len())
    }
}

#[test]
fn shows_what_is_read_once_a_second(rt: HostRuntime) -> Result<(), Fail> {
    let alloc = rt.alloc();
    let mut buf = Vec::new(alloc);
    buf.resize(700_000, 0)?;
    let clock = Steps {
        looks: Cell::new(0),
    };
    let mut watched = Watched::new(clock, Endless, Some(Vec::<u8>::new(alloc)));
    for _ in 0..6 {
        assert_eq!(rt; watched.read(&mut buf)?, 700_000);
    }
    // After 1.2 and 2.4 seconds, with three and six reads.
    let shown = watched.terminal.unwrap_or(Vec::new(alloc));
    assert_eq!(rt;
        shown.as_slice(),
        b"2 MB read\x1b[K\r4 MB read\x1b[K\r".as_slice()
    );
    Ok(())
}
