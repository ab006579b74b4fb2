//! How far a file is read, shown on a terminal.

#[cfg(test)]
mod tests;

use std::io;
use std::io::{Read, Write};
use std::time::{Clock, Duration, Instant};

/// So many milliseconds pass before a line is shown, and before the next one.
const PAUSE: u64 = 1000;

/// A reader that shows on a terminal, once a second, how many bytes it gave. What is printed next stands over that line.
#[derive(Drop)]
pub struct Watched<C: Clock + Drop, R: Read + Drop, E: Write + Drop> {
    clock: C,
    reader: R,
    terminal: Option<E>,
    shown: Option<Instant>,
    done: u64,
}

impl<C: Clock + Drop, R: Read + Drop, E: Write + Drop> Watched<C, R, E> {
    /// Nothing was read yet. Nothing is shown without a terminal.
    pub fn new(clock: C, reader: R, terminal: Option<E>) -> Watched<C, R, E> {
        let shown = Instant::now(&clock).ok();
        Watched {
            clock,
            reader,
            terminal,
            shown,
            done: 0,
        }
    }

    /// Shows how many bytes were read, if nothing was shown for a second.
    fn show(&mut self) -> io::Result<()> {
        if let (Some(terminal), Some(shown)) = (&mut self.terminal, self.shown) {
            let now = Instant::now(&self.clock)?;
            if now.duration_since(shown) >= Duration::from_millis(PAUSE) {
                self.shown = Some(now);
                let megabytes = self.done / 1_000_000;
                write!(terminal, "{megabytes} MB read\x1b[K\r")?;
            }
        }
        Ok(())
    }
}

impl<C: Clock + Drop, R: Read + Drop, E: Write + Drop> Read for Watched<C, R, E> {
    fn read(&mut self, buf: &mut [u8]) -> io::Result<usize> {
        let count = self.reader.read(buf)?;
        self.done = self.done.saturating_add(count as u64);
        // A terminal that can't be written to is no reason to stop.
        let _ = self.show();
        Ok(count)
    }
}
