//! Where texts are read.

use crate::progress::Watched;
use std::io::{ErrorKind, Input, IsTerminal, Read, Stderr, StdinLock};
use std::{fs, io};

/// What gives readers of texts by their names.
pub trait Texts {
    ghost use Rattle.std.specs.Prelude.{ℕ, List, Result};
    ghost use Rattle.std.specs.declared.io.Error.{Error};

    type Reader: Read + Drop;

    /// Whether opening the text of a name gives this.
    ghost gives: { Self → List ℕ → Result Self.Reader Error → Type 0 };

    /// Opens a text.
    fn open(&self, name: &str) -> io::Result<Self::Reader>
        ensures { gives self.now name.now result };
}

/// Files by their paths. No clause can say what stands in them.
#[derive(Drop)]
pub struct Files<'r>(pub &'r HostRuntime);

impl<'r> Texts for Files<'r> {
    type Reader = Watched<&'r HostRuntime, fs::File, Stderr>;

    ghost gives = { λ _ _ _. Unit {0} };

    fn open(&self, name: &str) -> io::Result<Watched<&'r HostRuntime, fs::File, Stderr>> {
        let file = fs::File::open(self.0, name)?;
        if file.metadata()?.is_dir() {
            return Err(io::Error::from(ErrorKind::IsADirectory));
        }
        Ok(Watched::new(self.0, file, terminal(self.0)))
    }
}

/// The standard input, by any name.
#[derive(Drop)]
pub struct StandardInput<'r>(pub &'r HostRuntime);

impl<'r> Texts for StandardInput<'r> {
    type Reader = Watched<&'r HostRuntime, StdinLock<'static>, Stderr>;

    ghost gives = { λ _ _ _. Unit {0} };

    fn open(
        &self,
        _name: &str,
    ) -> io::Result<Watched<&'r HostRuntime, StdinLock<'static>, Stderr>> {
        Ok(Watched::new(self.0, self.0.reader(), terminal(self.0)))
    }
}

/// The standard error output, if it is a terminal.
fn terminal(rt: &HostRuntime) -> Option<Stderr> {
    let errors = rt.stderr();
    if errors.is_terminal() {
        Some(errors)
    } else {
        None
    }
}
