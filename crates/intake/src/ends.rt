// Where bytes come from, and where they go: a stream that every program has, or a file that it opened, each with its descriptor. A call names the
// descriptor that it means, and says how many bytes it moved, or why it failed; one that is not this end's is not open here.
ghost use Rattle.std.specs.Prelude.{◌≡◌, IsOk};
ghost use Rattle.std.specs.Io.{ReadsAtMost};
ghost use Rattle.intake.specs.Ends.{source_fd, target_fd};

use std::fs::File;
use std::io::{Error, Read, Result, Stdin, Stdout, Write};
use std::os::fd::AsRawFd;

// The system's number for a descriptor that is not open.
const NOT_OPEN: i32 = 9;

#[derive(Drop)]
pub enum Source {
    Standard(Stdin),
    Named(File),
}

// (An enum of its own: what is read is no target, and what is written no source.)
#[derive(Drop)]
pub enum Target {
    Standard(Stdout),
    Named(File),
}

impl Source {
    // Its descriptor.
    pub fn number(&self) -> i32
        ensures { result ≡ source_fd self.now }
    {
        match self {
            Source::Standard(stream) => stream.as_raw_fd(),
            Source::Named(file) => file.as_raw_fd(),
        }
    }

    // One read of the descriptor.
    pub(crate) fn read(&self, fd: i32, block: &mut [u8]) -> Result<usize>
        ensures within { ReadsAtMost result block.new }
        ensures own { IsOk result → source_fd self.now ≡ fd }
    {
        if self.number() != fd {
            return Err(Error::from_raw_os_error(NOT_OPEN));
        }
        match self {
            Source::Standard(stream) => {
                let mut stream = stream;
                stream.read(block)
            }
            Source::Named(file) => {
                let mut file = file;
                file.read(block)
            }
        }
    }
}

impl Target {
    // Its descriptor.
    pub fn number(&self) -> i32
        ensures { result ≡ target_fd self.now }
    {
        match self {
            Target::Standard(stream) => stream.as_raw_fd(),
            Target::Named(file) => file.as_raw_fd(),
        }
    }

    // All of the text to the descriptor, or why not all of it could be written.
    pub fn write(&self, fd: i32, text: &[u8]) -> Result<()>
        ensures { IsOk result → target_fd self.now ≡ fd }
    {
        if self.number() != fd {
            return Err(Error::from_raw_os_error(NOT_OPEN));
        }
        match self {
            Target::Standard(stream) => {
                let mut stream = stream;
                stream.write_all(text)
            }
            Target::Named(file) => {
                let mut file = file;
                file.write_all(text)
            }
        }
    }

    // What was written stands on the disk; a stream has none.
    pub fn settle(&self) -> Result<()> {
        match self {
            Target::Standard(_) => Ok(()),
            Target::Named(file) => file.sync_all(),
        }
    }
}
