//! Readers as sources, and sources that are read whole.

ghost use Rattle.std.specs.Prelude.{◌≡◌, false};

use anyhow::{Error, Result};
use cli_file_stores::{WholeFault, read_whole};
use field_lines::{Reading, Source, SourceFault};
use std::io;
use std::io::{ErrorKind, Read};

/// What the readers give.
const TEXT: &[u8] = b"A|37001|B|37003|12";

/// A reader that is interrupted `interrupted` times, and then gives its bytes a few at a time. At their end it fails if
/// `fails` is set.
#[derive(Drop)]
struct Script<'a> {
    interrupted: u32,
    bytes: &'a [u8],
    at_a_time: usize,
    fails: bool,
}

impl Read for Script<'_> {
    fn read(&mut self, buffer: &mut [u8]) -> io::Result<usize> {
        if self.interrupted > 0 {
            self.interrupted -= 1;
            return Err(io::Error::from(ErrorKind::Interrupted));
        }
        if self.bytes.is_empty() && self.fails {
            return Err(io::Error::from(ErrorKind::TimedOut));
        }
        let count = self.at_a_time.min(self.bytes.len()).min(buffer.len());
        buffer[..count].copy_from_slice(&self.bytes[..count]);
        self.bytes = &self.bytes[count..];
        Ok(count)
    }
}

/// Prints what five pulls of at most seven bytes of `source` give. Whether the source tells a failure is printed first,
/// behind its `name`, and again for each pull that fails.
fn show_pulls<S: Source>(rt: &HostRuntime, name: &str, mut source: S) -> Result<()>
where
    S: Drop,
{
    println!(rt; "{name}: failed {}", source.failed())?;
    for _ in 0..5 {
        let mut buffer = [0u8; 7];
        match source.pull(&mut buffer) {
            Ok(count) => println!(rt; "{:?}", str::from_utf8(&buffer[..count])?)?,
            Err(SourceFault) => println!(rt; "{SourceFault}: failed {}", source.failed())?,
        }
    }
    Ok(())
}

/// Creates a reader of `TEXT`. It is interrupted `interrupted` times, gives at most `at_a_time` bytes a read, and fails
/// at the end if `fails` is set.
fn in_parts(interrupted: u32, at_a_time: usize, fails: bool) -> Script<'static> {
    Script {
        interrupted,
        bytes: TEXT,
        at_a_time,
        fails,
    }
}

/// Prints what a source gives that is read whole, up to `limit` bytes. Returns an error if memory was refused.
fn show_whole<S: Source>(rt: &HostRuntime, mut source: S, limit: usize) -> Result<()>
where
    S: Drop,
    requires { S.is_failed source ≡ false }
{
    match read_whole(rt.alloc(), &mut source, limit) {
        Ok(bytes) => println!(rt; "whole up to {limit}: {:?}", str::from_utf8(&bytes)?)?,
        Err(WholeFault::Memory) => return Err(Error::from(WholeFault::Memory)),
        Err(fault) => println!(rt; "whole up to {limit}: {fault}")?,
    }
    Ok(())
}

/// Prints what sources give.
pub(crate) fn show(rt: &HostRuntime) -> Result<()> {
    show_pulls(rt, "a slice", Reading::new(TEXT))?;
    show_pulls(rt, "two at a time", Reading::new(in_parts(0, 2, false)))?;
    show_pulls(
        rt,
        "interrupted 999 times",
        Reading::new(in_parts(999, 7, false)),
    )?;
    show_pulls(
        rt,
        "interrupted 1,000 times",
        Reading::new(in_parts(1_000, 7, false)),
    )?;
    show_pulls(rt, "fails at the end", Reading::new(in_parts(0, 7, true)))?;
    show_whole(rt, Reading::new(TEXT), 18)?;
    show_whole(rt, Reading::new(in_parts(0, 1, false)), 18)?;
    show_whole(rt, Reading::new(TEXT), 17)?;
    show_whole(rt, Reading::new(in_parts(0, 7, true)), 18)
}
