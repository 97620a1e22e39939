// What every program here does at its two ends: a file is read to its end, and a text is written. A read or a write that fails is said on
// standard error, and never taken for an answer. Of the system's bytes no contract knows; of a reader and a writer whose bytes are known,
// these say which were read and written. Internal: called by our programs alone.
#![tactic(auto)]

ghost use Rattle.std.specs.Prelude.{◌≡◌, ◌<◌, ◌≤◌, length, take, IfSome, IfOk, IfErr, OnOk};
ghost use Rattle.std.specs.Io.KnownBytes.{Appends, Consumes, IsAtEnd};
ghost use Rattle.io.specs.Counts.{IsPrefixLen};
ghost use Rattle.limits.specs.Limits.{most_printed};
ghost use Rattle.filters.specs.declared.Failed.TheVariants.{NotRead, NotWritten};
ghost use Rattle.filters.specs.Readings.{count_read};

use std::fmt::Display;
use std::io::{Read, Write};

// As many bytes as are read of a file: one more than it may have, so that a file that is too long is noticed.
pub const MOST_READ: usize = limits::MOST_FILE_BYTES + 1;

// What failed of reading a file and writing a text of it; why, is said on standard error by then.
#[derive(Clone, Copy, Debug, PartialEq, Eq)]
pub enum Failed {
    NotRead,
    NotWritten,
}

// A read that failed, and how many bytes stood at the start of the buffer by then.
#[derive(Clone, Copy, Debug, PartialEq, Eq)]
pub struct CutShort {
    pub count: usize,
}

impl From<CutShort> for Failed {
    ghost from_gives = { λ cut failed. failed ≡ NotRead };

    // Of a file that was not read to its end, that is said.
    fn from(_cut: CutShort) -> Failed {
        Failed::NotRead
    }
}

// Says on standard error what failed, and why. That this fails too can't be said anywhere.
pub fn say<D: Display + Drop>(rt: &HostRuntime, name: &[u8], why: D) {
    let _ = rt.stderr().write_all(name);
    let _ = rt.eprintln(format_args!(": {why}"));
}

// One read into a part of a buffer. Where it fails, that is said under the file's name.
fn read_some<R: Read>(
    rt: &HostRuntime,
    input: &mut R,
    name: &[u8],
    part: &mut [u8],
) -> Result<usize, CutShort>
    ensures count { IsPrefixLen (count_read result) part.new }
    ensures bytes { Consumes (R.remaining input.old) (R.remaining input.new) (take (count_read result) part.new) }
    ensures end { IfOk result (λ count. count ≡ 0 → 0 < length part.new → IsAtEnd (R.remaining input.new)) }
    ensures cut { IfErr result (λ cut. cut.count ≡ 0) }
{
    match input.read(part) {
        Ok(count) => Ok(count),
        Err(error) => {
            say(rt, name, error);
            Err(CutShort { count: 0 })
        }
    }
}

// Reads a file to its end, or until the buffer is full; a read that fails ends it too, and is said under the file's name.
pub fn read_from<R: Read>(
    rt: &HostRuntime,
    input: &mut R,
    name: &[u8],
    file: &mut [u8],
) -> Result<usize, CutShort>
    ensures count { IsPrefixLen (count_read result) file.new }
    ensures bytes { Consumes (R.remaining input.old) (R.remaining input.new) (take (count_read result) file.new) }
    ensures front { IfOk result (λ count. IfSome (R.remaining input.old)
        (λ bytes. take count file.new ≡ take (length file.new) bytes)) }
{
    let mut count = 0;
    while count < file.len() {
        let Ok(more) = read_some(rt, input, name, &mut file[count..]) else {
            return Err(CutShort { count });
        };
        if more == 0 {
            break;
        }
        count += more;
    }
    Ok(count)
}

// Reads standard input, or what stands for it.
pub fn read_file<R: Read>(
    rt: &HostRuntime,
    input: &mut R,
    file: &mut [u8],
) -> Result<usize, CutShort>
    ensures count { IsPrefixLen (count_read result) file.new }
    ensures bytes { Consumes (R.remaining input.old) (R.remaining input.new) (take (count_read result) file.new) }
    ensures front { IfOk result (λ count. IfSome (R.remaining input.old)
        (λ bytes. take count file.new ≡ take (length file.new) bytes)) }
{
    read_from(rt, input, b"standard input", file)
}

// Writes the front of a buffer to standard output, or what stands for it, and says so if that fails.
pub fn write_front<W: Write>(
    rt: &HostRuntime,
    output: &mut W,
    buffer: &[u8],
    long: usize,
) -> Result<(), Failed>
    requires { long ≤ length buffer.now }
    ensures written { OnOk result (Appends (W.contents output.old) (W.contents output.new) (take long buffer.now)) }
    ensures failed { IfErr result (λ failed. failed ≡ NotWritten) }
{
    match output.write_all(&buffer[..long]) {
        Ok(()) => Ok(()),
        Err(error) => {
            say(rt, b"standard output", error);
            Err(Failed::NotWritten)
        }
    }
}

// A buffer of zeros with room for everything that is printed of any file.
pub fn room() -> [u8; limits::MOST_PRINTED]
    ensures { most_printed ≡ length result }
{
    [0; limits::MOST_PRINTED]
}

#[cfg(test)]
mod tests {
    use super::*;
    use std::io;
    use std::io::ErrorKind;

    // A reader that brings three bytes a read for some reads, and then fails or is at its end.
    #[derive(Drop)]
    struct Pieces {
        reads: usize,
        fails: bool,
    }

    impl Read for Pieces {
        fn read(&mut self, part: &mut [u8]) -> io::Result<usize> {
            if self.reads == 0 {
                return if self.fails {
                    Err(io::Error::from(ErrorKind::Other))
                } else {
                    Ok(0)
                };
            }
            self.reads -= 1;
            let count = part.len().min(3);
            part[..count].fill(7);
            Ok(count)
        }
    }

    // A writer that takes two bytes a write for some writes, and then fails.
    #[derive(Drop)]
    struct Narrow {
        writes: usize,
    }

    impl Write for Narrow {
        fn write(&mut self, bytes: &[u8]) -> io::Result<usize> {
            if self.writes == 0 {
                return Err(io::Error::from(ErrorKind::StorageFull));
            }
            self.writes -= 1;
            Ok(bytes.len().min(2))
        }

        fn flush(&mut self) -> io::Result<()> {
            Ok(())
        }
    }

    // Reads to the end, until the buffer is full, or until a read fails; what came before that stands in the buffer.
    #[test]
    fn reads_to_the_end_the_buffers_or_a_failure(rt: HostRuntime) {
        for (reads, fails, count, whole) in [
            (0, false, 0, true),
            (0, true, 0, false),
            (2, false, 6, true),
            (2, true, 6, false),
            (3, true, 8, true),
            (9, false, 8, true),
        ] {
            let mut file = [0u8; 8];
            let mut pieces = Pieces { reads, fails };
            let reading = read_from(&rt, &mut pieces, b"pieces", &mut file);
            let expected = if whole {
                Ok(count)
            } else {
                Err(CutShort { count })
            };
            assert_eq!(rt; reading, expected, "after {reads} reads");
        }
    }

    // Writes all, by as many writes as it takes, or says that it did not.
    #[test]
    fn writes_all_or_fails(rt: HostRuntime) {
        for (writes, written) in [(0, false), (2, false), (3, true)] {
            let mut narrow = Narrow { writes };
            assert_eq!(rt;
                write_front(&rt, &mut narrow, b"123456", 5).is_ok(),
                written,
                "after {writes} writes"
            );
        }
    }
}
