//! The files on disk.

ghost use Rattle.command_line.specs.declared.files.FileFault.TheVariants.{TooLong};
ghost use Rattle.std.specs.Prelude.{◌≡◌, ◌<◌, ◌≤◌, IfErr, IfOk, length};
ghost use Rattle.std_io.specs.IoError.{error_kind};
ghost use Rattle.host.specs.Faults.{fault_of_kind};

use command_line::{FileFault, Files};
use std::fs::File;
use std::io::{ErrorKind, Read};
use std::{fs, io};

/// The most bytes of a file that is read. No format has inputs of that length, and memory is for other things.
const MOST_BYTES: u64 = 67_108_864;

/// The files on disk, by their names. One of more than 67,108,864 bytes can't be read.
#[derive(Drop)]
pub struct Disk<'a, R> {
    rt: &'a R,
}

impl<'a, R: fs::Files + AllocGlobal> Disk<'a, R> {
    /// The files of this system.
    pub fn new(rt: &'a R) -> Disk<'a, R> {
        Disk { rt }
    }
}

impl<R: fs::Files + AllocGlobal> Files for Disk<'_, R> {
    fn read(&mut self, name: &str) -> Result<Vec<u8>, FileFault> {
        match read_start(self.rt, name, MOST_BYTES + 1) {
            Ok(bytes) => within_limit(bytes),
            Err(error) => Err(fault_of(error)),
        }
    }

    fn write(&mut self, name: &str, bytes: &[u8]) -> Result<(), FileFault> {
        fs::write(self.rt, name, bytes).map_err(fault_of)
    }
}

/// The bytes at the start of a file, so many where it has them.
fn read_start<R: fs::Files + AllocGlobal>(rt: &R, name: &str, count: u64) -> io::Result<Vec<u8>> {
    let mut bytes = Vec::new(rt.alloc());
    File::open(rt, name)?.take(count).read_to_end(&mut bytes)?;
    Ok(bytes)
}

/// The bytes of a file, where they are no more than a file may have.
fn within_limit(bytes: Vec<u8>) -> Result<Vec<u8>, FileFault>
    ensures same { IfOk result (λ taken. taken.items ≡ bytes.items) }
    ensures ok { IfOk result (λ taken. length bytes.items ≤ 67108864) }
    ensures err { IfErr result (λ fault. (fault ≡ TooLong) × 67108864 < length bytes.items) }
{
    if bytes.len() as u64 > MOST_BYTES {
        Err(FileFault::TooLong)
    } else {
        Ok(bytes)
    }
}

/// Why a file wasn't read or written, by the error that the system answered.
fn fault_of(error: io::Error) -> FileFault
    ensures { result ≡ fault_of_kind (error_kind error) }
{
    match error.kind() {
        ErrorKind::NotFound | ErrorKind::NotADirectory => FileFault::Missing,
        ErrorKind::IsADirectory => FileFault::Folder,
        ErrorKind::PermissionDenied => FileFault::Forbidden,
        ErrorKind::OutOfMemory => FileFault::Memory,
        _ => FileFault::Failed,
    }
}
