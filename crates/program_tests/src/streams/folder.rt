//! The files of the examples, in memory, and lines that are carried out over them.

use command_line::{FileFault, Files, execute};
use std::alloc::{AllocError, Global};
use std::io::{Read, Write};
use std::sync::Wait;
use std::thread::Threads;
use std::time::Clock;

/// Each file's name and text.
static FILES: [(&str, &str); 6] = [
    ("empty.s", ""),
    (
        "first.s",
        "addi x5, x0, 7\nlui x6, 0x40000\nsd x5, 0(x6)\ncbo.clean (x6)\nfence w, w\n\
        addi x17, x0, 93\naddi x10, x0, 0\necall\n",
    ),
    ("fault.s", "addi x5, x0, 7\nfoo x1\n"),
    (
        "append.s",
        "li a7, 2001\nli a0, 1\necall\nld t0, 72(a1)\nadd t1, a1, t0\nli t2, 1\nsd t2, 0(t1)\nsd t2, 8(t1)\n\
        li t3, 77\nsd t3, 16(t1)\ncbo.clean (t1)\nfence w, w\naddi t0, t0, 64\nsd t0, 72(a1)\naddi t4, a1, 64\n\
        cbo.clean (t4)\nfence w, w\nli a7, 2002\necall\nli a7, 93\nli a0, 0\necall\n",
    ),
    (
        "append.plan",
        "inodes 1\npages 1\njournals 1\nop 1 append 0 77\n",
    ),
    ("append.schedule", "h0*22\n"),
];

/// Files in memory: those of the examples, and what was written last.
#[derive(Drop)]
pub(crate) struct Folder {
    alloc: Global,
    written: (String, Vec<u8>),
}

impl Folder {
    pub(crate) fn new(alloc: Global) -> Folder {
        Folder {
            alloc,
            written: (String::new(alloc), Vec::new(alloc)),
        }
    }

    fn keep(&mut self, name: &str, bytes: &[u8]) -> Result<(), AllocError> {
        let name = String::from_str(self.alloc, name)?;
        self.written = (name, Vec::from_slice(self.alloc, bytes)?);
        Ok(())
    }
}

impl Files for Folder {
    fn read(&mut self, name: &str) -> Result<Vec<u8>, FileFault> {
        if self.written.0.as_str() == name {
            return Vec::from_slice(self.alloc, &self.written.1).map_err(|_| FileFault::Memory);
        }
        for (known, text) in &FILES {
            if *known == name {
                return Vec::from_slice(self.alloc, text.as_bytes()).map_err(|_| FileFault::Memory);
            }
        }
        Err(FileFault::Missing)
    }

    fn write(&mut self, name: &str, bytes: &[u8]) -> Result<(), FileFault> {
        self.keep(name, bytes).map_err(|_| FileFault::Memory)
    }
}

/// Carries out a line, whose words are parted by single spaces, and gives its status.
pub(crate) fn status_of<
    T: Threads + Wait + Sync + Clock + AllocGlobal,
    R: Read,
    W: Write,
    E: Write,
>(
    rt: &T,
    folder: &mut Folder,
    line: &str,
    input: &mut R,
    output: &mut W,
    errors: &mut E,
) -> Result<u8, AllocError> {
    let alloc = rt.alloc();
    let words: Vec<String> = line
        .split(' ')
        .map(|word| String::from_str(alloc, word))
        .try_collect(alloc)?;
    Ok(execute(rt, alloc, &words, folder, input, output, errors))
}
