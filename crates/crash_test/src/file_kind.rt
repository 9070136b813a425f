//! What the file of a program is.

ghost use Rattle.std.specs.Prelude.{◌≡◌};
ghost use Rattle.crash_test.specs.Programs.{file_kind};

use elf_file::is_elf;
use program::MAGIC;

/// What the file of a program is, by its first bytes.
#[derive(Clone, Copy)]
pub(crate) enum FileKind {
    /// An ELF file, which begins with 7f 45 4c 46.
    Elf,
    /// An object's, which begins with `RVXPROG1`.
    Object,
    /// A source, which is any other.
    Source,
}

impl FileKind {
    /// What a file is.
    pub(crate) fn of(file: &[u8]) -> FileKind
        ensures { result ≡ file_kind file.now }
    {
        if is_elf(file) {
            FileKind::Elf
        } else if file.starts_with(&MAGIC) {
            FileKind::Object
        } else {
            FileKind::Source
        }
    }
}
