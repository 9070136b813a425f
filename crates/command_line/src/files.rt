//! The files that a command reads and writes.

ghost use Rattle.std.specs.Prelude.{List, ℕ, ⊤};
ghost use Rattle.std.specs.Result.{result_map_both};
ghost use Rattle.std.specs.declared.result.Result.{Result as AResult};
ghost use Rattle.command_line.specs.declared.files.FileFault.{FileFault as AFault};

/// Why a file wasn't read or written.
#[derive(Clone, Copy, Debug, PartialEq, Eq)]
pub enum FileFault {
    /// There is no file of this name.
    Missing,
    /// It is a folder.
    Folder,
    /// The system doesn't permit it.
    Forbidden,
    /// It has more bytes than are read of a file.
    TooLong,
    /// It couldn't be, for another reason.
    Failed,
    /// Memory was refused.
    Memory,
}

/// Files by their names.
pub trait Files {
    /// What a read may give: the files before it, the name, the bytes or the fault, and the files after it.
    ghost read_gives: { Self → List ℕ → AResult (List ℕ) AFault → Self → Type 0 } = { λ _ _ _ _. ⊤ };

    /// The same of a write of these bytes.
    ghost write_gives: { Self → List ℕ → List ℕ → AResult (Unit {0}) AFault → Self → Type 0 } = { λ _ _ _ _ _. ⊤ };

    /// The bytes of a file.
    fn read(&mut self, name: &str) -> Result<Vec<u8>, FileFault>
        ensures { read_gives self.old name.now (result_map_both (λ bytes. bytes.items) (λ fault. fault) result) self.new };

    /// Makes a file of these bytes, in place of one of this name.
    fn write(&mut self, name: &str, bytes: &[u8]) -> Result<(), FileFault>
        ensures { write_gives self.old name.now bytes.now result self.new };
}
