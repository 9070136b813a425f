//! Tables by line.

ghost use Rattle.std.specs.Prelude.{◌≡◌, replicate, IfOk};

use std::alloc::{AllocError, Global};

/// A table with this value for each of so many lines. It is filled as a whole, which costs less than to push value by value.
pub fn filled<T: Copy>(alloc: Global, value: T, lines: u32) -> Result<Vec<T>, AllocError>
    ensures { IfOk result (λ table. table.items ≡ replicate lines value) }
{
    let mut table = Vec::new(alloc);
    table.resize(lines as usize, value)?;
    Ok(table)
}
