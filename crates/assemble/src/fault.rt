//! Why a source is refused.

use crate::asm_line::AsmCode;
use thiserror::Error;

/// A line that is at fault, by its number from 1, and what is wrong with it.
#[derive(Clone, Copy, Debug, PartialEq, Eq, Error)]
#[error("{code} line {line}")]
pub struct AsmFault {
    pub line: u32,
    pub code: AsmCode,
}
