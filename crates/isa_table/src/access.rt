//! The set of accesses before or after a fence.

/// A set of kinds of access, which a fence orders.
///
/// Source: RISC-V Unprivileged ISA 20191213, chapter 2, "Memory Ordering Instructions".
#[derive(Clone, Copy, Debug, PartialEq, Eq)]
pub struct AccessSet {
    pub device_input: bool,
    pub device_output: bool,
    pub memory_reads: bool,
    pub memory_writes: bool,
}
