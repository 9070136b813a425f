//! Tests of the assembler's crates, of `elf_file`, `object`, `program` and `round_trip`, and of `isa_table`, `decode` and `hart`: sources, their
//! faults, and the files and bytes that come of them; words, their texts and their effects. They stand apart, so that those crates
//! aren't proved a second time for them. The crate has tests alone.

mod decimals;
mod elf_files;
mod examples;
mod files;
mod instructions;
mod labels;
mod line_tables;
mod lines;
mod names;
mod numbers;
mod readings;
mod sources;
mod tokens;
