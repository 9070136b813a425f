//! Tests of `isa_table`, `decode` and `hart`: words, their texts and their effects.

mod decoding;
mod effects;
mod encoding;
mod harts;
mod words;
