//! Tests of `needless`: which events of small runs are needless and why, beside a plain program that follows the definition; and a
//! long run.

mod plain;
mod runs;
mod tables;
