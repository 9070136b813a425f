//! Tests of what decides which sequential runs fit: small histories by hand, and drawn ones against the definitions as a plain program.
//!
//! What is expected by hand was written down from the definition of fitting: what has ended stays, what is pending is there as a whole or
//! not at all, and what ended before another began stands before it.

mod drawn;
mod fitting;
mod marks;
mod plain;
mod precedences;
mod sequential;
