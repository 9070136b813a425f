//! Tests of `bus`: harts that take turns on one thread, by their seats, and harts that run in threads; and of `stop_word`. They
//! stand apart, so that these aren't proved a second time for them. The crate has tests alone.
//!
//! What is tested stands in tables. A test asks for the first place of a table whose calls come to something else than is said
//! there, and buses stay in functions that give back plain data.

mod cores;
mod endings;
mod programs;
mod stop_words;
mod together;
mod turns;
