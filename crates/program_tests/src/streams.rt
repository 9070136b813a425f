//! The program over standard streams that fail at some call, which no transcript can say. The crate has tests alone.

mod debugging;
mod folder;
mod screen;
mod streams;
mod telling;
