//! Tests of `durability`: lost and kept lines of cuts, and stores that were not persisted in time, by event numbers.

mod cuts;
mod ends;
mod events;
