//! Tests of `line_memory`, `index_list`, `lru_cache`, `clean_fence` and `held_lines`: lines, lists of nodes, caches over media, and
//! memory over lines that stay as they are. They stand apart, so that those crates aren't proved a second time for them. The crate
//! has tests alone.

mod held;
mod lists;
mod memory;
mod persistence;
mod recency;
