//! Tests of `crash_model`, `store_trace`, `crash_image` and `image_check`: small traces, their cuts, images and verdicts. They
//! stand apart, so that those crates aren't proved a second time for
//! them. The crate has tests alone.

mod asked;
mod branches_opened;
mod bytes_asked;
pub(crate) mod either_medium;
mod events;
mod image_names;
mod images;
mod indexes;
mod models;
mod plain_check;
mod second_layout;
mod traces;
mod verdicts;
