//! The words of a line, and the numbers that words write.
#![tactic(auto)]

mod image_name;
mod numbers;
mod words;

pub use image_name::{Cut, ImageName, written_is_read};
pub use numbers::{Number, decimal, decimal_within, number_in, wide_decimal, written_number};
pub use words::{Blanks, after_keyword, first_word, is_blank, only_word};
