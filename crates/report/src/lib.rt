//! What is printed of a run: its events, each with its place in the program, and what keeps it from being whole. And what is wrong in a line of source.
#![tactic(auto)]

mod address;
mod answer;
mod causes;
mod disassembly;
mod events;
mod form;
mod json;
mod laws;
mod losses;
mod medium;
mod notes;
mod origin;
mod picture;
mod place;
mod printed_name;
mod printed_words;
mod redundant;
mod slips;
mod told;

pub use answer::{
    answer_line, answer_object, answer_text, answers_line, answers_object, bytes_members,
    cause_member, right_line, right_object,
};
pub use causes::unfinished_text;
pub use disassembly::listing_text;
pub use events::{PlacedEvent, hart_of, trace_text};
pub use form::Form;
pub use json::trace_json;
pub use laws::{one_address, printed_is_a_trace_file};
pub use losses::{unpersisted_json, unpersisted_text, why_json, why_text};
pub use medium::{line_text, volume_text};
pub use notes::notes_text;
pub use origin::{ExecutablePlace, FileLine, FunctionPlace, Origin};
pub use picture::{ImageLine, image_stores, picture_at, picture_text};
pub use place::{CodePlace, Place, Places};
pub use printed_words::PrintedWords;
pub use redundant::{waste_json, waste_text};
pub use slips::{Part, Slip, nearest_mnemonic, slip_in};
pub use told::ToldEvents;
