//! Tests of `medium_text`, `listing_text` and `notes_text`: what is printed of a volume, of a line, of a program's text and of what a processor may do otherwise.

mod listings;
mod media;
mod noted;
