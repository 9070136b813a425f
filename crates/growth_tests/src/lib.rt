//! Tests of the want of memory, of the calls that a caller relies on to answer it: each growth of a call is refused in turn, and the
//! call answers that and nothing else, with its object as it was, so that it gives the usual answer when it is made again. And
//! calls that take no memory make no growth at all. `tools/growths` refuses the growths; without it each test compares the call's
//! right answer. All other calls are swept by the transcripts of the program. The crate has tests alone.
#![tactic(auto)]

#[cfg(test)]
mod ending;
#[cfg(test)]
mod free_caches;
#[cfg(test)]
mod free_memory;
#[cfg(test)]
mod free_seats;
#[cfg(test)]
mod free_words;
#[cfg(test)]
mod images;
#[cfg(test)]
mod machines;
#[cfg(test)]
mod samples;
#[cfg(test)]
mod seats;
#[cfg(test)]
mod texts;
#[cfg(test)]
mod together;
#[cfg(test)]
mod verdicts;
