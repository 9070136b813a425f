//! Tests of what people feed such a tool with: media with bytes that were damaged, and runs that are cut off after every step.

mod cut_off;
mod damaged;
