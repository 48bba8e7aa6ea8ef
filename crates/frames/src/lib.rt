// Frames: one frame a line, in hexadecimal digits.
#![tactic(auto)]

mod buffer;
mod decoding;
mod encoding;
mod hex;
pub mod kinds;
pub mod reading;
pub mod records;
pub mod refusals;
pub mod rows;
pub mod scripts;
mod sums;
#[cfg(test)]
mod tests;
pub mod theorems;
pub mod writing;
