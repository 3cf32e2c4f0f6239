//! Tests of printers over writers of bytes and of text: which bytes they write, with colors and without, what they
//! forward, and what they return if a write fails.

mod byte_writers;
mod colors;
mod passing;
mod pieces;
mod printing;
mod recording;
mod scripted;
mod sinks;
mod writers;
