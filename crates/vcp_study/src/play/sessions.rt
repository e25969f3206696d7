//! Sessions: calls of `vcp`, of `vcp_study` or of a library on files in memory, and what they give.

pub mod came;
mod files;
mod player;
mod setting;
mod words;

pub use player::Player;
