// Reads a listing.
#![tactic(auto)]

mod admitting;
mod draft;
mod drafts;
mod entries;
mod entry;
mod heads;
mod line;
mod lines;
mod lists;
mod numbers;
mod place;
pub mod read;
mod reader;
pub mod room;
mod rooms;
pub mod script_read;
mod scripts;
