//! The server, over any disks and doors and over files and sockets; its words and statuses, and the formatting of disks.
//!
//! - [`serve`] serves callers and editors until each port has served as many connections as the words ask for. Whatever
//!   comes of it, [`Served`] has the status, the disks and the doors.
//! - [`run_serve`] is the word `serve`: it locks the files of a folder, binds ports of the machine, and calls [`serve`].
//!   [`ErrorOutput`] says what standard error has then beside faults.
//! - [`run_web`] is the word `web`: it serves as `serve` does, and shows a terminal to browsers too.
//!   [`web_options`] reads its words.
//! - [`format_all`] makes each disk of a network a journal without records.
//! - [`is_blank`] says whether a disk can be formatted and nothing is lost.
//! - [`run_format`] formats a folder of real files, and sets aside what they held.
//! - [`serve_options`] reads the words of the program `serve`.
//! - [`ServeStatus`] says how the programs `format` and `serve` end.
#![tactic(auto)]

mod blank;
mod folder;
mod formatting;
mod logged_door;
mod node_file;
mod options;
mod real;
mod real_server;
mod saying;
mod serving;
mod status;
mod web;

pub use blank::is_blank;
pub use folder::Folder;
pub use formatting::{FormatOptions, format_all, format_options};
pub use options::{
    LAST_PORT, MAX_CALLS, MAX_EDITORS, MAX_PORTS, OptionFault, ServeOptions, serve_options,
};
pub use real::run_format;
pub use real_server::run_serve;
pub use saying::ErrorOutput;
pub use serving::{Served, serve};
pub use status::ServeStatus;
pub use web::{WebOptions, run_web, web_options};

#[cfg(test)]
mod tests;
