//! The files of a folder: reading those of a network one after another, and writing files.
//!
//! The law is in `specs/`. `Files` says what a file to read is, its first fault, and what the bytes of files are that could all be read; a
//! file that needn't be there counts as empty. `ReadingOrder` lists the files of a network by kind in the order in which they are read, and says
//! what their first fault is and which network they state. `Faults` says why no network is loaded, and `Writing` what a folder
//! holds once files were written into it, or a part of them.
//!
//! `file_to_read` makes a file to read, `reading` reads files, and `loading` makes a network of them (`load_network`, `load_with`); both
//! meet `Files`, `ReadingOrder` and `Faults`. `writing` writes files (`put_file`, `put_each`) and meets `Writing`.
#![tactic(auto)]

mod faults;
mod file_to_read;
mod loading;
mod reading;
mod writing;

pub use faults::LoadFault;
pub use file_to_read::{FileToRead, LONGEST_ITINERARY};
pub use loading::{load_network, load_with};
pub use writing::{FileToWrite, put_each, put_file};
