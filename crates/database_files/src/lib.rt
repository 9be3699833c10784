//! The files of databases at their paths: opened where there is one, or made where there is nothing.
#![tactic(auto)]

mod chosen_disk;
mod databases;
mod faults;
mod file_databases;
mod files;
mod heads;
mod new_files;
mod open_fault;
mod torn_writes;

pub use chosen_disk::ChosenDisk;
pub use databases::Databases;
pub use file_databases::FileDatabases;
pub use files::{ChosenFile, create_files, files_left, open_files};
pub use open_fault::OpenFault;
pub use torn_writes::TornWrites;
