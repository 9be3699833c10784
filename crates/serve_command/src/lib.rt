//! `serve`: a store in a file answers what one client asks.
#![tactic(auto)]

mod archives;
mod found;
mod serve;
mod source_additions;

pub use archives::{Archives, FolderArchive, FolderArchives};
pub use serve::{Serving, fault_of_archive, serve_database};
pub use source_additions::SourceAdditions;
