//! The tests of stores, and of what they are made of.

mod any_objects;
mod checked_types;
mod guide;
mod laws;
pub mod managers;
mod printed;
pub mod reports;
mod stores;
