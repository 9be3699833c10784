//! The tests of types, and of the texts and outputs of the program.

mod apart;
mod checked;
mod gathered;
mod laws;
mod lines;
mod number_calls;
mod number_files;
mod printed;
mod relations;
mod sinks;
mod texts;
mod texts_written;
mod type_files;
mod types;
