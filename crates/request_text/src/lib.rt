//! Lines that a client of a store sends: a tag and a request each.
#![tactic(auto)]

mod calls;
mod fault;
mod line;
mod number;
mod one_call;
mod preparing;
mod reading;
mod request;
mod shapes;

pub use fault::RequestFault;
pub use one_call::call_asked;
pub use reading::{LONGEST_LINE, calls_asked, file_words, objects_asked, read_line};
pub use request::{Asked, AskedCall, Decision, ObjectWord, Request, TransactionName};

pub mod laws;
pub mod worked;
