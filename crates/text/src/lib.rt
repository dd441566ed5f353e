// Decimal numbers in and out, and the request line of the program `root`.
#![tactic(auto)]

mod read;
mod request;
mod write;

pub use read::read_decimal;
pub use request::{Request, request_of, starts_with};
pub use write::{write_bytes, write_decimal};
