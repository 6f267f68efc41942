// The fields of records in commands and answers.
#![tactic(auto)]

mod given;
mod shown;

pub use given::{address_in, record_in};
pub use shown::{put_address, put_record};

// A code as a field: its number, with an `r` in front where it is reserved (rule K5).
#[derive(Clone, Copy)]
pub(crate) enum Code {
    Named(u8),
    Reserved(u8),
}
