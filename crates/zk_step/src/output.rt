// Where what is printed goes: the output streams, the two windows, the status line.

pub mod codes;
pub(crate) mod giving;
pub mod parts;
pub mod printer;
pub mod routing;
pub mod status;
pub mod streams;
pub mod view;
