//! Guest memory by granules: words of eight bytes, and who has reserved which.
//!
//! Nothing stands below this crate. The machines above keep each granule as one word, the byte at
//! the least address least. They use the clauses that `field` reads some bytes of a word as a
//! number, that `with_field` writes them and no others, and that each call of `Reservations`
//! changes the reservations of one granule or of one thread.
#![tactic(auto)]

mod fields;
mod reservations;

pub use fields::{field, with_field};
pub use reservations::{Reservation, Reservations};
