//! Executables, and the memory that they describe.
//!
//! A file is ELF64, little-endian, for RISC-V (System V ABI; "ELF-64 object file format": ELF header and program
//! header). `load` accepts it or names its first fault. An `Image` borrows the file: its regions, its instructions,
//! the bytes that memory begins with, and the numbers of the granules, which are the eight-byte blocks of writable
//! memory. This crate stands on std alone.
//!
//! In contracts an image is the bytes of its file, and each definition of `specs/File.antt` takes these bytes:
//! `image_of` says whether a file is accepted, `word_at` is what `fetch` gives, and `granule_of` numbers an address's
//! granule. `laws.rt` has what callers need of granules: each granule has one number and one block of eight bytes.
#![tactic(auto)]

pub mod bytes;
mod fault;
mod header;
mod image;
pub mod laws;
mod loading;
mod memory;
mod region;
mod section;
#[cfg(test)]
mod tests;

pub use fault::ElfFault;
pub use image::Image;
pub use loading::load;
pub use region::Region;
