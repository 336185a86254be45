//! One thread's instructions, by what the thread keeps itself and by one object at a time.
//!
//! `Hart::ask` says what the instruction at a thread's pc comes to, as far as the thread itself can tell, and
//! `Request::object` which object it uses: a stripe of memory, the desk, or none. Three calls of `Hart` serve it: `serve_alone`
//! where its object stays as it is, `serve_at_stripe` on a stripe's words and reservations, `serve_at_desk` on the threads, the
//! output and the end. A thread begins by `Hart::arrive`. No call takes memory but for reservations, new threads and output.
//!
//! Below stand the loader, instructions and calls (`elf_image`, `rv_decode`, `rv_exec`, `entry_calls`, `guest_memory`), the bare
//! machine's own pieces, `place_turns` with the definition, and `shared_table` with the words of a stripe. The layer above uses
//! these clauses: a request is `place_turns`' request, its object is that of `object_of`, and what a call serves is
//! `bare_turn` from the state before to the state after, with its events. So the laws of `place_turns` hold of what workers make.
#![tactic(auto)]

mod desk;
mod hart;
pub mod laws;
mod stripe;
#[cfg(test)]
mod tests;

pub use hart::Hart;
