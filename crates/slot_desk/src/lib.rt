//! The desk: which thread holds which slot since which epoch, which threads were made and live,
//! and the clocks that wait for threads.
//!
//! `run_record` gives the limits and want of memory their names, `vector_clock` the clocks, and
//! `run_laws` the definitions of labels and clocks over histories. The layers above use one clause
//! of each call, which says by a function of `specs/Steps.antt` what the call answers and what the
//! desk, seen as `DeskContents`, is after it. Only `Desk::new` takes memory.
#![tactic(auto)]

mod answers;
mod desk;
mod history;
mod queue;
mod slot;
mod thread;

pub use answers::{Attached, Created, Joined};
pub use desk::Desk;
pub use history::{
    attach_law, create_law, earlier_law, end_law, era_law, first_law, held_law, leave_law,
    owner_law, stay_law, told_law,
};
pub use slot::Attachment;
