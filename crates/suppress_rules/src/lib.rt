//! Rules that suppress reports.
//!
//! `Rules::read` reads a file of rules, in the format of ThreadSanitizer's suppressions, or names its first fault. `first_met`
//! gives the first rule that the two stacks of a report meet, by what `symbol_lines` knows of their places; `Rules::meets`
//! does the same with slices, where a lost stack is an empty one. `run_record` names lists of places and of bytes.
//!
//! In contracts rules are the list of kinds and patterns. What a file means is `rules_of` of `specs/RuleFile.antt`, what a
//! pattern matches is `matches` of `specs/Patterns.antt`, and what stacks meet is `first_met` and `meets_of` of
//! `specs/Stacks.antt`. The layer above uses the clauses of `Rules::read` and `first_met`, and that `first_met` is the same for
//! two stacks in either order (`specs/Order.antt`). That takes no memory, and looks up each frame once: rules are asked frame by
//! frame (`specs/FrameTests.antt`). Of each piece between two stars of a pattern the code takes the first place in a text, so
//! that it never goes back.
#![tactic(auto)]

mod cut;
mod fault;
mod lines;
mod parts;
mod pattern;
mod rule;
mod rules;
#[cfg(test)]
mod tests;

pub use fault::RuleFault;
pub use rule::{Kind, Rule};
pub use rules::{Rules, first_met};
