// The rules of a file, and the stacks that meet them.
ghost use Rattle.std.specs.Prelude.{◌≡◌, ◌⊎◌, [], position, IfOk, IfErr, is_some, Ok, Err};
ghost use Rattle.std.specs.List.{before_first};
ghost use Rattle.suppress_rules.specs.RuleFile as file;
ghost use Rattle.suppress_rules.specs.FrameTests as tests;
ghost use Rattle.suppress_rules.specs.Stacks as stacks;

use crate::fault::RuleFault;
use crate::lines::{first_line, rule_in, trimmed};
use crate::parts::Text;
use crate::pattern::matches;
use crate::rule::{Kind, Rule};
use run_record::{Items, Places};
use std::alloc::Global;
use std::marker::Model;
use symbol_lines::{Frame, Frames};

/// The rules of a file, in its order. Contracts see the list of their kinds and patterns.
#[derive(Drop)]
pub struct Rules {
    rules: Items<Rule>,
}

impl Model for Rules {
    ghost use Rattle.std.specs.Prelude.{List};
    ghost use Rattle.suppress_rules.specs.declared.rule.Rule as row;

    ghost Value = { List row.Rule };

    ghost view = { λ r. r.rules };
}

impl Rules {
    /// No rules. It takes no memory.
    pub fn none(alloc: Global) -> Rules
        ensures { result ≡ [] }
    {
        Rules {
            rules: Items::new(alloc),
        }
    }

    /// The rules of a file, or its first fault: that it isn't UTF-8 comes before all others, which come in the order of
    /// lines.
    ///
    /// Lines end at a newline. Spaces, tabs and carriage returns at both ends of a line are dropped, and lines that are then
    /// empty or begin with `#` are skipped. Each other line is a rule: a type, `:` and a pattern. It takes memory for each
    /// rule and its pattern.
    pub fn read(alloc: Global, bytes: &[u8]) -> Result<Rules, RuleFault>
        ensures read { IfOk result (λ rules. file.rules_of bytes.now ≡ Ok rules) }
        ensures refused { IfErr result (λ fault. (fault ≡ RuleFault.NoMemory) ⊎ (file.rules_of bytes.now ≡ Err fault)) }
    {
        match std::str::from_utf8(bytes) {
            Ok(text) => read_lines(alloc, text.as_bytes()),
            Err(_) => Err(RuleFault::NotUtf8),
        }
    }

    /// The number, from 0, of the first rule that the frames of two stacks meet; a lost stack is an empty one. It takes no
    /// memory.
    pub fn meets<F: Frames>(&self, frames: &F, one: &[u64], other: &[u64]) -> Option<usize>
        ensures { result ≡ stacks.first_met self.now (F.frame_of frames.now) one.now other.now }
    {
        let rules = self.rules.as_slice();
        let left = unmet(rules, frames, one);
        let left = unmet(left, frames, other);
        if left.len() < rules.len() {
            Some(left.len())
        } else {
            None
        }
    }
}

/// The number, from 0, of the first rule that the frames of two stacks meet, of which each may be lost. It takes no memory.
pub fn first_met<F: Frames>(
    rules: &Rules,
    frames: &F,
    one: &Option<Places>,
    other: &Option<Places>,
) -> Option<usize>
    ensures first { result ≡ stacks.first_met rules.now (F.frame_of frames.now) (stacks.places_of one.now) (stacks.places_of other.now) }
    ensures met { is_some result ≡ stacks.meets_of rules.now (F.frame_of frames.now) one.now other.now }
{
    rules.meets(frames, places_of(one), places_of(other))
}

// The rules of a file's lines, or their first fault.
fn read_lines(alloc: Global, bytes: &[u8]) -> Result<Rules, RuleFault>
    ensures read { IfOk result (λ rules. file.rules_from 1 (file.lines_of bytes.now) ≡ Ok rules) }
    ensures refused { IfErr result (λ fault. (fault ≡ RuleFault.NoMemory) ⊎ (file.rules_from 1 (file.lines_of bytes.now) ≡ Err fault)) }
{
    let mut rules = Items::new(alloc);
    let mut rest = bytes;
    let mut number = 0u64;
    while !rest.is_empty() {
        let (line, below) = first_line(rest);
        number += 1;
        if let Some((kind, pattern)) = rule_in(number, trimmed(line))? {
            let pattern = Items::from_vec(Vec::from_slice(alloc, pattern)?);
            rules.push(Rule { kind, pattern })?;
        }
        rest = below;
    }
    Ok(Rules { rules })
}

// The places of a stack, and none of a lost one.
fn places_of(stack: &Option<Places>) -> &[u64]
    ensures { result.now ≡ stacks.places_of stack.now }
{
    match stack {
        Some(places) => places.as_slice(),
        None => &[],
    }
}

// The rules before the first one that a frame of the stack meets, or all where none is met. Each frame is looked up once.
fn unmet<'a, F: Frames>(rules: &'a [Rule], frames: &F, places: &[u64]) -> &'a [Rule]
    ensures { result.now ≡ before_first (tests.some_frame_meets (F.frame_of frames.now) places.now) rules.now }
{
    match places.split_first() {
        Some((top, below)) => unmet_below(unmet_by(rules, true, frames.frame(*top)), frames, below),
        None => rules,
    }
}

// The same by the frames below the first one of a stack.
fn unmet_below<'a, F: Frames>(rules: &'a [Rule], frames: &F, places: &[u64]) -> &'a [Rule]
    ensures { result.now ≡ before_first (tests.some_other_meets (F.frame_of frames.now) places.now) rules.now }
{
    let mut left = rules;
    for place in places {
        left = unmet_by(left, false, frames.frame(*place));
    }
    left
}

// The rules before the first one that the frame meets, or all where none is met.
fn unmet_by<'a>(rules: &'a [Rule], first: bool, frame: Frame<'_>) -> &'a [Rule]
    ensures { result.now ≡ before_first (tests.frame_meets first (tests.told_by frame.entry)) rules.now }
{
    match position_met(rules, first, frame) {
        Some(at) => &rules[..at],
        None => rules,
    }
}

fn position_met(rules: &[Rule], first: bool, frame: Frame<'_>) -> Option<usize>
    ensures { result ≡ position (tests.frame_meets first (tests.told_by frame.entry)) rules.now }
{
    rules.iter().position(|rule| is_met(rule, first, frame))
}

// Whether a frame, the first one of its stack or another, meets the rule.
fn is_met(rule: &Rule, first: bool, frame: Frame<'_>) -> bool
    ensures { result ≡ tests.frame_meets first (tests.told_by frame.entry) rule.now }
{
    let looks = match rule.kind {
        Kind::Race => true,
        Kind::RaceTop => first,
        Kind::NeverMet => false,
    };
    looks && some_text_matches(rule.pattern.as_slice(), frame)
}

// Whether the pattern matches the name of the frame's function or its file.
fn some_text_matches(pattern: &[u8], frame: Frame<'_>) -> bool
    ensures { result ≡ stacks.frame_matches pattern.now (tests.told_by frame.entry) }
{
    matches(pattern, Text::of_bytes(frame.name.as_bytes()))
        || matches(pattern, Text::of_file(frame.file))
}
