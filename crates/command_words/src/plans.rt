// The text of a plan.
ghost use Rattle.std.specs.Prelude.{◌≡◌, true, IfOk, IfErr, map};
ghost use Rattle.command_words.specs.Plans as spec;
ghost use Rattle.command_words.specs.Plans.{is_plan, turns_of};
ghost use Rattle.command_words.specs.Parts.{IsRefusal};

use crate::numbers::number_of;
use crate::{Refusal, UsageFault};
use run_record::{Items, Plan, Turn};
use std::alloc::{AllocError, Global};

/// How many turns a plan may have.
const MOST_TURNS: usize = 4096;

/// The turn that a text `T:N` tells: at most N instructions of thread T.
fn turn_of(text: &str) -> Option<Turn>
    ensures { result ≡ spec.turn_of text.now }
{
    let (tid, steps) = text.split_once(':')?;
    let tid = number_of(tid, 4, 0, 1_023)?;
    let steps = number_of(steps, 8, 1, 8_000_000)?;
    Some(Turn { tid, steps })
}

/// The parts of a text between commas.
fn pieces_of<'a>(alloc: Global, text: &'a str) -> Result<Vec<&'a str>, AllocError>
    ensures { IfOk result (λ pieces. map (λ piece. piece.now) pieces.items ≡ spec.pieces_of text.entry.now) }
{
    text.split(',').collect(alloc)
}

/// The plan that a text of turns, joined by commas, tells.
pub fn read_plan(alloc: Global, text: &str) -> Result<Plan, Refusal>
    ensures ok { IfOk result (λ plan. (is_plan text.now ≡ true) × (plan ≡ turns_of text.now)) }
    ensures err { IfErr result (IsRefusal UsageFault.Plan (is_plan text.now)) }
{
    let pieces = pieces_of(alloc, text)?;
    if pieces.len() > MOST_TURNS {
        return Err(Refusal::Usage(UsageFault::Plan));
    }
    let mut turns = Items::new(alloc);
    for piece in &pieces {
        match turn_of(piece) {
            Some(turn) => turns.push(turn)?,
            None => return Err(Refusal::Usage(UsageFault::Plan)),
        }
    }
    Ok(turns)
}
