// From the words of the command line to a request.
ghost use Rattle.std.specs.Prelude.{◌≡◌, true, None, Some, IfOk, IfErr, map, string_bytes};
ghost use Rattle.command_words.specs.Command.{rows_read};
ghost use Rattle.command_words.specs.Requests as spec;
ghost use Rattle.command_words.specs.Requests.{AreLimits, AreTurns, IsTask, Tells, has_plan, request_from, request_of, task_text};
ghost use Rattle.command_words.specs.Parts.{IsRefusal, Works, work_task};

use crate::command::{parse, text_given};
use crate::numbers::numbers_in;
use crate::plans::read_plan;
use crate::{Refusal, Request, Search, Task, UsageFault};
use clap::ArgMatches;
use run_record::{Items, Plan};
use std::alloc::Global;

/// What the command does, before the numbers are read.
#[derive(Clone, Copy)]
enum Work<'a> {
    Run(&'a str),
    Step(&'a str),
    Search(Search, &'a str),
    Generate,
}

/// Whether the command is the one of this name.
fn is_command(matches: &ArgMatches, name: &str) -> bool
    ensures { result ≡ spec.is_command (rows_read matches.now) name.now }
{
    match text_given(matches, "command") {
        Some(word) => word == name,
        None => false,
    }
}

/// What the command looks for in a recorded run, if it looks for something.
fn search_in(matches: &ArgMatches) -> Option<Search>
    ensures { result ≡ spec.search_in (rows_read matches.now) }
{
    if is_command(matches, "locks") {
        return Some(Search::Locks);
    }
    if is_command(matches, "audit") {
        return Some(Search::Pairs);
    }
    None
}

/// What the command does with a file.
#[tactic(auto, unfolding(crate::specs::Parts::work_fault, crate::specs::Requests::task_with))]
fn work_on<'a>(matches: &ArgMatches<'a>, file: &'a str) -> Result<Work<'a>, UsageFault>
    requires { spec.file_in (rows_read matches.now) ≡ Some file.now }
    ensures { Works (rows_read matches.now) result }
{
    if is_command(matches, "run") {
        return Ok(Work::Run(file));
    }
    if is_command(matches, "step") {
        return Ok(Work::Step(file));
    }
    if let Some(search) = search_in(matches) {
        return Ok(Work::Search(search, file));
    }
    if is_command(matches, "gen") {
        return Err(UsageFault::File);
    }
    Err(UsageFault::Command)
}

/// What the command does without a file.
#[tactic(auto, unfolding(crate::specs::Parts::work_fault, crate::specs::Requests::task_with))]
fn work_without_file<'a>(matches: &ArgMatches<'a>) -> Result<Work<'a>, UsageFault>
    requires { spec.file_in (rows_read matches.now) ≡ None }
    ensures { Works (rows_read matches.now) result }
{
    if is_command(matches, "run") || is_command(matches, "step") {
        return Err(UsageFault::File);
    }
    if let Some(_) = search_in(matches) {
        return Err(UsageFault::File);
    }
    if is_command(matches, "gen") {
        return Ok(Work::Generate);
    }
    Err(UsageFault::Command)
}

/// What the command does with its file.
fn work_in<'a>(matches: &ArgMatches<'a>) -> Result<Work<'a>, UsageFault>
    ensures { Works (rows_read matches.now) result }
{
    match text_given(matches, "file") {
        Some(file) => work_on(matches, file),
        None => work_without_file(matches),
    }
}

/// The task of some work with these numbers.
fn task_of<'a>(work: Work<'a>, seed: u32, size: u32) -> Task<'a>
    ensures { task_text result ≡ work_task work.entry seed size }
{
    match work {
        Work::Run(file) => Task::Run { file },
        Work::Step(file) => Task::Step { file },
        Work::Search(search, file) => Task::Search { search, file },
        Work::Generate => Task::Generate { seed, size },
    }
}

/// The plan that the words give, and one without turns where they give none.
fn plan_in(alloc: Global, matches: &ArgMatches) -> Result<Plan, Refusal>
    ensures ok { IfOk result (λ plan. (has_plan (rows_read matches.now) ≡ true) × (plan ≡ spec.plan_in (rows_read matches.now))) }
    ensures err { IfErr result (IsRefusal UsageFault.Plan (has_plan (rows_read matches.now))) }
{
    match text_given(matches, "plan") {
        Some(text) => read_plan(alloc, text),
        None => Ok(Items::new(alloc)),
    }
}

/// The request that was read in the words.
fn request_in<'a>(alloc: Global, matches: &ArgMatches<'a>) -> Result<Request<'a>, Refusal>
    ensures { Tells (request_from (rows_read matches.now)) result }
{
    let work = match work_in(matches) {
        Ok(work) => work,
        Err(fault) => return Err(Refusal::Usage(fault)),
    };
    let numbers = match numbers_in(matches) {
        Some(numbers) => numbers,
        None => return Err(Refusal::Usage(UsageFault::Number)),
    };
    let plan = match plan_in(alloc, matches) {
        Ok(plan) => plan,
        Err(refusal) => return Err(refusal),
    };
    if numbers.limits.slots < numbers.limits.harts {
        return Err(Refusal::Usage(UsageFault::FewSlots));
    }
    Ok(Request {
        task: task_of(work, numbers.seed, numbers.size),
        limits: numbers.limits,
        plan,
        suppressions: text_given(matches, "suppressions"),
    })
}

/// Reads the words of a command line, without the program's name before them: a command `run FILE`,
/// `step FILE`, `audit FILE`, `locks FILE` or `gen`, and options `--name TEXT` or `--name=TEXT` in any order, each
/// at most once; behind `--` stand no options. `NoMemory` comes only where memory runs out.
pub fn read_words<'a>(alloc: Global, words: &'a [String]) -> Result<Request<'a>, Refusal>
    ensures told { Tells (request_of (map string_bytes words.entry.now)) result }
    ensures limits { IfOk result (λ request. AreLimits request.limits) }
    ensures plan { IfOk result (λ request. AreTurns request.plan) }
    ensures task { IfOk result (λ request. IsTask (task_text request.task)) }
{
    match parse(alloc, words) {
        Ok(matches) => request_in(alloc, &matches),
        Err(refusal) => Err(refusal),
    }
}
