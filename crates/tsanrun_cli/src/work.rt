// From the words to a run and the texts that tell of it.
ghost use Rattle.std.specs.Prelude.{◌≡◌, ◌≤◌, ℕ, List, [], Ok, Some, IfOk, IfErr, OnOk, MatchResult, map, string_bytes, nat_lt, if◌then◌else◌};
ghost use Rattle.std.specs.List.{flat_map};
ghost use Rattle.std.specs.Option.{option_map};
ghost use Rattle.elf_image.specs.File.{image_of};
ghost use Rattle.command_words.specs.Requests.{request_text, task_text, request_of, IsTask, run as asks_run, step as asks_step, search as asks_search, generate as asks_generate};
ghost use Rattle.command_words.specs.declared.request.Search.{Search as SearchFor};
ghost use Rattle.gen_program.specs.Program.{program};
ghost use Rattle.symbol_lines.specs.Frames.{tables_of};
ghost use Rattle.whole_runs.specs.Run.{IsRun};
ghost use Rattle.run_laws.specs.Faithful.{OneByOne, AtOnce};
ghost use Rattle.thread_turns.specs.Ranges.{AreLimits};
ghost use Rattle.report_text.specs.Status as status;
ghost use Rattle.tsanrun_cli.specs.Ends.{Refuses, suppressed_by, named_executable, mode_of};
ghost use Rattle.tsanrun_cli.specs.Texts.{IsFound};
ghost use Rattle.tsanrun_cli.specs.Work.{HasRun, IsTold, AreReportsTold, IsUnasked, IsUnaccepted, IsRead, AreRulesRead, call_of, whole_call_of, asking, bytes_of};

use crate::End;
use crate::named_rules::NamedRules;
use crate::texts::{made_texts, report_texts};
use command_words::{Refusal, Request, Search, Task, UsageFault, read_words};
use elf_image::{ElfFault, Image, load};
use gen_program::make;
use hart_workers::run_rounds;
use lock_order::lock_text;
use offline_audit::pair_texts;
use report_text::{end_status, status_of};
use run_record::{Finished, GuestEnd, NoMemory};
use std::alloc::Global;
use std::sync::Wait;
use std::thread::Threads;
use step_engine::run_plan;
use suppress_rules::{RuleFault, Rules};
use symbol_lines::Names;
use tool_ports::{FileFault, Files, Gate};

/// A run, and the pieces of what tells of it.
#[derive(Drop)]
pub struct Told {
    pub finished: Finished,
    pub texts: Vec<Vec<u8>>,
    /// The pieces alone are put, on the output.
    pub alone: bool,
    pub status: u8,
}

const FILE_LIMIT: usize = 25_165_824;

/// What the words ask for.
fn read_request<'a>(alloc: Global, words: &'a [String]) -> Result<Request<'a>, End>
    ensures told { let asked = request_of (map string_bytes words.entry.now) in
        MatchResult result (λ request. asked ≡ Ok (request_text request)) (IsUnasked asked) }
    ensures limits { IfOk result (λ request. AreLimits request.limits) }
    ensures task { IfOk result (λ request. IsTask (task_text request.task)) }
{
    match read_words(alloc, words) {
        Ok(request) => Ok(request),
        Err(Refusal::Usage(fault)) => Err(End::Usage(fault)),
        Err(Refusal::NoMemory) => Err(End::NoMemory),
    }
}

/// The run that the words ask for, if its threads go one at a time.
pub fn work<F: Files>(alloc: Global, words: &[String], files: &mut F) -> Result<Told, End>
    ensures same { F.contents files.new ≡ F.contents files.old }
    ensures run { let call = call_of words.now (F.contents files.old) (F.faults files.old) (F.faults files.new) (F.failed files.new) in
        MatchResult result (HasRun call) (Refuses call) }
{
    let request = read_request(alloc, words)?;
    match request.task {
        Task::Run { .. } => Err(End::Usage(UsageFault::Command)),
        Task::Step { .. } | Task::Search { .. } | Task::Generate { .. } => {
            serve(alloc, &request, files)
        }
    }
}

/// The run that the words ask for: of `run` its threads go at once.
pub fn whole_work<R: Threads + Wait + Sync, F: Files, G: Gate + Sync>(
    rt: &R,
    alloc: Global,
    words: &[String],
    files: &mut F,
    gate: &G,
) -> Result<Told, End>
    ensures same { F.contents files.new ≡ F.contents files.old }
    ensures run { let call = whole_call_of words.now (F.contents files.old) (F.faults files.old) (F.faults files.new) (F.failed files.new) in
        MatchResult result (HasRun call) (Refuses call) }
{
    let request = read_request(alloc, words)?;
    match request.task {
        Task::Run { file } => rounds(rt, alloc, &request, file, files, gate),
        Task::Step { .. } | Task::Search { .. } | Task::Generate { .. } => {
            serve(alloc, &request, files)
        }
    }
}

/// The run that is asked for, one thread at a time.
fn serve<F: Files>(alloc: Global, request: &Request<'_>, files: &mut F) -> Result<Told, End>
    requires limits { AreLimits request.now.limits }
    requires task { IsTask (task_text request.now.task) }
    requires mode { mode_of (task_text request.now.task) ≡ OneByOne }
    ensures same { F.contents files.new ≡ F.contents files.old }
    ensures run { let call = asking (request_text request.now) (F.contents files.old) (F.faults files.old) (F.faults files.new) (F.failed files.new) in
        MatchResult result (HasRun call) (Refuses call) }
{
    match request.task {
        Task::Run { .. } => unreachable!(),
        Task::Step { file } | Task::Search { file, .. } => step(alloc, request, file, files),
        Task::Generate { seed, size } => match generate(alloc, request, seed, size) {
            Ok(told) => Ok(told),
            Err(NoMemory) => Err(End::NoMemory),
        },
    }
}

/// Reads a file whole.
fn read<F: Files>(files: &mut F, name: &str) -> Result<Vec<u8>, End>
    ensures same { F.contents files.new ≡ F.contents files.old }
    ensures read { IsRead (F.contents files.old) name.now (F.faults files.old) (F.faults files.new) (F.failed files.old) (F.failed files.new) result }
{
    match files.read_all(name, FILE_LIMIT) {
        Ok(bytes) => Ok(bytes),
        Err(FileFault::Failed) => Err(End::ReadFault),
        Err(FileFault::TooLong) => Err(End::FileTooLong),
        Err(FileFault::NoMemory) => Err(End::NoMemory),
    }
}

/// Reads the rules of a file, if one is named.
fn read_rules<F: Files>(alloc: Global, files: &mut F, name: Option<&str>) -> Result<Rules, End>
    ensures same { F.contents files.new ≡ F.contents files.old }
    ensures read { AreRulesRead (F.contents files.old) (option_map (λ n. n.now) name.entry) (F.faults files.old) (F.faults files.new) (F.failed files.old) (F.failed files.new) result }
{
    let Some(name) = name else {
        return Ok(Rules::none(alloc));
    };
    let text = read(files, name)?;
    match Rules::read(alloc, text.as_slice()) {
        Ok(rules) => Ok(rules),
        Err(RuleFault::NoMemory) => Err(End::NoMemory),
        Err(fault) => Err(End::Rules(fault)),
    }
}

/// The executable that a file holds, if the loader accepts it.
fn accept<'a>(alloc: Global, bytes: &'a [u8]) -> Result<Image<'a>, End>
    ensures image { IfOk result (λ image. image ≡ bytes.now) }
    ensures accepted { OnOk result (image_of bytes.now ≡ Ok bytes.now) }
    ensures refused { IfErr result (IsUnaccepted bytes.now) }
{
    match load(alloc, bytes) {
        Ok(image) => Ok(image),
        Err(ElfFault::NoMemory) => Err(End::NoMemory),
        Err(fault) => Err(End::Elf(fault)),
    }
}

/// The run of the named file, one thread at a time.
fn step<F: Files>(
    alloc: Global,
    request: &Request<'_>,
    file: &str,
    files: &mut F,
) -> Result<Told, End>
    requires limits { AreLimits request.now.limits }
    requires names { named_executable (request_text request.now).task ≡ Some file.now }
    requires mode { mode_of (request_text request.now).task ≡ OneByOne }
    ensures same { F.contents files.new ≡ F.contents files.old }
    ensures run { let call = asking (request_text request.now) (F.contents files.old) (F.faults files.old) (F.faults files.new) (F.failed files.new) in
        MatchResult result (HasRun call) (Refuses call) }
{
    let bytes = read(files, file)?;
    let image = accept(alloc, bytes.as_slice())?;
    let rules = read_rules(alloc, files, request.suppressions)?;
    match told_image(alloc, &image, request, &rules) {
        Ok(told) => Ok(told),
        Err(NoMemory) => Err(End::NoMemory),
    }
}

/// The run of the named file, its threads at once.
fn rounds<R: Threads + Wait + Sync, F: Files, G: Gate + Sync>(
    rt: &R,
    alloc: Global,
    request: &Request<'_>,
    file: &str,
    files: &mut F,
    gate: &G,
) -> Result<Told, End>
    requires limits { AreLimits request.now.limits }
    requires names { named_executable (request_text request.now).task ≡ Some file.now }
    requires mode { mode_of (request_text request.now).task ≡ AtOnce }
    ensures same { F.contents files.new ≡ F.contents files.old }
    ensures run { let call = asking (request_text request.now) (F.contents files.old) (F.faults files.old) (F.faults files.new) (F.failed files.new) in
        MatchResult result (HasRun call) (Refuses call) }
{
    let bytes = read(files, file)?;
    let image = accept(alloc, bytes.as_slice())?;
    let rules = read_rules(alloc, files, request.suppressions)?;
    match rounds_image(rt, alloc, &image, request, &rules, gate) {
        Ok(told) => Ok(told),
        Err(NoMemory) => Err(End::NoMemory),
    }
}

/// The run of an executable as the request has it, by the names of its places.
fn run_named(
    alloc: Global,
    image: &Image<'_>,
    names: &Names<'_>,
    request: &Request<'_>,
    rules: &Rules,
) -> Result<Finished, NoMemory>
    requires limits { AreLimits request.now.limits }
    requires names { names.now ≡ tables_of image.now }
    ensures { let meets = suppressed_by rules.now image.now in
        IfOk result (IsRun OneByOne image.now request.now.limits request.now.plan meets) }
{
    let suppressions = NamedRules { rules, names };
    run_plan(alloc, image, &request.limits, &request.plan, &suppressions)
}

/// The same, its threads at once.
fn rounds_named<R: Threads + Wait + Sync, G: Gate + Sync>(
    rt: &R,
    alloc: Global,
    image: &Image<'_>,
    names: &Names<'_>,
    request: &Request<'_>,
    rules: &Rules,
    gate: &G,
) -> Result<Finished, NoMemory>
    requires limits { AreLimits request.now.limits }
    requires names { names.now ≡ tables_of image.now }
    ensures { let meets = suppressed_by rules.now image.now in
        IfOk result (IsRun AtOnce image.now request.now.limits request.now.plan meets) }
{
    let suppressions = NamedRules { rules, names };
    run_rounds(rt, alloc, image, &request.limits, gate, &suppressions)
}

/// A run with the texts of its reports.
fn tell_reports(alloc: Global, finished: Finished, names: &Names<'_>) -> Result<Told, NoMemory>
    ensures { IfOk result (AreReportsTold names.now finished) }
{
    let texts = report_texts(alloc, &finished, names)?;
    let status = status_of(&finished);
    Ok(Told {
        finished,
        texts,
        alone: false,
        status,
    })
}

/// The run of an executable, with its reports.
fn step_image(
    alloc: Global,
    image: &Image<'_>,
    request: &Request<'_>,
    rules: &Rules,
) -> Result<Told, NoMemory>
    requires limits { AreLimits request.now.limits }
    ensures { (file : List ℕ) → (request_text request.now).task ≡ asks_step file → IfOk result (IsTold (request_text request.now) image.now rules.now) }
{
    let names = Names::read(alloc, image)?;
    let finished = run_named(alloc, image, &names, request, rules)?;
    tell_reports(alloc, finished, &names)
}

/// The run of an executable whose threads go at once, with its reports.
fn rounds_image<R: Threads + Wait + Sync, G: Gate + Sync>(
    rt: &R,
    alloc: Global,
    image: &Image<'_>,
    request: &Request<'_>,
    rules: &Rules,
    gate: &G,
) -> Result<Told, NoMemory>
    requires limits { AreLimits request.now.limits }
    ensures { (file : List ℕ) → (request_text request.now).task ≡ asks_run file → IfOk result (IsTold (request_text request.now) image.now rules.now) }
{
    let names = Names::read(alloc, image)?;
    let finished = rounds_named(rt, alloc, image, &names, request, rules, gate)?;
    tell_reports(alloc, finished, &names)
}

/// The status of a search: 66 where something was found, and else that of the run's end.
fn found_status(count: usize, end: GuestEnd) -> u8
    ensures { result ≡ (if nat_lt 0 count then 66 else status.end_status end) }
{
    if count > 0 { 66 } else { end_status(end) }
}

/// How much was found, and the pieces of what tells of it.
#[derive(Drop)]
pub struct Found {
    pub count: usize,
    pub texts: Vec<Vec<u8>>,
}

/// Looks for that in a recorded run of an executable.
fn find(
    alloc: Global,
    search: Search,
    image: &Image<'_>,
    names: &Names<'_>,
    finished: &Finished,
) -> Result<Found, NoMemory>
    requires { names.now ≡ tables_of image.now }
    ensures { IfOk result (λ found. IsFound search image.now finished.now found.count (flat_map bytes_of found.texts.items)) }
{
    match search {
        Search::Locks => {
            let orders = lock_text(alloc, &finished.history)?;
            Ok(Found {
                count: orders.count,
                texts: orders.texts,
            })
        }
        Search::Pairs => {
            let pairs = pair_texts(alloc, image, &finished.history, names)?;
            Ok(Found {
                count: pairs.count,
                texts: pairs.texts,
            })
        }
    }
}

/// The run of an executable, with what was found in it.
fn search_image(
    alloc: Global,
    search: Search,
    image: &Image<'_>,
    request: &Request<'_>,
    rules: &Rules,
) -> Result<Told, NoMemory>
    requires limits { AreLimits request.now.limits }
    ensures { (file : List ℕ) → (request_text request.now).task ≡ asks_search search file → IfOk result (IsTold (request_text request.now) image.now rules.now) }
{
    let names = Names::read(alloc, image)?;
    let finished = run_named(alloc, image, &names, request, rules)?;
    let found = find(alloc, search, image, &names, &finished)?;
    let status = found_status(found.count, finished.last.end);
    Ok(Told {
        finished,
        texts: found.texts,
        alone: true,
        status,
    })
}

/// The run of an executable, with what its task wants told of it.
fn told_image(
    alloc: Global,
    image: &Image<'_>,
    request: &Request<'_>,
    rules: &Rules,
) -> Result<Told, NoMemory>
    requires limits { AreLimits request.now.limits }
    ensures reports { (file : List ℕ) → (request_text request.now).task ≡ asks_step file → IfOk result (IsTold (request_text request.now) image.now rules.now) }
    ensures found { (what : SearchFor) (file : List ℕ) → (request_text request.now).task ≡ asks_search what file → IfOk result (IsTold (request_text request.now) image.now rules.now) }
{
    match request.task {
        Task::Search { search, .. } => search_image(alloc, search, image, request, rules),
        Task::Run { .. } | Task::Step { .. } | Task::Generate { .. } => {
            step_image(alloc, image, request, rules)
        }
    }
}

/// The run of a made program, without rules.
fn generate(alloc: Global, request: &Request<'_>, seed: u32, size: u32) -> Result<Told, NoMemory>
    requires limits { AreLimits request.now.limits }
    requires few { size ≤ 10000 }
    ensures { (request_text request.now).task ≡ asks_generate seed size → IfOk result (λ told. IsTold (request_text request.now) (program seed size) [] told × (image_of (program seed size) ≡ Ok (program seed size))) }
{
    let bytes = make(alloc, seed, size)?;
    let Ok(image) = load(alloc, bytes.as_slice()) else {
        return Err(NoMemory);
    };
    let names = Names::read(alloc, &image)?;
    let rules = Rules::none(alloc);
    let finished = run_named(alloc, &image, &names, request, &rules)?;
    let texts = made_texts(alloc, seed, size, bytes.len(), &finished)?;
    let status = status_of(&finished);
    Ok(Told {
        finished,
        texts,
        alone: true,
        status,
    })
}
