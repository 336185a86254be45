// The command of `clap` that reads the words of the command line.
ghost use Rattle.std.specs.Prelude.{◌≡◌, true, IfOk, IfErr, fold, map, string_bytes};
ghost use Rattle.std.specs.Option.{option_map};
ghost use Rattle.clap.specs.Words.{app_of};
ghost use Rattle.command_words.specs.Command.{bare_app, rows_read, tool_app, is_taken};
ghost use Rattle.command_words.specs.Command as grammar;
ghost use Rattle.command_words.specs.Numbers.{given};
ghost use Rattle.command_words.specs.Parts.{IsRefusal};

use crate::{Refusal, UsageFault};
use clap::error::ErrorKind;
use clap::{Arg, ArgMatches, Command};
use std::alloc::{AllocError, Global};

static OPTIONS: [&str; 11] = [
    "harts",
    "slots",
    "epochs",
    "steps",
    "quantum",
    "parts",
    "part-words",
    "plan",
    "suppressions",
    "seed",
    "size",
];

/// The command with one more option, which takes a text.
fn with_option<'a>(
    alloc: Global,
    command: Command<'a>,
    name: &'a str,
) -> Result<Command<'a>, AllocError>
    ensures { IfOk result (λ c. app_of c ≡ grammar.with_option (app_of command.entry) name.entry.now) }
{
    let option = Arg::new(alloc, name).long(name);
    command.arg(option)
}

/// The command with these options more.
fn with_options<'a>(
    alloc: Global,
    command: Command<'a>,
    names: &[&'a str],
) -> Result<Command<'a>, AllocError>
    ensures { IfOk result (λ c. app_of c ≡ fold grammar.with_option (app_of command.entry) (map (λ s. s.now) names.now)) }
{
    let mut command = command;
    for name in names {
        command = with_option(alloc, command, name)?;
    }
    Ok(command)
}

/// A command without arguments, whose words have no program's name before them.
fn bare_command<'a>(alloc: Global) -> Command<'a>
    ensures { app_of result ≡ bare_app }
{
    Command::new(alloc, "tsanrun").no_binary_name(true)
}

/// The command that is read: a word for the command, perhaps one for a file, and the options.
fn tool_command<'a>(alloc: Global) -> Result<Command<'a>, AllocError>
    ensures { IfOk result (λ c. app_of c ≡ tool_app) }
{
    let command = Arg::new(alloc, "command").required(true);
    let file = Arg::new(alloc, "file");
    let tool = bare_command(alloc).arg(command)?.arg(file)?;
    with_options(alloc, tool, OPTIONS.as_slice())
}

/// What `clap` reads in the words, where it takes them.
pub fn parse<'a>(alloc: Global, words: &'a [String]) -> Result<ArgMatches<'a>, Refusal>
    ensures ok { IfOk result (λ m. (is_taken (map string_bytes words.entry.now) ≡ true)
        × (rows_read m ≡ grammar.matches (map string_bytes words.entry.now))) }
    ensures err { IfErr result (IsRefusal UsageFault.Words (is_taken (map string_bytes words.entry.now))) }
{
    let command = tool_command(alloc)?;
    match command.try_get_matches_from(words) {
        Ok(matches) => Ok(matches),
        Err(error) => match error.kind() {
            ErrorKind::OutOfMemory => Err(Refusal::NoMemory),
            _ => Err(Refusal::Usage(UsageFault::Words)),
        },
    }
}

/// The text that the words give for an argument.
pub fn text_given<'a>(matches: &ArgMatches<'a>, name: &str) -> Option<&'a str>
    ensures { option_map (λ text. text.now) result ≡ given (rows_read matches.now) name.now }
{
    matches.get_str(name)
}
