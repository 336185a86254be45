// The line of a refusal.
ghost use Rattle.std.specs.Prelude.{◌≡◌, ◌⊎◌, IfOk, IsOk, false};
ghost use Rattle.tsanrun_cli.specs.Texts as texts;
ghost use Rattle.tsanrun_cli.specs.Texts.{refusal_line, is_rules};
ghost use Rattle.tsanrun_cli.specs.Ends as ends;
ghost use Rattle.tsanrun_cli.specs.Ends.{refusal_status};
ghost use Rattle.tsanrun_cli.specs.Lines.{line_bytes};

use crate::End;
use command_words::UsageFault;
use elf_image::ElfFault;
use run_record::NoMemory;
use std::alloc::Global;
use std::io::ErrorKind;
use suppress_rules::RuleFault;

pub fn status_of(end: End) -> u8
    ensures { result ≡ refusal_status end }
{
    match end {
        End::Done => 0,
        End::Usage(_) => 2,
        End::Elf(_) | End::FileTooLong => 3,
        End::Rules(_) => 4,
        End::ReadFault => 5,
        End::WriteFault => 6,
        End::NoMemory => 7,
    }
}

/// How a call ends whose words can't be read.
pub fn unread_words_end(kind: ErrorKind) -> End
    ensures { result ≡ ends.unread_words_end kind }
{
    match kind {
        ErrorKind::OutOfMemory => End::NoMemory,
        _ => End::Usage(UsageFault::Words),
    }
}

fn executable_line(fault: ElfFault) -> &'static str
    ensures { result.now ≡ texts.executable_line fault }
{
    match fault {
        ElfFault::NotElf => "tsanrun: executable fault 1: NotElf\n",
        ElfFault::NotLittle64 => "tsanrun: executable fault 2: NotLittle64\n",
        ElfFault::NotExecutable => "tsanrun: executable fault 3: NotExecutable\n",
        ElfFault::NotRiscv => "tsanrun: executable fault 4: NotRiscv\n",
        ElfFault::Compressed => "tsanrun: executable fault 5: Compressed\n",
        ElfFault::BadTable => "tsanrun: executable fault 6: BadTable\n",
        ElfFault::NoSegments => "tsanrun: executable fault 7: NoSegments\n",
        ElfFault::SegmentOutside => "tsanrun: executable fault 8: SegmentOutside\n",
        ElfFault::SegmentSizes => "tsanrun: executable fault 9: SegmentSizes\n",
        ElfFault::Overlap => "tsanrun: executable fault 10: Overlap\n",
        ElfFault::TooMuchMemory => "tsanrun: executable fault 11: TooMuchMemory\n",
        ElfFault::EntryOutside => "tsanrun: executable fault 12: EntryOutside\n",
        ElfFault::NoMemory => "tsanrun: out of memory\n",
    }
}

/// A line of text: a fixed one, or one that is made.
#[derive(Drop)]
pub enum Line {
    Fixed(&'static str),
    Made(String),
}

impl Line {
    ghost use Rattle.tsanrun_cli.specs.Lines.{line_bytes};

    pub fn as_str(&self) -> &str
        ensures { result.now ≡ line_bytes self.now }
    {
        match self {
            Line::Fixed(text) => text,
            Line::Made(text) => text.as_str(),
        }
    }
}

fn rules_line(alloc: Global, fault: RuleFault) -> Result<Line, NoMemory>
    ensures { IfOk result (λ line. line_bytes line ≡ texts.rules_line fault) }
{
    let line = match fault {
        RuleFault::NoColon(line) => format!(in alloc; "tsanrun: rules fault 1 in line {line}\n")?,
        RuleFault::UnknownType(line) => {
            format!(in alloc; "tsanrun: rules fault 2 in line {line}\n")?
        }
        RuleFault::NotUtf8 => return Ok(Line::Fixed("tsanrun: rules fault 3 in line 0\n")),
        RuleFault::NoMemory => return Ok(Line::Fixed("tsanrun: out of memory\n")),
    };
    Ok(Line::Made(line))
}

fn fixed_line(end: End) -> &'static str
    ensures { is_rules end ≡ false → result.now ≡ refusal_line end }
{
    match end {
        End::Done | End::WriteFault | End::Rules(_) => "",
        End::Usage(_) => { "usage: tsanrun run|step FILE [options] or tsanrun gen [options]\n" }
        End::Elf(fault) => executable_line(fault),
        End::FileTooLong => "tsanrun: file too long\n",
        End::ReadFault => "tsanrun: read failed\n",
        End::NoMemory => "tsanrun: out of memory\n",
    }
}

fn line_of(alloc: Global, end: End) -> Result<Line, NoMemory>
    ensures line { IfOk result (λ line. line_bytes line ≡ refusal_line end) }
    ensures fixed { is_rules end ≡ false → IsOk result }
{
    match end {
        End::Rules(fault) => rules_line(alloc, fault),
        _ => Ok(Line::Fixed(fixed_line(end))),
    }
}

/// How a refused call ends, and the line that tells of it.
#[derive(Drop)]
pub struct Refused {
    pub end: End,
    pub line: Line,
}

/// The end with its line. Only the line of a fault of the rules takes memory; where there is none left, that is the end.
pub fn told_refusal(alloc: Global, end: End) -> Refused
    ensures end { (result.end ≡ end) ⊎ (result.end ≡ End.NoMemory) }
    ensures fixed { is_rules end ≡ false → result.end ≡ end }
    ensures line { line_bytes result.line ≡ refusal_line result.end }
{
    match line_of(alloc, end) {
        Ok(line) => Refused { end, line },
        Err(NoMemory) => Refused {
            end: End::NoMemory,
            line: Line::Fixed("tsanrun: out of memory\n"),
        },
    }
}
