// How a call of the tool ends.
use command_words::UsageFault;
use elf_image::ElfFault;
use run_record::Finished;
use suppress_rules::RuleFault;

/// How a call ends.
#[derive(Clone, Copy, Debug, PartialEq, Eq)]
pub enum End {
    /// The program ran, and all that tells of it is written.
    Done,
    /// The words are refused.
    Usage(UsageFault),
    /// The executable's first fault.
    Elf(ElfFault),
    /// The first fault of the file of rules.
    Rules(RuleFault),
    /// The executable or the file of rules has more than 25,165,824 bytes.
    FileTooLong,
    /// The executable or the file of rules couldn't be read: the files counted a fault in this call.
    ReadFault,
    /// A sink counted a fault in this call; what was put before it stays.
    WriteFault,
    /// Memory ran out. No contract says when.
    NoMemory,
}

/// What a call answers.
#[derive(Drop)]
pub struct Ended {
    /// The exit status: after `Done` 66 where there is a report, or of `audit` and `locks` where something
    /// was found, else 9 for a guest's fault, 8 for a spent budget, 1 for an exit with another status than
    /// 0, and else 0; otherwise 2 for `Usage`, 3 for `Elf` and `FileTooLong`, 4 for `Rules`, 5 for
    /// `ReadFault`, 6 for `WriteFault`, 7 for `NoMemory`.
    pub status: u8,
    pub end: End,
    /// The run, where the call is done.
    pub kept: Option<Finished>,
}
