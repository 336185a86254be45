// A rule.
use run_record::Bytes;

/// Which frames of a report's stacks a rule looks at.
#[derive(Clone, Copy, Debug, PartialEq, Eq)]
pub enum Kind {
    /// `race`: each frame of both stacks.
    Race,
    /// `race_top`: the first frame of each stack.
    RaceTop,
    /// `thread`, `mutex`, `signal`, `deadlock` and `called_from_lib`: none, since they are about other reports than of races.
    NeverMet,
}

/// A rule: its kind, and the pattern of a function's name or of a file.
///
/// In a pattern `*` stands for any text, also none. `^` as the first byte binds the beginning of a name or file, `$` as the
/// last one binds the end; without them the pattern may match anywhere. All else stands for itself, byte by byte. No pattern
/// matches an empty name or file. The source is the format of ThreadSanitizer's suppressions.
#[derive(Drop)]
pub struct Rule {
    pub kind: Kind,
    pub pattern: Bytes,
}
