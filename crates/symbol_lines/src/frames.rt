// What code places are called.
ghost use Rattle.std.specs.Prelude.{◌≡◌, ◌==◌, [], ℕ, length};
ghost use Rattle.symbol_lines.specs.FileTexts.{text_of};

/// The text of a file, in parts of the executable: it is the name alone, or the directory, '/' and the name. Contracts see
/// the text as `text_of`.
#[derive(Clone, Copy)]
pub struct FileText<'a> {
    pub directory: Option<&'a str>,
    pub name: &'a str,
}

impl<'a> FileText<'a> {
    /// A name alone.
    pub fn of_name(name: &'a str) -> FileText<'a>
        ensures { text_of result ≡ name.now }
    {
        FileText {
            directory: None,
            name,
        }
    }

    /// The text has no bytes.
    pub fn is_empty(&self) -> bool
        ensures { result ≡ (length (text_of self.now) == 0) }
    {
        self.directory.is_none() && self.name.is_empty()
    }
}

/// The function, the file and the line of a place: empty texts and 0 where they are not known.
#[derive(Clone, Copy)]
pub struct Frame<'a> {
    pub name: &'a str,
    pub file: FileText<'a>,
    pub line: u64,
}

/// Names of code places.
pub trait Frames {
    ghost use Rattle.symbol_lines.specs.FrameTexts.{FrameText};

    ghost frame_of: { Self → ℕ → FrameText };

    /// What is known of a place. It takes no memory, and looks at no text.
    fn frame(&self, place: u64) -> Frame<'_>
        ensures name { result.name.now ≡ (frame_of self.now place).name }
        ensures file { text_of result.file ≡ (frame_of self.now place).file }
        ensures line { result.line ≡ (frame_of self.now place).line };
}

/// Knows no place.
#[derive(Clone, Copy)]
pub struct Unnamed;

impl Frames for Unnamed {
    ghost frame_of = { λ _ _. record { name = []; file = []; line = 0 } };

    fn frame(&self, _place: u64) -> Frame<'_> {
        Frame {
            name: "",
            file: FileText::of_name(""),
            line: 0,
        }
    }
}
