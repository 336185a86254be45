// From the text of a program to the bytes of an executable.
ghost use Rattle.std.specs.Prelude.{◌≤◌, IfOk};

use crate::AssemblyError;
use crate::elf_file::{Form, file};
use crate::encoding::{branch, high_part, jump, low_part};
use crate::instruction::{Piece, instruction};
use crate::mnemonics::{Mnemonic, Shape, mnemonic_of};
use std::alloc::Global;

/// Where the code begins.
pub const CODE: u32 = 0x10000;

/// How many words of code a program has at most.
const MOST_WORDS: usize = 0x4_0000;

/// A label, and how many words stand before it.
#[derive(Clone, Copy)]
pub struct Label<'a> {
    pub name: &'a str,
    pub words: usize,
}

/// Code whose labels aren't resolved yet.
#[derive(Drop)]
pub struct Code<'a> {
    pieces: Vec<Piece<'a>>,
    labels: Vec<Label<'a>>,
}

/// The address of the word of a number.
pub fn address(words: usize) -> Result<u32, AssemblyError>
    ensures { IfOk result (λ a. (0x10000 ≤ a) × (a ≤ 0x11_0000)) }
{
    if words > MOST_WORDS {
        return Err(AssemblyError::TooLong);
    }
    Ok(CODE + 4 * words as u32)
}

impl<'a> Code<'a> {
    pub fn push(&mut self, piece: Piece<'a>) -> Result<(), AssemblyError> {
        self.pieces.push(piece)?;
        Ok(())
    }

    fn label(&mut self, name: &'a str) -> Result<(), AssemblyError> {
        let words = self.pieces.len();
        self.labels.push(Label { name, words })?;
        Ok(())
    }

    /// A block, or `count*block`.
    fn repeated(&mut self, text: &'a str) -> Result<(), AssemblyError> {
        let Some((count, block)) = text.split_once('*') else {
            return self.block(text);
        };
        let Ok(count) = count.parse::<u16>() else {
            return Err(AssemblyError::BadNumber);
        };
        for _ in 0..count {
            self.block(block)?;
        }
        Ok(())
    }

    /// A word that begins an item. An instruction with operands is given back and waits for them.
    fn begin(&mut self, word: &'a str) -> Result<Option<Mnemonic>, AssemblyError> {
        if let Some(name) = word.strip_suffix(':') {
            self.label(name)?;
            return Ok(None);
        }
        match mnemonic_of(word) {
            Some(
                Mnemonic {
                    shape: Shape::Bare,
                    head,
                },
            ) => {
                self.push(Piece::Word(head))?;
                Ok(None)
            }
            Some(known) => Ok(Some(known)),
            None => {
                self.repeated(word)?;
                Ok(None)
            }
        }
    }

    /// The items up to a semicolon.
    fn items(&mut self, text: &'a str) -> Result<(), AssemblyError> {
        let mut waiting = None;
        for word in text.split_whitespace() {
            match waiting {
                Some(known) => {
                    self.push(instruction(known, word)?)?;
                    waiting = None;
                }
                None => waiting = self.begin(word)?,
            }
        }
        match waiting {
            Some(_) => Err(AssemblyError::BadOperands),
            None => Ok(()),
        }
    }

    /// The address of a label.
    fn find(&self, name: &str) -> Result<u32, AssemblyError> {
        for label in &self.labels {
            if label.name == name {
                return address(label.words);
            }
        }
        Err(AssemblyError::UnknownLabel)
    }

    /// The word of a piece at an address.
    fn resolve(&self, piece: Piece<'a>, at: u32) -> Result<u32, AssemblyError> {
        match piece {
            Piece::Word(word) => Ok(word),
            Piece::Branch(head, label) => branch(head, self.find(label)?.wrapping_sub(at)),
            Piece::Jump(head, label) => jump(head, self.find(label)?.wrapping_sub(at)),
            Piece::High(label) => Ok(high_part(10, self.find(label)?)),
            Piece::Low(label) => Ok(low_part(10, self.find(label)?)),
        }
    }

    fn words(&self, alloc: Global) -> Result<Vec<u32>, AssemblyError> {
        let mut words = Vec::new(alloc);
        for (index, piece) in self.pieces.iter().enumerate() {
            words.push(self.resolve(*piece, address(index)?)?)?;
        }
        Ok(words)
    }
}

/// The executable of a program in the notation of example programs.
///
/// Items are parted by blanks, line ends and semicolons. An item is a label `name:`; an instruction
/// of RV64IMA, as `addi x8,x0,3`, `bne x8,x0,name`, `jal x1,+4`, `ld x10,0(x10)` or `ecall`; or a
/// block, or `count*block` for many of one. The blocks are
///
/// - `E(call,offset,v1,v2,v3,v4)`: a call of the instrumentation with the address 0x1000000 + offset
///   and up to four more arguments, by its name without `__tsan_` and `mutex_`, in nine words;
/// - `N(label)`: creates a thread that begins at the label; `J(t)`: joins thread t;
/// - `Q`: puts the low byte of x10; `X(s)`: exits with status s; `T`: ends the thread;
/// - `L`: jumps to itself; `I`: the word 0, which is no instruction.
///
/// The program begins at the label `main`.
pub fn assemble(alloc: Global, text: &str, form: &Form<'_>) -> Result<Vec<u8>, AssemblyError> {
    let mut code = Code {
        pieces: Vec::new(alloc),
        labels: Vec::new(alloc),
    };
    for items in text.split(';') {
        code.items(items)?;
    }
    let words = code.words(alloc)?;
    let entry = code.find("main")?;
    file(alloc, &words, &code.labels, entry, form)
}

#[cfg(test)]
mod tests;
