// The blocks of the notation, each some words of code.
use crate::AssemblyError;
use crate::assembler::Code;
use crate::calls::call_number;
use crate::encoding::{ADDI, ECALL, LOOP, LUI, NEXT, immediate, upper};
use crate::instruction::Piece;
use crate::numbers::number;

/// The word that gives a register a small number.
fn set(register: u32, value: u32) -> Result<u32, AssemblyError> {
    immediate(ADDI, register, 0, value)
}

impl<'a> Code<'a> {
    fn word(&mut self, word: u32) -> Result<(), AssemblyError> {
        self.push(Piece::Word(word))
    }

    /// The call of the service of a number.
    fn service(&mut self, number: u32) -> Result<(), AssemblyError> {
        self.word(set(17, number)?)?;
        self.word(ECALL)
    }

    /// A service with a number in x10.
    fn service_with(&mut self, argument: &str, service: u32) -> Result<(), AssemblyError> {
        self.word(set(10, number(argument)?)?)?;
        self.service(service)
    }

    /// `E(name,offset,v1,v2,v3,v4)`: a call of the instrumentation on an address of the data.
    fn entry_call(&mut self, arguments: &str) -> Result<(), AssemblyError> {
        let (name, values) = arguments.split_once(',').ok_or(AssemblyError::BadOperands)?;
        let called = call_number(name).ok_or(AssemblyError::UnknownCall)?;
        let mut given = [0u32; 5];
        for (place, value) in values.split(',').enumerate() {
            if place >= 5 {
                return Err(AssemblyError::BadOperands);
            }
            given[place] = number(value)?;
        }
        self.word(upper(LUI, 10, 0x1000)?)?;
        self.word(immediate(ADDI, 10, 10, given[0])?)?;
        self.values(&given)?;
        self.word(NEXT)?;
        self.service(called)
    }

    /// The further arguments of a call, from x11 on.
    fn values(&mut self, given: &[u32; 5]) -> Result<(), AssemblyError> {
        for place in 1..5 {
            self.word(set(place as u32 + 10, given[place])?)?;
        }
        Ok(())
    }

    /// `N(label)`: a new thread that begins at a label.
    fn new_thread(&mut self, label: &'a str) -> Result<(), AssemblyError> {
        self.push(Piece::High(label))?;
        self.push(Piece::Low(label))?;
        self.service(3)
    }

    /// Puts the low byte of x10.
    fn put_byte(&mut self) -> Result<(), AssemblyError> {
        self.word(set(11, 1)?)?;
        self.service(1)
    }

    /// A block with arguments, as they stand between its brackets.
    fn block_with(&mut self, name: &str, arguments: &'a str) -> Result<(), AssemblyError> {
        match name {
            "E" => self.entry_call(arguments),
            "N" => self.new_thread(arguments),
            "J" => self.service_with(arguments, 5),
            "X" => self.service_with(arguments, 2),
            _ => Err(AssemblyError::UnknownWord),
        }
    }

    /// A block, which has no blank in it.
    pub fn block(&mut self, text: &'a str) -> Result<(), AssemblyError> {
        match text {
            "Q" => self.put_byte(),
            "T" => self.service(4),
            "L" => self.word(LOOP),
            "I" => self.word(0),
            _ => {
                let (name, rest) = text.split_once('(').ok_or(AssemblyError::UnknownWord)?;
                let arguments = rest.strip_suffix(')').ok_or(AssemblyError::BadOperands)?;
                self.block_with(name, arguments)
            }
        }
    }
}
