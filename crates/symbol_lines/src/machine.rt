// The machine that a line number program runs on.
ghost use Rattle.std.specs.Prelude.{◌≡◌, ◌<◌, ◌≤◌, ◌+◌, IfOk, OnOk, Some, None, length, fold, if◌then◌else◌};
ghost use Rattle.std.specs.Option.{option_map};
ghost use Rattle.std.specs.List.Sorted.{IsNonDecreasingBy};
ghost use Rattle.symbol_lines.specs.Program.{operations_in};

use crate::program::{Entry, Operation, Rules};
use crate::rows::{Row, add_row};
use std::alloc::{AllocError, Global};

/// The rows of a sequence by rising address, without those that a later one hides.
#[derive(Drop)]
pub struct Sequence {
    /// The address of the first row.
    pub start: u64,
    /// The address of the end.
    pub end: u64,
    pub rows: Vec<Row>,
    /// The number of its unit.
    pub unit: usize,
    ghost rising: { IsNonDecreasingBy (λ r. r.address) rows.items },
}

/// The registers, the rows of the sequence so far, and what was finished before.
#[derive(Drop)]
pub struct Machine<'a> {
    pub address: u64,
    pub file: u64,
    pub line: u64,
    /// The address of the first row of the sequence so far.
    pub start: Option<u64>,
    pub rows: Vec<Row>,
    pub sequences: Vec<Sequence>,
    pub files: Vec<Entry<'a>>,
    /// The number of the unit.
    pub unit: usize,
    ghost rising: { IsNonDecreasingBy (λ r. r.address) rows.items },
}

impl<'a> Machine<'a> {
    ghost use Rattle.symbol_lines.specs.Kept.{advance, with_row, end_sequence, perform_kept};
    ghost use Rattle.symbol_lines.specs.MachineViews.{machine_view};
    ghost use Rattle.symbol_lines.specs.Views.{operation_view};

    fn advance(&mut self, by: u64, lines: u64)
        ensures { machine_view self.new ≡ advance by lines (machine_view self.old) }
    {
        self.address = self.address.wrapping_add(by);
        self.line = self.line.wrapping_add(lines);
    }

    fn add_row(&mut self) -> Result<(), AllocError>
        ensures { OnOk result (machine_view self.new ≡ with_row (machine_view self.old)) }
    {
        let row = Row {
            address: self.address,
            line: self.line,
            file: self.file,
        };
        add_row(&mut self.rows, row)?;
        if self.start.is_none() {
            self.start = Some(self.address);
        }
        Ok(())
    }

    fn end_sequence(&mut self, alloc: Global) -> Result<(), AllocError>
        ensures { OnOk result (machine_view self.new ≡ end_sequence (machine_view self.old)) }
    {
        let rows = Vec::from_slice(alloc, self.rows.as_slice())?;
        self.sequences.push(Sequence {
            start: self.start.unwrap_or(self.address),
            end: self.address,
            rows,
            unit: self.unit,
        })?;
        self.rows.clear();
        self.start = None;
        self.address = 0;
        self.file = 1;
        self.line = 1;
        Ok(())
    }

    /// What an operation does.
    pub fn perform(&mut self, alloc: Global, operation: Operation<'a>) -> Result<(), AllocError>
        ensures { OnOk result (machine_view self.new ≡ perform_kept (machine_view self.old) (operation_view operation.entry)) }
    {
        match operation {
            Operation::Advance(by, lines) => self.advance(by, lines),
            Operation::AddRow(by, lines) => {
                self.advance(by, lines);
                self.add_row()?;
            }
            Operation::SetAddress(address) => self.address = address,
            Operation::SetFile(file) => self.file = file,
            Operation::EndSequence => self.end_sequence(alloc)?,
            Operation::DefineFile(file) => self.files.push(file)?,
        }
        Ok(())
    }
}
