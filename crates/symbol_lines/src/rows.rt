// Rows of line tables.
ghost use Rattle.std.specs.Prelude.{◌≡◌, OnOk, OnErr};
ghost use Rattle.symbol_lines.specs.Kept.{add_kept, IsRising};
ghost use Rattle.symbol_lines.specs.Lines.{row_at};

use std::alloc::AllocError;

/// A row: from its address on, code comes from this line of the file of this number.
#[derive(Clone, Copy)]
pub struct Row {
    pub address: u64,
    pub line: u64,
    pub file: u64,
}

/// Adds a row and takes away those that it hides: no place has them any more.
pub fn add_row(rows: &mut Vec<Row>, row: Row) -> Result<(), AllocError>
    requires { IsRising rows.old.items }
    ensures rows { OnOk result (rows.new.items ≡ add_kept rows.old.items row) }
    ensures rising { OnOk result (IsRising rows.new.items) }
    ensures err { OnErr result (IsRising rows.new.items) }
{
    let count = rows
        .as_slice()
        .partition_point(|kept| kept.address < row.address);
    rows.truncate(count);
    rows.push(row)?;
    Ok(())
}

/// The last row at or below a place.
pub fn find_row(rows: &[Row], place: u64) -> Option<Row>
    requires { IsRising rows.now }
    ensures { result ≡ row_at rows.now place }
{
    let count = rows.partition_point(|row| row.address <= place);
    if count == 0 {
        None
    } else {
        Some(rows[count - 1])
    }
}
