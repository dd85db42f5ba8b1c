//! A text for standard output.
ghost use Rattle.std.specs.Prelude.{◌≡◌, length};
ghost use Rattle.outputs.specs.Output.{TookInPieces};

use bean_base::List;
use fault_printer::FaultLines;
use outputs::{Output, write_bytes};
use std::marker::Model;
use table_printer::TableText;

/// What a text is kept as.
#[derive(Drop)]
enum Kept {
    Whole(List<u8>),
    Lines(FaultLines),
    Table(TableText),
}

/// A text for standard output. All that it says was found, and to write it takes no memory.
#[derive(Drop)]
pub struct Text {
    kept: Kept,
}

impl Model for Text {
    ghost use Rattle.std.specs.Prelude as prelude;
    ghost use Rattle.std.specs.Prelude.{ℕ};
    ghost use Rattle.bq.specs.Text.{bytes_of};

    ghost Value = { prelude.List ℕ };

    ghost view = { λ text. bytes_of text.kept };
}

impl Text {
    /// The text of these bytes.
    pub fn new(bytes: Vec<u8>) -> Text
        ensures { result ≡ bytes.items }
    {
        Text {
            kept: Kept::Whole(List::new(bytes)),
        }
    }

    /// The text of the lines of faults, which are made where it is written.
    pub fn of_lines(lines: FaultLines) -> Text
        ensures { result ≡ lines }
    {
        Text {
            kept: Kept::Lines(lines),
        }
    }

    /// The text of a table, which stands in pieces.
    pub fn of_table(table: TableText) -> Text
        ensures { result ≡ table }
    {
        Text {
            kept: Kept::Table(table),
        }
    }

    /// How many bytes it has.
    pub fn len(&self) -> usize
        ensures { result ≡ length self.now }
    {
        match &self.kept {
            Kept::Whole(bytes) => bytes.as_slice().len(),
            Kept::Lines(lines) => lines.len(),
            Kept::Table(table) => table.len(),
        }
    }

    /// Writes it until all is taken, or the output fails or takes nothing, and counts its bytes.
    pub fn write<O: Output>(&self, out: &mut O) -> usize
        ensures { TookInPieces O.Output out.old out.new self.now result }
    {
        match &self.kept {
            Kept::Whole(bytes) => write_bytes(out, bytes.as_slice()),
            Kept::Lines(lines) => lines.write(out),
            Kept::Table(table) => table.write(out),
        }
    }
}
