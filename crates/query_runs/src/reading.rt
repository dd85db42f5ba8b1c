//! Whether a program reads the running inventory.
ghost use Rattle.std.specs.Prelude.{◌≡◌};
ghost use Rattle.plain_machine.specs.Reading as spec;

use query_code::{Instruction, Parts, Push};
use query_terms::Column;

fn is_balance(column: Option<Column>) -> bool
    ensures { result ≡ spec.is_balance column }
{
    matches!(column, Some(Column::Balance))
}

/// Whether an instruction loads the running inventory.
fn loads_running(instruction: &Instruction) -> bool
    ensures { result ≡ spec.loads_running instruction.now }
{
    match instruction {
        Instruction::Push(Push::LoadColumn(number)) => is_balance(Column::numbered(*number)),
        _ => false,
    }
}

/// Whether a program reads the running inventory, which only its row section can.
pub fn reads_running(parts: &Parts<'_>) -> bool
    ensures { result ≡ spec.reads_running parts.now }
{
    parts
        .code
        .row
        .as_slice()
        .iter()
        .any(|instruction| loads_running(instruction))
}
