//! Whether programs read the accounts of transactions.
ghost use Rattle.std.specs.Prelude.{◌≡◌};
ghost use Rattle.std.specs.List.{list_any};
ghost use Rattle.plain_machine.specs.Unread as spec;
ghost use Rattle.query_terms.specs.Column.{numbered_in};

use limits::Version;
use query_code::{Instruction, Program, Push};
use query_terms::Column;

/// The column that has the number in a schema.
fn column_of(schema: Version, number: u8) -> Option<Column>
    ensures { result ≡ numbered_in schema number }
{
    match Column::numbered(number) {
        Some(column) if column.is_in(schema) => Some(column),
        _ => None,
    }
}

fn is_accounts(column: Option<Column>) -> bool
    ensures { result ≡ spec.is_accounts column }
{
    matches!(column, Some(Column::Accounts))
}

/// Whether an instruction does.
fn loads(schema: Version, instruction: &Instruction) -> bool
    ensures { result ≡ spec.loads_accounts schema instruction.now }
{
    match instruction {
        Instruction::Push(Push::LoadColumn(number)) => is_accounts(column_of(schema, *number)),
        _ => false,
    }
}

/// Whether some instruction loads them, by the column's number in the schema.
fn loads_accounts(schema: Version, code: &[Instruction]) -> bool
    ensures { result ≡ list_any (spec.loads_accounts schema) code.now }
{
    code.iter().any(|instruction| loads(schema, instruction))
}

/// Whether a program reads the accounts of transactions: whether its filter or its row section loads
/// their column. The program need not be verified.
pub fn reads_accounts(program: &Program<'_>) -> bool
    ensures { result ≡ spec.reads_accounts program.now.parts }
{
    let schema = program.version();
    let code = &program.parts.code;
    loads_accounts(schema, code.filter.as_slice()) || loads_accounts(schema, code.row.as_slice())
}
