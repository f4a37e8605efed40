// Tables: 05, and the entries behind it, 06 each.

ghost use Rattle.std.specs.Prelude.{◌≡◌, ◌*◌, ◌≤◌, ◌<◌};
ghost use Rattle.model.specs.Commands as commands;
ghost use Rattle.words.specs.Tables.{table_word};
ghost use Rattle.read_declarations.specs.Positions.{read_at, position_of};
ghost use Rattle.read_declarations.specs.Declarations.{sides_of, one_entry, TablesRoom, TablesAs};

use crate::commands::command_at;
use crate::variables::is_count;
use crate::{Listed, MOST_TABLES, Sides};
use laws::{byte_at, wide};
use read_forms::refusals::Refusal;

// A table's rows and columns.
fn sides(e: &[u8]) -> Result<Sides, Refusal>
    ensures { result ≡ sides_of (commands.sides e.now) }
{
    if e.len() < 2 {
        return Err(Refusal::EndsEarly);
    }
    let rows = e[0];
    let columns = e[1];
    if is_count(rows) && is_count(columns) {
        Ok(Sides { rows, columns })
    } else {
        Err(Refusal::OffLimits)
    }
}

// 06 and an entry: the position behind it.
fn entry(model: &[u8], at: usize) -> Result<usize, Refusal>
    ensures { result ≡ position_of (read_at one_entry at model.now) }
{
    let behind = command_at(model, at, 0x06)?;
    if 4 <= model.len() - behind {
        Ok(behind + 4)
    } else {
        Err(Refusal::EndsEarly)
    }
}

// So many entries: the position behind them.
fn entries(model: &[u8], start: usize, count: usize) -> Result<usize, Refusal>
    ensures { result ≡ position_of (read_at (commands.entries count) start model.now) }
{
    let mut at = start;
    for _ in 0..count {
        at = entry(model, at)?;
    }
    Ok(at)
}

// The word of a table whose entries begin at a position.
fn packed(at: usize, rows: u8, columns: u8) -> u64
    requires { (at < 131072) × (rows ≤ 64) × (columns ≤ 64) }
    ensures { result ≡ table_word at columns (rows * columns) }
{
    wide(columns) + 128 * (wide(rows) * wide(columns) + 8192 * (at as u64))
}

// The tables from a position on, with their sides as bytes and their words.
pub fn tables(
    model: &[u8],
    start: usize,
    rows: &mut [u8],
    columns: &mut [u8],
    words: &mut [u64],
) -> Result<Listed, Refusal>
    requires { TablesRoom model.now rows.old columns.old words.old }
    ensures { TablesAs model.now start rows.new columns.new words.new result }
{
    let mut at = start;
    let mut n: usize = 0;
    while byte_at(model, at) == 0x05 {
        let sides = sides(&model[at + 1..])?;
        if n == MOST_TABLES {
            return Err(Refusal::OffLimits);
        }
        let first = at + 3;
        let cells = (wide(sides.rows) * wide(sides.columns)) as usize;
        at = entries(model, first, cells)?;
        rows[n] = sides.rows;
        columns[n] = sides.columns;
        words[n] = packed(first, sides.rows, sides.columns);
        n += 1;
    }
    if at < model.len() {
        Ok(Listed { end: at, count: n })
    } else {
        Err(Refusal::EndsEarly)
    }
}
