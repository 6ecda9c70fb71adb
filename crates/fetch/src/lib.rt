#![tactic(auto)]
// Which cell is fetched: row table, row start, the cell at a column, a row's run and its cells.
ghost use Rattle.std.specs.Prelude.{◌≡◌, ◌++◌, min, ◌<◌, ◌≤◌, ◌+◌, length, drop};
ghost use Rattle.lists.specs.Tab.{tab};
ghost use Rattle.raster.specs.Moves.{cell, Bounded};
ghost use Rattle.fetch.specs.Rows.{byte_at, entry_of, code_at, row_start, cell_at, fetched_of, moved_of, fetched_before};
ghost use Rattle.fetch.specs.Run.{row_check, run_check, run_count, one_run, GivesSpan, GivesRun};
ghost use Rattle.fetch.specs.RowCells.{cells_check, GivesCells};
ghost use Rattle.fetch.specs.RowLaws.{column_by};

use refusal::Refusal;
use units::Unit;

// A row's first run: from a cell on, so many.
#[derive(Clone, Copy)]
pub struct Span {
    pub start: usize,
    pub count: usize,
}

// The character byte at an address.
fn byte_at(chars: &[u8], address: u32) -> u8
    requires { length chars.now ≡ 16384 }
    ensures { result ≡ byte_at chars.now address }
{
    chars[(address % 16384) as usize]
}

// The row table's entry of a row.
pub fn entry(p: board::Page, chars: &[u8], row: u32) -> raster::Cell
    requires { (length chars.now ≡ 16384) × (row < 8192) }
    ensures { result ≡ cell (entry_of p chars.now row) }
{
    let start = p.starts.start2 as u32 + 2 * row;
    let low = byte_at(chars, start);
    let high = byte_at(chars, start + 1);
    raster::Cell {
        address: u16::from_le_bytes([low, high % 64]),
    }
}

// A row's code, 0 while no row has one.
pub fn code_at(p: board::Page, chars: &[u8], row: u32) -> u8
    requires { (length chars.now ≡ 16384) × (row < 8192) }
    ensures { result ≡ code_at p chars.now row }
{
    if timing::coded_of(p) {
        return byte_at(chars, p.starts.start2 as u32 + 2 * row + 1) / 64 % 4;
    }
    0
}

// How many cells a row fetches.
pub fn fetched_of(p: board::Page, chars: &[u8], row: u32) -> u32
    requires { (length chars.now ≡ 16384) × (row < 8192) }
    ensures { result ≡ fetched_of p chars.now row }
{
    let t = timing::timing_of(p);
    let hact = t.counts.hact;
    let code = raster::Code::from(code_at(p, chars, row));
    if code.is_wide() {
        return hact.pairs_begun();
    }
    hact.cells()
}

// How many of them it has moved on from by a column.
fn moved_of(p: board::Page, chars: &[u8], row: u32, column: units::Clocks) -> u32
    requires { (length chars.now ≡ 16384) × (row < 8192) }
    ensures { result ≡ moved_of p chars.now row column.0 }
{
    let t = timing::timing_of(p);
    if column < t.counts.hact {
        let code = raster::Code::from(code_at(p, chars, row));
        if code.is_wide() {
            return column.pairs();
        }
        return column.cells();
    }
    fetched_of(p, chars, row)
}

// How many it has fetched before a column.
pub fn fetched_before(p: board::Page, chars: &[u8], row: u32, column: units::Clocks) -> u32
    requires { (length chars.now ≡ 16384) × (row < 8192) }
    ensures { result ≡ fetched_before p chars.now row column.0 }
{
    let t = timing::timing_of(p);
    let n = column.min(t.counts.hact);
    let code = raster::Code::from(code_at(p, chars, row));
    if code.is_wide() {
        return n.pairs_begun();
    }
    n.cells()
}

// A row's start.
pub fn row_start(p: board::Page, chars: &[u8], row: u32) -> raster::Cell
    requires { (length chars.now ≡ 16384) × (row < 8192) }
    ensures { result ≡ cell (row_start p chars.now row) }
{
    if timing::table_of(p) {
        return entry(p, chars, row);
    }
    let t = timing::timing_of(p);
    let before = t.counts.hact.times(row);
    let start = raster::Cell {
        address: p.starts.start1,
    };
    raster::advance_by(timing::buffer_of(p), before.cells(), start)
}

// The cell at a column of a row, at once.
pub fn cell_at(p: board::Page, chars: &[u8], row: u32, column: units::Clocks) -> raster::Cell
    requires { (length chars.now ≡ 16384) × (row < 8192) }
    ensures { result ≡ cell (cell_at p chars.now row column.0) }
{
    let moves = moved_of(p, chars, row, column);
    let start = row_start(p, chars, row);
    raster::advance_by(timing::buffer_of(p), moves, start)
}

// How many of a row's cells stand side by side from its start on.
fn run_count(p: board::Page, cells: u32, start: u16) -> u32
    requires { start < 16384 }
    ensures { result ≡ run_count p cells start }
{
    let b = timing::buffer_of(p);
    let at = start as u32;
    let to_last = (b.last as u32 + 16384 - at % 16384) % 16384;
    cells.min(to_last + 1).min(16384 - at)
}

// Whether n cells from a cell on are one run: neither the last buffer address nor 16383 comes before the last of them.
pub fn one_run(b: raster::Buffer, start: raster::Cell, n: usize) -> bool
    ensures { result ≡ one_run b start.address n }
{
    let at = start.address as usize;
    let to_last = (b.last as usize + 16384 - at % 16384) % 16384;
    (at < 16384) & (n <= to_last + 1) & (n <= 16384 - at % 16384)
}

// What a call for a row is refused by; whether a lent part has a wrong size is the call's to say.
fn row_check(b: board::Board, size: bool, row: u32) -> Result<(), Refusal>
    ensures { result ≡ row_check b size row }
{
    let page = b.page;
    let t = timing::timing_of(page);
    timing::call_check(b, refusal::wrong_size(size), t.counts.rows <= row, false)
}

fn run_check(b: board::Board, n: usize, row: u32) -> Result<(), Refusal>
    ensures { result ≡ run_check b n row }
{
    row_check(b, n != 16384, row)
}

#[tactic(auto, unfolding(crate::specs::Run::span_of))]
pub fn span_of(b: board::Board, chars: &[u8], row: u32) -> Result<Span, Refusal>
    ensures { GivesSpan b chars.now row result }
{
    run_check(b, chars.len(), row)?;
    let cells = fetched_of(b.page, chars, row);
    let start = row_start(b.page, chars, row);
    Ok(Span {
        start: start.address as usize,
        count: run_count(b.page, cells, start.address) as usize,
    })
}

// A row's first run of cells, as that part of the caller's character memory: its cells, and where it stands.
// It is empty on a refusal, whose number is set beside it: 01 asks for a returned part of that form, and `span_of` is
// the one that answers a `Result`.
#[tactic(auto, unfolding(crate::specs::Run::span_of, crate::specs::Run::run_of))]
pub fn row_run<'a>(b: board::Board, chars: &'a [u8], row: u32, refusal: &mut u32) -> &'a [u8]
    ensures { GivesRun b chars.now row chars.entry.ref_ptr.0 chars.entry.ref_ptr.1
        result.now result.ref_ptr.0 result.ref_ptr.1 refusal.new }
{
    match span_of(b, chars, row) {
        Ok(span) => {
            *refusal = 0;
            &chars[span.start..span.start + span.count]
        }
        Err(why) => {
            *refusal = refusal::number(Err(why));
            &chars[0..0]
        }
    }
}

fn cells_check(b: board::Board, n: usize, row: u32, room: usize) -> Result<(), Refusal>
    ensures { result ≡ cells_check b n row room }
{
    row_check(b, (n != 16384) | (room < 256), row)
}

// Puts the addresses of n cells at the front of cells, from a row's start on.
fn put_cells(cells: &mut [u16], buffer: raster::Buffer, start: raster::Cell, n: usize)
    requires { Bounded buffer × (start.address < 16384) × (n ≤ length cells.old) }
    ensures { cells.new ≡ tab n (column_by buffer start.address) ++ drop n cells.old }
{
    let mut cell = start;
    for place in cells[..n].iter_mut() {
        *place = cell.address;
        cell = raster::advance_one(buffer, cell);
    }
}

// The addresses of all cells that a row fetches, one after the other, at the front of cells; and how many they are.
#[tactic(auto, unfolding(crate::specs::RowCells::cells_given, crate::specs::RowCells::cells_put))]
pub fn row_cells(
    b: board::Board,
    chars: &[u8],
    row: u32,
    cells: &mut [u16],
) -> Result<usize, Refusal>
    ensures { GivesCells b chars.now row cells.old result cells.new }
{
    cells_check(b, chars.len(), row, cells.len())?;
    let count = fetched_of(b.page, chars, row) as usize;
    let start = row_start(b.page, chars, row);
    put_cells(cells, timing::buffer_of(b.page), start, count);
    Ok(count)
}
