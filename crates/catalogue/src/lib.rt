#![tactic(auto)]
// A typed sheet becomes a page with a row table, and back (02, R-5).
ghost use Rattle.std.specs.Prelude.{◌≡◌, ◌++◌, ◌+◌, ◌-◌, ◌*◌, ◌≤◌, ◌<◌, eqb, length, take, drop};
ghost use Rattle.lists.specs.Choice.{pick};
ghost use Rattle.lists.specs.Tab.{tab};
ghost use Rattle.lists.specs.Search.{first_below};
ghost use Rattle.raster.specs.Moves.{Bounded};
ghost use Rattle.timing.specs.Fields.{hact_of, buffer_of};
ghost use Rattle.timing.specs.Laws.{Accepted};
ghost use Rattle.board.specs.Parts.{with_page};
ghost use Rattle.catalogue.specs.ToTable.{table_size, as_table_page, own_check, as_table_order, MovesToTable};
ghost use Rattle.catalogue.specs.ToSheet.{rows_apart, as_sheet_page, as_sheet_order, as_sheet_check, as_sheet};
ghost use Rattle.catalogue.specs.Marks.{marked_by, free_in, sheet_place, entry_byte, sheet_check};

use refusal::Refusal;
use units::Unit;

// Marks the cells that are fetched from a cell on, n of them.
fn mark(marks: &mut [u8], buffer: raster::Buffer, start: raster::Cell, n: u32)
    requires { (length marks.old ≡ 16384) × Bounded buffer × (start.address < 16384) }
    ensures { marks.new ≡ marked_by buffer start.address marks.old n }
{
    let mut cell = start;
    for _ in 0..n {
        marks[cell.address as usize] = 1;
        cell = raster::advance_one(buffer, cell);
    }
}

// Where a stretch may begin at best, once a cell is looked at: where it begins so far, or after the cell.
fn begins_after(a: usize, x: usize, mark: u8) -> usize
    requires { x < 16384 }
    ensures { result ≡ pick (eqb mark 0) a (x + 1) }
{
    if mark == 0 { a } else { x + 1 }
}

// The lowest stretch of n cells without a mark, or 16385 - n for none.
fn lowest(marks: &[u8], n: usize) -> usize
    requires { (length marks.now ≡ 16384) × (1 ≤ n) × (n ≤ 16384) }
    ensures { result ≡ first_below (free_in marks.now n) (16385 - n) }
{
    let mut a = 0;
    for (x, mark) in marks.iter().enumerate() {
        if x == a + n {
            return a;
        }
        a = begins_after(a, x, *mark);
    }
    let end = a + n;
    if end <= 16384 {
        return a;
    }
    16385 - n
}

// The place of a sheet's table, or where there is none the count of places.
fn place_for(p: board::Page) -> usize
    requires { Accepted p }
    ensures { result ≡ sheet_place p }
{
    let t = timing::timing_of(p);
    let rows = t.counts.rows;
    let cells = t.counts.hact.times(rows).cells();
    let start = raster::Cell {
        address: p.starts.start1,
    };
    let mut marks = [0u8; 16384];
    mark(&mut marks, timing::buffer_of(p), start, cells);
    lowest(&marks, 2 * rows as usize)
}

// Writes where each row of a sheet starts, low byte first.
fn put_table(out: &mut [u8], buffer: raster::Buffer, start: raster::Cell, columns: u32, rows: usize)
    requires { (2 * rows ≤ length out.old) × (rows ≤ 128) × (columns ≤ 256) × Bounded buffer × (start.address < 16384) }
    ensures { out.new
        ≡ tab (2 * rows) (entry_byte buffer start.address columns) ++ drop (2 * rows) out.old }
{
    let mut cell = start;
    for r in 0..rows {
        let [low, high] = cell.address.to_le_bytes();
        out[2 * r] = low;
        out[2 * r + 1] = high;
        cell = raster::advance_by(buffer, columns, cell);
    }
}

// The page's own refusals.
fn own_check(b: board::Board, n: usize) -> Result<(), Refusal>
    ensures { result ≡ own_check b n }
{
    timing::call_check(b, refusal::wrong_size(n != 16384), false, false)
}

// 16, 19, 17 for an accepted page.
fn as_table_order(p: board::Page) -> Result<(), Refusal>
    requires { Accepted p }
    ensures { result ≡ as_table_order p (sheet_place p) }
{
    if timing::table_of(p) {
        return Err(Refusal::Kind);
    }
    if timing::coded_of(p) {
        return Err(Refusal::Coded);
    }
    let t = timing::timing_of(p);
    if place_for(p) == 16385 - 2 * t.counts.rows as usize {
        return Err(Refusal::Stretch);
    }
    Ok(())
}

#[tactic(auto, unfolding(crate::specs::Marks::sheet_check))]
fn as_table_check(b: board::Board, n: usize) -> Result<(), Refusal>
    ensures { result ≡ sheet_check b n }
{
    own_check(b, n)?;
    as_table_order(b.page)
}

// The page with a table at a place.
fn as_table_page(p: board::Page, place: u16) -> board::Page
    ensures { result ≡ as_table_page p place }
{
    let mut n = p;
    n.irs[2] = n.irs[2] % 128 + 128;
    n.starts.start2 = place;
    n
}

fn with_page(b: board::Board, p: board::Page) -> board::Board
    ensures { result ≡ with_page b p }
{
    let mut n = b;
    n.page = p;
    n
}

// Writes a sheet's table from a place on.
fn write_table(chars: &mut [u8], p: board::Page, place: usize)
    requires { Accepted p × (place + table_size p ≤ length chars.old) }
    ensures { chars.new ≡ take place chars.old
        ++ (tab (table_size p) (entry_byte (buffer_of p) p.starts.start1 (hact_of p))
        ++ drop (place + table_size p) chars.old) }
{
    let t = timing::timing_of(p);
    let start = raster::Cell {
        address: p.starts.start1,
    };
    let columns = t.counts.hact.cells();
    let rows = t.counts.rows as usize;
    put_table(
        &mut chars[place..],
        timing::buffer_of(p),
        start,
        columns,
        rows,
    );
}

// A sheet becomes a page with a row table, in the lowest stretch of cells that no row fetches: the board with that
// page.
pub fn to_table(b: board::Board, chars: &mut [u8]) -> Result<board::Board, Refusal>
    ensures { MovesToTable b chars.old result chars.new }
{
    as_table_check(b, chars.len())?;
    let page = b.page;
    let place = place_for(page);
    write_table(chars, page, place);
    Ok(with_page(b, as_table_page(page, place as u16)))
}

// Whether some row of the table is not where the one before it ended.
fn rows_apart(p: board::Page, chars: &[u8]) -> bool
    requires { Accepted p × (length chars.now ≡ 16384) }
    ensures { result ≡ rows_apart p chars.now }
{
    let t = timing::timing_of(p);
    let buffer = timing::buffer_of(p);
    let columns = t.counts.hact.cells();
    let n = t.counts.rows - 1;
    let mut apart = false;
    for r in 0..n {
        let end = raster::advance_by(buffer, columns, fetch::entry(p, chars, r));
        let next = fetch::entry(p, chars, r + 1);
        apart |= next.address != end.address;
    }
    apart
}

// 16, 19, 18 for an accepted page.
fn as_sheet_order(p: board::Page, chars: &[u8]) -> Result<(), Refusal>
    requires { Accepted p × (length chars.now ≡ 16384) }
    ensures { result ≡ as_sheet_order p chars.now }
{
    if !timing::table_of(p) {
        return Err(Refusal::Kind);
    }
    if timing::coded_of(p) {
        return Err(Refusal::Coded);
    }
    if rows_apart(p, chars) {
        return Err(Refusal::Apart);
    }
    Ok(())
}

#[tactic(auto, unfolding(crate::specs::ToSheet::as_sheet_check))]
fn as_sheet_check(b: board::Board, chars: &[u8]) -> Result<(), Refusal>
    ensures { result ≡ as_sheet_check b chars.now }
{
    own_check(b, chars.len())?;
    as_sheet_order(b.page, chars)
}

// The page without its table.
fn as_sheet_page(p: board::Page, chars: &[u8]) -> board::Page
    requires { length chars.now ≡ 16384 }
    ensures { result ≡ as_sheet_page p chars.now }
{
    let first = fetch::entry(p, chars, 0);
    let mut n = p;
    n.irs[2] = n.irs[2] % 128;
    n.starts.start1 = first.address;
    n
}

// A page whose rows follow one another becomes a sheet: the board with that page.
// One function with `to_table` would be no plainer: check, page and what is written all differ.
#[tactic(auto, unfolding(crate::specs::ToSheet::as_sheet))]
pub fn to_sheet(b: board::Board, chars: &[u8]) -> Result<board::Board, Refusal>
    ensures { result ≡ as_sheet b chars.now }
{
    as_sheet_check(b, chars)?;
    Ok(with_page(b, as_sheet_page(b.page, chars)))
}
