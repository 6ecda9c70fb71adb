#![tactic(auto)]
// A whole line into a lent buffer.
ghost use Rattle.std.specs.Prelude.{◌≡◌, ◌++◌, ◌*◌, ◌≤◌, ◌<◌, length, drop, ltb, leb};
ghost use Rattle.lists.specs.Join.{joined};
ghost use Rattle.units.specs.Units.{lines};
ghost use Rattle.shape.specs.Font.{lent_font, word_by};
ghost use Rattle.timing.specs.Fields.{hact_of, rows_of, visible_of};
ghost use Rattle.timing.specs.Laws.{Accepted};
ghost use Rattle.dots.specs.Half.{shown_of, fetched_for};
ghost use Rattle.video.specs.Lent.{Lent};
ghost use Rattle.line.specs.Line.{row_for, scan_for, line_length, draw_check, DrawsLine};
ghost use Rattle.line.specs.Walk.{last_of, walk_of, held_for, dots_for, column_for, shaped_over, Ready};

use refusal::Refusal;
use units::Unit;

// What is the same for all cells of a line: what its scan line takes from the font, and the width of a cell.
#[derive(Clone, Copy)]
pub struct Walk {
    pub line: shape::FontLine,
    pub width: units::Dots,
}

// Writes the d dots of one cell, from its number, to the front of out.
fn put(out: &mut [u8], w: Walk, looks: &[u8], words: &[u16], flags: &[u8], number: u16, d: usize)
    requires looks_len { (length looks.now ≡ 128) × (length words.now ≡ 1152) × (length flags.now ≡ 128) × (number < 65536) }
    requires d_value { (d ≡ w.width.0) × (6 ≤ d) × (d ≤ 12) × (d ≤ length out.old) }
    ensures { out.new
        ≡ dots_for w looks.now words.now flags.now number ++ drop w.width.0 out.old }
{
    let mark = (number / 512) as usize;
    let levels = looks[mark];
    let line = w.line;
    let sign = number % 512;
    let word = shape::word_by(words, flags, line, 256 <= sign, (sign % 256) as u8);
    dots::write_cell(out, levels % 4, levels / 4, word, d);
}

// Writes the dots of n cells, each into its own stretch.
fn cells(out: &mut [u8], w: Walk, row: &[u16], looks: &[u8], words: &[u16], flags: &[u8], n: usize)
    requires ready { Ready w row.now looks.now words.now flags.now n }
    requires width_in_bounds { n * w.width.0 ≤ length out.old }
    ensures { out.new
        ≡ joined 0 n (column_for w row.now looks.now words.now flags.now)
        ++ drop (n * w.width.0) out.old }
{
    let d = w.width.places();
    for (c, number) in row[..n].iter().enumerate() {
        put(&mut out[c * d..], w, looks, words, flags, *number, d);
    }
}

// Writes the dots of n columns: of a row of double width its cells first, and then each dot twice. A picture does it
// with cells from tables:
// one function for both would take the cells' drawing as a closure, with clauses over all that it lends, and be longer.
fn columns(
    out: &mut [u8],
    w: Walk,
    wide: bool,
    row: &[u16],
    looks: &[u8],
    words: &[u16],
    flags: &[u8],
    n: units::Clocks,
)
    requires ready { Ready w row.now looks.now words.now flags.now (fetched_for wide n.0) × (n.0 ≤ 256) }
    requires width_in_bounds { n.0 * w.width.0 ≤ length out.old }
    ensures { out.new
        ≡ joined 0 n.0 (shown_of wide (column_for w row.now looks.now words.now flags.now))
        ++ drop (n.0 * w.width.0) out.old }
{
    if wide {
        let mut halves = [0u8; 1536];
        let count = n.pairs_begun() as usize;
        cells(&mut halves, w, row, looks, words, flags, count);
        let length = units::dots_of(n, w.width).places();
        dots::double(out, &halves, length);
    } else {
        let count = n.cells() as usize;
        cells(out, w, row, looks, words, flags, count);
    }
}

fn walk_of(p: board::Page, line: shape::FontLine) -> Walk
    ensures { result ≡ walk_of p line }
{
    let width = p.video.dots;
    Walk { line, width }
}

// What is valid before a row, as far as it counts. A row whose first cell sets attributes needs no search.
fn held_for(p: board::Page, chars: &[u8], attrs: &[u8], row: u32, start: raster::Cell) -> u8
    requires { (length chars.now ≡ 16384) × (length attrs.now ≡ 16384) × (row < 8192) × (start.address < 16384) }
    ensures { result ≡ held_for p chars.now attrs.now row start.address }
{
    let first = attrs[start.address as usize];
    if first < 128 {
        return latch::held_before(p, chars, attrs, row);
    }
    0
}

// 7 for a line that is not visible, 8 for a buffer that is too short; of an accepted page the line's dots are few
// enough to count.
#[tactic(auto, unfolding(timing::specs::Fields::timing_of, timing::specs::Fields::counts_of))]
fn line_check(p: board::Page, line: units::Lines, room: usize) -> Result<(), Refusal>
    requires { Accepted p }
    ensures { result ≡ last_of (leb (visible_of p).0 line.0) (ltb room (hact_of p * p.video.dots.0)) }
{
    let t = timing::timing_of(p);
    if timing::visible_of(p) <= line {
        return Err(Refusal::Range);
    }
    if room < units::dots_of(t.counts.hact, p.video.dots).places() {
        return Err(Refusal::Room);
    }
    Ok(())
}

#[tactic(auto, unfolding(crate::specs::Line::draw_check))]
fn draw_check(
    b: board::Board,
    lent: Result<(), Refusal>,
    line: units::Lines,
    room: usize,
) -> Result<(), Refusal>
    ensures { result ≡ draw_check b lent line.0 room }
{
    timing::call_check(b, lent, false, false)?;
    line_check(b.page, line, room)
}

// The scan line that a visible line shows.
pub fn scan_for(b: board::Board, chars: &[u8], line: units::Lines) -> units::Lines
    requires { (length chars.now ≡ 16384) × (row_for b line.0 < rows_of b.page) }
    ensures { result ≡ lines (scan_for b chars.now line.0) }
{
    let page = b.page;
    let row = timing::row_of(page, line);
    let code = raster::Code::from(fetch::code_at(page, chars, row));
    video::scan_at(page, code, line)
}

// A line that nothing refuses, from its scan line and what that takes from the font.
pub fn whole_line(
    out: &mut [u8],
    b: board::Board,
    chars: &[u8],
    attrs: &[u8],
    words: &[u16],
    flags: &[u8],
    font: shape::FontLine,
    scan: units::Lines,
    line: units::Lines,
    field: u8,
)
    requires lent { Lent b chars.now attrs.now words.now flags.now }
    requires scan_value { (scan ≡ lines (scan_for b chars.now line.0)) × (row_for b line.0 < rows_of b.page) × (line_length b ≤ length out.old) }
    ensures { out.new
        ≡ shaped_over b chars.now attrs.now (word_by words.now flags.now font)
        line.0 field out.old }
{
    let page = b.page;
    let t = timing::timing_of(page);
    let row = timing::row_of(page, line);
    let code = raster::Code::from(fetch::code_at(page, chars, row));
    let w = walk_of(page, font);
    let start = fetch::row_start(page, chars, row);
    let held = held_for(page, chars, attrs, row, start);
    let n = fetch::fetched_of(page, chars, row);
    let mut row_cells = [0u16; 256];
    let mut looks = [0u8; 128];
    tables::gather(
        &mut row_cells,
        chars,
        attrs,
        video::reading_of(page),
        timing::buffer_of(page),
        start,
        held,
        n as usize,
    );
    tables::looks(&mut looks, video::scene_of(b, scan, field));
    let wide = code.is_wide();
    columns(
        out,
        w,
        wide,
        &row_cells,
        &looks,
        words,
        flags,
        t.counts.hact,
    );
}

// Draws a visible line as it looks in a field, HACT x dots bytes at the front of out.
pub fn draw_line(
    b: board::Board,
    chars: &[u8],
    attrs: &[u8],
    words: &[u16],
    flags: &[u8],
    unshifted: &[u8],
    shifted: &[u8],
    groups: &[u8],
    line: units::Lines,
    field: u8,
    out: &mut [u8],
) -> Result<(), Refusal>
    ensures { DrawsLine b chars.now attrs.now (lent_font words flags unshifted shifted groups)
        line.0 field out.old result out.new }
{
    let lent = video::lent_check(chars, attrs, words, flags, unshifted, shifted, groups);
    draw_check(b, lent, line, out.len())?;
    let scan = scan_for(b, chars, line);
    let font = shape::font_line(unshifted, shifted, groups, scan);
    whole_line(out, b, chars, attrs, words, flags, font, scan, line, field);
    Ok(())
}
