#![tactic(auto)]
// A whole picture into a lent buffer: tables once a picture, cells once a row, then dots only.
ghost use Rattle.std.specs.Prelude.{◌≡◌, ◌++◌, false, ◌*◌, ◌≤◌, ◌<◌, ltb, length, drop};
ghost use Rattle.lists.specs.Join.{joined};
ghost use Rattle.shape.specs.Font.{lent_font};
ghost use Rattle.timing.specs.Laws.{Accepted};
ghost use Rattle.raster.specs.Wide.{is_wide};
ghost use Rattle.video.specs.Lent.{Lent};
ghost use Rattle.dots.specs.Stores.{reach_of};
ghost use Rattle.dots.specs.Half.{shown_of, fetched_for};
ghost use Rattle.tables.specs.Tables.{held_by};
ghost use Rattle.line.specs.Walk.{last_of};
ghost use Rattle.picture.specs.Picture.{picture_check, picture_length, DrawsPicture};
ghost use Rattle.picture.specs.Plan.{plan_of, cell_dots_of, cell_from, line_from, row_from, row_drawn, TablesFit};
ghost use Rattle.picture.specs.Agree.{shaped_over};

use refusal::Refusal;
use units::Unit;

// What is the same for all rows: columns, dots a cell, lines a row, its scan lines, rows, the bytes of a line and of
// a row, the buffer, how cells are read.
#[derive(Clone, Copy)]
pub struct Plan {
    pub columns: units::Clocks,
    pub dots: units::Dots,
    pub lines: units::Lines,
    pub scans: units::Lines,
    pub rows: u32,
    pub width: usize,
    pub size: usize,
    pub buffer: raster::Buffer,
    pub reading: video::Reading,
}

// What all cells of a picture are drawn from: the plan, and the tables by sign, by mark and by look, which fit it. It
// goes by value: by reference, the loop over a line's cells read a cell's width from the stack each turn.
#[derive(Clone, Copy)]
struct Tables<'a> {
    plan: Plan,
    shown: &'a [u16],
    looks: &'a [u8],
    inks: &'a [u64],
    ghost fit: { TablesFit plan shown.now looks.now inks.now },
}

// One cell from its number, on a scan line. No branch goes by what a cell is. `line` does the same from the font: there
// one line is drawn, and tables would cost more than they save.
fn put(out: &mut [u8], t: Tables, scan: units::Lines, number: u16, tight: bool)
    requires scan_lt_scans { scan.0 < t.plan.scans.0 }
    requires dots_in_bounds { reach_of tight t.plan.dots.0 ≤ length out.old }
    ensures { out.new
        ≡ cell_dots_of t.entry.shown.now t.entry.looks.now (reach_of tight t.entry.plan.dots.0) scan.0 number
        ++ drop (reach_of tight t.entry.plan.dots.0) out.old }
{
    let s = scan.places();
    let sign = s * 512 + (number % 512) as usize;
    let mark = s * 128 + (number / 512) as usize;
    let d = t.plan.dots.places();
    dots::put_cell(out, t.inks, t.looks[mark], t.shown[sign], d, tight);
}

// So many cells of a line. All but the last may be stored with some dots too many, over which the next cell is drawn.
fn draw_cells(out: &mut [u8], t: Tables, cells: &[u16], scan: units::Lines, n: usize)
    requires cells_all { length cells.now ≡ 256 }
    requires scan_lt_scans { (scan.0 < t.plan.scans.0) × (0 < n) × (n ≤ 256) × (n * t.plan.dots.0 ≤ length out.old) }
    ensures { out.new
        ≡ joined 0 n (cell_from cells.now t.entry.shown.now t.entry.looks.now t.entry.plan.dots.0 scan.0)
        ++ drop (n * t.entry.plan.dots.0) out.old }
{
    let last = n - 1;
    let d = t.plan.dots.places();
    for (i, number) in cells[..last].iter().enumerate() {
        put(&mut out[i * d..], t, scan, *number, false);
    }
    put(&mut out[last * d..], t, scan, cells[last], true);
}

// One line from its row's cells: of a row of double width its cells first, and then each dot twice.
fn draw_columns(out: &mut [u8], t: Tables, wide: bool, cells: &[u16], scan: units::Lines)
    requires cells_all { length cells.now ≡ 256 }
    requires scan_lt_scans { (scan.0 < t.plan.scans.0) × (t.plan.width ≤ length out.old) }
    ensures { out.new
        ≡ joined 0 t.entry.plan.columns.0 (shown_of wide (cell_from cells.now t.entry.shown.now t.entry.looks.now t.entry.plan.dots.0 scan.0))
        ++ drop t.entry.plan.width out.old }
{
    let n = t.plan.columns;
    if wide {
        let mut halves = [0u8; 1536];
        let count = n.pairs_begun() as usize;
        draw_cells(&mut halves, t, cells, scan, count);
        dots::double(out, &halves, t.plan.width);
    } else {
        let count = n.cells() as usize;
        draw_cells(out, t, cells, scan, count);
    }
}

// All lines of a row from its cells.
fn draw_lines(out: &mut [u8], t: Tables, k: raster::Code, cells: &[u16])
    requires cells_all { length cells.now ≡ 256 }
    requires width_in_bounds { t.plan.lines.0 * t.plan.width ≤ length out.old }
    ensures { out.new
        ≡ joined 0 t.entry.plan.lines.0 (line_from t.entry.plan k cells.now t.entry.shown.now t.entry.looks.now)
        ++ drop (t.entry.plan.lines.0 * t.entry.plan.width) out.old }
{
    let p = t.plan;
    let wide = k.is_wide();
    for s in 0..p.lines.places() {
        let scan = video::scan_of(k, p.lines, units::Lines(s as u32));
        draw_columns(&mut out[s * p.width..], t, wide, cells, scan);
    }
}

// A row from where it starts: its cells once, then its lines. What is valid before it goes in, and what is valid
// after it comes out.
fn draw_row(
    out: &mut [u8],
    t: Tables,
    k: raster::Code,
    n: u32,
    chars: &[u8],
    attrs: &[u8],
    start: raster::Cell,
    held: u8,
) -> u8
    requires memories { (length chars.now ≡ 16384) × (length attrs.now ≡ 16384) }
    requires n_value { (n ≡ fetched_for (is_wide k) t.plan.columns.0) × (start.address < 16384) × (t.plan.lines.0 * t.plan.width ≤ length out.old) }
    ensures { (result ≡ held_by t.entry.plan.reading.runs attrs.now t.entry.plan.buffer held start.address (fetched_for (is_wide k) t.entry.plan.columns.0))
        × (out.new
        ≡ row_from t.entry.plan k chars.now attrs.now t.entry.shown.now t.entry.looks.now held start.address
        ++ drop (t.entry.plan.lines.0 * t.entry.plan.width) out.old) }
{
    let mut cells = [0u16; 256];
    let buffer = t.plan.buffer;
    let reading = t.plan.reading;
    let valid = tables::gather(
        &mut cells, chars, attrs, reading, buffer, start, held, n as usize,
    );
    draw_lines(out, t, k, &cells);
    valid
}

// All rows. What is latched in one goes on in the next.
fn draw_rows(out: &mut [u8], t: Tables, page: board::Page, chars: &[u8], attrs: &[u8])
    requires memories { (length chars.now ≡ 16384) × (length attrs.now ≡ 16384) }
    requires accepted { Accepted page × (t.plan ≡ plan_of page) × (t.plan.rows * t.plan.size ≤ length out.old) }
    ensures { out.new
        ≡ joined 0 t.entry.plan.rows (row_drawn t.entry.plan page chars.now attrs.now t.entry.shown.now t.entry.looks.now)
        ++ drop (t.entry.plan.rows * t.entry.plan.size) out.old }
{
    let p = t.plan;
    let mut held = 0;
    for r in 0..p.rows {
        let start = fetch::row_start(page, chars, r);
        let code = raster::Code::from(fetch::code_at(page, chars, r));
        let n = fetch::fetched_of(page, chars, r);
        let stretch = &mut out[r as usize * p.size..];
        held = draw_row(stretch, t, code, n, chars, attrs, start, held);
    }
}

fn plan_of(p: board::Page) -> Plan
    requires { Accepted p }
    ensures { result ≡ plan_of p }
{
    let t = timing::timing_of(p);
    let columns = t.counts.hact;
    let dots = p.video.dots;
    let lines = t.counts.lines;
    let width = units::dots_of(columns, dots).places();
    let size = lines.places() * width;
    Plan {
        columns: columns,
        dots: dots,
        lines: lines,
        scans: timing::scans_of(p),
        rows: t.counts.rows,
        width: width,
        size: size,
        buffer: timing::buffer_of(p),
        reading: video::reading_of(p),
    }
}

// 8 for a buffer that is too short for an accepted page's picture.
fn room_check(p: board::Page, room: usize) -> Result<(), Refusal>
    requires { Accepted p }
    ensures { result ≡ last_of false (ltb room (picture_length p)) }
{
    let plan = plan_of(p);
    if room < plan.rows as usize * plan.size {
        return Err(Refusal::Room);
    }
    Ok(())
}

#[tactic(auto, unfolding(crate::specs::Picture::picture_check))]
fn picture_check(b: board::Board, lent: Result<(), Refusal>, room: usize) -> Result<(), Refusal>
    ensures { result ≡ picture_check b lent room }
{
    timing::call_check(b, lent, false, false)?;
    room_check(b.page, room)
}

// The picture by tables, which pays where there are many cells.
fn by_rows(
    out: &mut [u8],
    b: board::Board,
    chars: &[u8],
    attrs: &[u8],
    words: &[u16],
    flags: &[u8],
    lines: shape::FontLines,
    field: u8,
    p: Plan,
)
    requires lent { Lent b chars.now attrs.now words.now flags.now }
    requires page_in_bounds { (picture_length b.page ≤ length out.old) × (p ≡ plan_of b.page) }
    ensures { out.new ≡ shaped_over b chars.now attrs.now words.now flags.now lines
        field out.old }
{
    let page = b.page;
    let scans = p.scans;
    let d = p.dots.places();
    let mut shown = [0u16; 8192];
    let mut looks = [0u8; 2048];
    let mut inks = [0u64; 288];
    tables::fill_words(&mut shown, words, flags, lines, scans, d);
    tables::fill_looks(&mut looks, b, field, scans);
    dots::inks(&mut inks);
    let t = Tables {
        plan: p,
        shown: &shown,
        looks: &looks,
        inks: &inks,
    };
    draw_rows(out, t, page, chars, attrs);
}

// The picture line by line.
fn by_lines(
    out: &mut [u8],
    b: board::Board,
    chars: &[u8],
    attrs: &[u8],
    words: &[u16],
    flags: &[u8],
    lines: shape::FontLines,
    field: u8,
    p: Plan,
)
    requires lent { Lent b chars.now attrs.now words.now flags.now }
    requires page_in_bounds { (picture_length b.page ≤ length out.old) × (p ≡ plan_of b.page) }
    ensures { out.new ≡ shaped_over b chars.now attrs.now words.now flags.now lines
        field out.old }
{
    for l in 0..p.lines.times(p.rows).places() {
        let at = units::Lines(l as u32);
        let scan = line::scan_for(b, chars, at);
        let font = shape::font_line_at(lines, scan);
        let stretch = &mut out[l * p.width..];
        line::whole_line(
            stretch, b, chars, attrs, words, flags, font, scan, at, field,
        );
    }
}

// A picture that nothing refuses.
fn whole_picture(
    out: &mut [u8],
    b: board::Board,
    chars: &[u8],
    attrs: &[u8],
    words: &[u16],
    flags: &[u8],
    lines: shape::FontLines,
    field: u8,
)
    requires { Lent b chars.now attrs.now words.now flags.now × (picture_length b.page ≤ length out.old) }
    ensures { out.new ≡ shaped_over b chars.now attrs.now words.now flags.now lines
        field out.old }
{
    let p = plan_of(b.page);
    if p.columns.times(p.rows).cells() < 256 {
        by_lines(out, b, chars, attrs, words, flags, lines, field, p);
    } else {
        by_rows(out, b, chars, attrs, words, flags, lines, field, p);
    }
}

// Draws all visible lines as they look in a field, end to end at the front of out.
pub fn draw_picture(
    b: board::Board,
    chars: &[u8],
    attrs: &[u8],
    words: &[u16],
    flags: &[u8],
    unshifted: &[u8],
    shifted: &[u8],
    groups: &[u8],
    field: u8,
    out: &mut [u8],
) -> Result<(), Refusal>
    ensures { DrawsPicture b chars.now attrs.now (lent_font words flags unshifted shifted groups)
        field out.old result out.new }
{
    let lent = video::lent_check(chars, attrs, words, flags, unshifted, shifted, groups);
    picture_check(b, lent, out.len())?;
    let lines = shape::font_lines(unshifted, shifted, groups);
    whole_picture(out, b, chars, attrs, words, flags, lines, field);
    Ok(())
}
