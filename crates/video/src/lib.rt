#![tactic(auto)]
// The attributes controller (000): from attributes and cursor to black, gray and white.
ghost use Rattle.std.specs.Prelude.{◌≡◌, ◌≤◌, ◌<◌};
ghost use Rattle.std.specs.Bool.{xor};
ghost use Rattle.lists.specs.Choice.{pick, has_bit};
ghost use Rattle.units.specs.Units.{lines};
ghost use Rattle.video.specs.Levels.{blank_level};
ghost use Rattle.video.specs.Table.{line, of_two, of_eight, decided};
ghost use Rattle.video.specs.Scene.{blink_at, cursor_gate, scene_of, cursor_at};
ghost use Rattle.video.specs.Look.{look_of};
ghost use Rattle.shape.specs.Font.{lent_font};
ghost use Rattle.video.specs.At.{lent_refused, lent_by, lent_check, reading_of, graphics_by, scan_of, scan_at, counted_byte, shown_code};

use refusal::Refusal;
use units::Unit;

// What is the same for all cells of a scan line: whether the picture is shown, the blank level, BKGND, BLINK,
// whether this is the underline line and the strike line, whether the cursor gate opens on this line, and at which
// address.
#[derive(Clone, Copy)]
pub struct Scene {
    pub shown: bool,
    pub blank: u8,
    pub bkgnd: bool,
    pub blink: bool,
    pub underline: bool,
    pub strike: bool,
    pub gate: bool,
    pub cursor: u16,
}

// How a page's cells are read: where the cursor is, whether attributes run on, whether a cell that sets them has
// zero dots, and whether bit 5 of them means graphics.
#[derive(Clone, Copy)]
pub struct Reading {
    pub cursor: u16,
    pub runs: bool,
    pub hidden: bool,
    pub graphics: bool,
}

// A cell's two levels, and whether a line lights all its dots.
#[derive(Clone, Copy)]
pub struct Look {
    pub lit: bool,
    pub symbol: u8,
    pub surround: u8,
}

// The inputs of 000's Table 1.
#[derive(Clone, Copy)]
struct Case {
    blank: bool,
    rblank: bool,
    bkgnd: bool,
    reverse: bool,
    ahilt: bool,
    nondisplay: bool,
}

// A line of it: what it asks of each input, and what it gives, the level of the symbol, underline and strike-through
// too, and that of its surround.
// Marks and levels are numbers, since `table1` of specs/Table.antt is the paper's table with its 0s and 1s; levels
// are bytes of the picture too.
#[derive(Clone, Copy)]
struct TableLine {
    blank: u8,
    rblank: u8,
    bkgnd: u8,
    reverse: u8,
    ahilt: u8,
    nondisplay: u8,
    symbol: u8,
    surround: u8,
}

// The bit of a weight, of the switches or of the attributes. Both stay bytes, since they come from the page and the
// memory so, and the drawers look tables up by them; `has_bit` is the papers' word for it, which the definitions use.
fn has(byte: u8, weight: u8) -> bool
    requires { 0 < weight }
    ensures { result ≡ has_bit byte weight }
{
    byte / weight % 2 == 1
}

// High in the fourth quarter of the period.
fn blink_at(period: u32, field: u8) -> bool
    requires { (0 < period) × (period ≤ 128) }
    ensures { result ≡ blink_at period field }
{
    3 * (period / 4) <= field as u32 % period
}

// Whether the cursor may show on a scan line of a field.
fn cursor_gate(k: timing::CursorLook, on: bool, scan: units::Lines, field: u8) -> bool
    requires { 0 < k.period }
    ensures { result ≡ cursor_gate k on scan.0 field }
{
    let half = (field as u32 % k.period) < k.period / 2;
    on & (k.first <= scan) & (scan <= k.last) & (!k.blinks | half)
}

// Black, gray, white.
const B: u8 = 0;

const G: u8 = 1;

const W: u8 = 2;

// Don't care.
const D: u8 = 2;

fn line(
    blank: u8,
    rblank: u8,
    bkgnd: u8,
    reverse: u8,
    ahilt: u8,
    nondisplay: u8,
    symbol: u8,
    surround: u8,
) -> TableLine
    ensures { result ≡ line blank rblank bkgnd reverse ahilt nondisplay symbol surround }
{
    TableLine {
        blank,
        rblank,
        bkgnd,
        reverse,
        ahilt,
        nondisplay,
        symbol,
        surround,
    }
}

// Of two sides whose lines differ in a column, the one whose mark there, the first side's, is met by the input.
fn of_two(mark: u8, t: bool, a: TableLine, b: TableLine) -> TableLine
    ensures { result ≡ of_two mark t a b }
{
    if (mark == D) | (mark == u8::from(t)) {
        a
    } else {
        b
    }
}

// Of eight lines that count upward in REVERSE, AHILT and NON-DISPLAY.
#[tactic(auto, unfolding(crate::specs::Table::of_eight))]
fn of_eight(
    k: Case,
    l1: TableLine,
    l2: TableLine,
    l3: TableLine,
    l4: TableLine,
    l5: TableLine,
    l6: TableLine,
    l7: TableLine,
    l8: TableLine,
) -> TableLine
    ensures { result ≡ of_eight k l1 l2 l3 l4 l5 l6 l7 l8 }
{
    let a = of_two(l1.nondisplay, k.nondisplay, l1, l2);
    let b = of_two(l3.nondisplay, k.nondisplay, l3, l4);
    let c = of_two(l5.nondisplay, k.nondisplay, l5, l6);
    let d = of_two(l7.nondisplay, k.nondisplay, l7, l8);
    let e = of_two(l1.ahilt, k.ahilt, a, b);
    let f = of_two(l5.ahilt, k.ahilt, c, d);
    of_two(l1.reverse, k.reverse, e, f)
}

// 000 Table 1, "Attributes Hierarchy", and the line of it that a case stands in.
fn table_1(k: Case) -> TableLine
    ensures { result ≡ decided k }
{
    // BLANK, RBLANK, BKGND, REVERSE, AHILT, NON-DISPLAY, SYMBOL, SURROUND
    let l1 = line(0, D, 0, 0, 0, 0, G, B);
    let l2 = line(0, D, 0, 0, 0, 1, B, B);
    let l3 = line(0, D, 0, 0, 1, 0, W, B);
    let l4 = line(0, D, 0, 0, 1, 1, B, B);
    let l5 = line(0, D, 0, 1, 0, 0, B, G);
    let l6 = line(0, D, 0, 1, 0, 1, G, G);
    let l7 = line(0, D, 0, 1, 1, 0, B, W);
    let l8 = line(0, D, 0, 1, 1, 1, W, W);
    let l9 = line(0, D, 1, 0, 0, 0, B, G);
    let l10 = line(0, D, 1, 0, 0, 1, G, G);
    let l11 = line(0, D, 1, 0, 1, 0, B, W);
    let l12 = line(0, D, 1, 0, 1, 1, W, W);
    let l13 = line(0, D, 1, 1, 0, 0, G, B);
    let l14 = line(0, D, 1, 1, 0, 1, B, B);
    let l15 = line(0, D, 1, 1, 1, 0, W, B);
    let l16 = line(0, D, 1, 1, 1, 1, B, B);
    let l17 = line(1, 0, 0, D, D, D, B, B);
    let l18 = line(1, 0, 1, D, D, D, G, G);
    let l19 = line(1, 1, D, D, D, D, B, B);
    let dark = of_eight(k, l1, l2, l3, l4, l5, l6, l7, l8);
    let light = of_eight(k, l9, l10, l11, l12, l13, l14, l15, l16);
    let shown = of_two(l1.bkgnd, k.bkgnd, dark, light);
    let border = of_two(l17.bkgnd, k.bkgnd, l17, l18);
    let blanked = of_two(l17.rblank, k.rblank, border, l19);
    of_two(l1.blank, k.blank, shown, blanked)
}

// The level while BLANK is high.
fn blank_level(rblank: bool, bkgnd: bool) -> u8
    ensures { result ≡ blank_level rblank bkgnd }
{
    let found = table_1(Case {
        blank: true,
        rblank,
        bkgnd,
        reverse: false,
        ahilt: false,
        nondisplay: false,
    });
    found.symbol
}

pub fn scene_of(b: board::Board, scan: units::Lines, field: u8) -> Scene
    ensures { result ≡ scene_of b scan.0 field }
{
    let page = b.page;
    let s = b.page.switches;
    let bkgnd = has(s, 4);
    let strike = units::Lines(b.page.video.strike as u32);
    Scene {
        shown: has(s, 1) & (2 <= b.resets),
        blank: blank_level(has(s, 8), bkgnd),
        bkgnd,
        blink: blink_at(timing::blink_of(page), field),
        underline: scan == timing::underline_of(page),
        strike: !board::chip_b(page) & (scan == strike),
        gate: cursor_gate(timing::cursor_of(page), has(s, 2), scan, field),
        cursor: b.page.starts.cursor,
    }
}

// CURSOR at a fetched address.
pub fn cursor_at(s: Scene, at: usize) -> bool
    ensures { result ≡ cursor_at s at }
{
    s.gate & (at == s.cursor as usize)
}

pub fn reading_of(p: board::Page) -> Reading
    ensures { result ≡ reading_of p }
{
    Reading {
        cursor: p.starts.cursor,
        runs: board::field_mode(p),
        hidden: board::setters_hidden(p),
        graphics: board::chip_b(p),
    }
}

// Whether a cell with these attributes is a graphics cell.
pub fn graphics_by(k: Reading, attributes: u8) -> bool
    ensures { result ≡ graphics_by k attributes }
{
    k.graphics & has(attributes, 32)
}

// The scan line that a line of a row shows, of so many lines.
pub fn scan_of(k: raster::Code, of: units::Lines, line: units::Lines) -> units::Lines
    requires { (of.0 ≤ 32) × (line.0 ≤ 32) }
    ensures { result ≡ lines (scan_of k of.0 line.0) }
{
    if k.is_top() {
        return line.half();
    }
    if k.is_bottom() {
        return of.plus(line).half();
    }
    line
}

// The scan line that a visible line shows.
pub fn scan_at(p: board::Page, k: raster::Code, line: units::Lines) -> units::Lines
    ensures { result ≡ lines (scan_at p k line.0) }
{
    let t = timing::timing_of(p);
    scan_of(k, t.counts.lines, timing::line_of_row(p, line))
}

// What a cell's attribute byte sets at a column, which shows its cell again or fetches it.
pub fn counted_byte(k: Reading, again: bool, byte: u8) -> u8
    ensures { result ≡ counted_byte k again byte }
{
    if again & k.runs { 0 } else { byte }
}

// The code that a cell with this attribute byte is shown as: 0, which has zero dots, where it sets attributes and
// such cells are hidden.
pub fn shown_code(hidden: bool, code: u8, byte: u8) -> u8
    ensures { result ≡ shown_code hidden code byte }
{
    if hidden & (128 <= byte) { 0 } else { code }
}

// The look of a cell from the attributes that are valid at it, and CURSOR.
pub fn look_of(s: Scene, attributes: u8, cursor: bool) -> Look
    ensures { result ≡ look_of s attributes cursor }
{
    if !s.shown {
        return Look {
            lit: false,
            symbol: s.blank,
            surround: s.blank,
        };
    }
    let highlight = has(attributes, 16);
    let hidden = has(attributes, 2) | (has(attributes, 4) & s.blink);
    let reverse = has(attributes, 1) ^ cursor;
    let found = table_1(Case {
        blank: false,
        rblank: false,
        bkgnd: s.bkgnd,
        reverse,
        ahilt: highlight,
        nondisplay: hidden,
    });
    Look {
        lit: (has(attributes, 8) & s.underline) | (has(attributes, 32) & s.strike),
        symbol: found.symbol,
        surround: found.surround,
    }
}

// 3, for the memories and the font.
pub fn lent_refused(
    chars: &[u8],
    attrs: &[u8],
    words: &[u16],
    flags: &[u8],
    unshifted: &[u8],
    shifted: &[u8],
    groups: &[u8],
) -> bool
    ensures { result ≡ lent_refused chars.now attrs.now (lent_font words flags unshifted shifted groups) }
{
    board::memories_refused(chars.len(), attrs.len())
        | shape::font_refused(words, flags, unshifted, shifted, groups)
}

// Then 12, for the groups.
pub fn lent_by(size: bool, groups: &[u8]) -> Result<(), Refusal>
    ensures { result ≡ lent_by size groups.now }
{
    if size {
        return Err(Refusal::Size);
    }
    shape::groups_check(groups)
}

// Both.
pub fn lent_check(
    chars: &[u8],
    attrs: &[u8],
    words: &[u16],
    flags: &[u8],
    unshifted: &[u8],
    shifted: &[u8],
    groups: &[u8],
) -> Result<(), Refusal>
    ensures { result ≡ lent_check chars.now attrs.now (lent_font words flags unshifted shifted groups) }
{
    let size = lent_refused(chars, attrs, words, flags, unshifted, shifted, groups);
    lent_by(size, groups)
}
