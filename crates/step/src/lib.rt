#![tactic(auto)]
// One clock of the board: its signals, address and dots, and the board for the next clock.
ghost use Rattle.std.specs.Prelude.{◌≡◌, false, ◌≤◌, ◌<◌, length, is_ok};
ghost use Rattle.lists.specs.Choice.{pick};
ghost use Rattle.units.specs.Units.{lines};
ghost use Rattle.timing.specs.Check.{call_check};
ghost use Rattle.shape.specs.Font.{lent_font};
ghost use Rattle.video.specs.At.{lent_by};
ghost use Rattle.video.specs.Lent.{Lent};
ghost use Rattle.video.specs.Scene.{scene_of};
ghost use Rattle.video.specs.Cell.{cell_dots, column_of};
ghost use Rattle.place.specs.Place.{active_at, loaded_in};
ghost use Rattle.step.specs.Signals.{scan_in, hsync_in, vsync_in, padded, odd_in};
ghost use Rattle.step.specs.Step.{step_of, clock_in};
ghost use Rattle.step.specs.Shown.{signals_with, cell_shown, blank_shown, line_in, shown_in, clock_with};

use refusal::Refusal;
use units::Unit;

#[derive(Clone, Copy)]
pub struct Signals {
    pub hsync: bool,
    pub vsync: bool,
    pub blank: bool,
    pub cursor: bool,
    pub blink: bool,
}

// What a clock puts out: what refuses it, its signals, the address fetched or held, and the dots. Then the next place.
#[derive(Clone, Copy)]
pub struct Clock {
    pub refusal: Result<(), Refusal>,
    pub signals: Signals,
    pub address: u16,
    pub dots: [u8; 12],
    pub place: board::Place,
}

// The same with the board for the next clock.
#[derive(Clone, Copy)]
pub struct Stepped {
    pub refusal: Result<(), Refusal>,
    pub signals: Signals,
    pub address: u16,
    pub dots: [u8; 12],
    pub board: board::Board,
}

// What a clock shows: CURSOR, and the look and the word of a cell.
#[derive(Clone, Copy)]
struct Shown {
    cursor: bool,
    look: video::Look,
    word: u16,
}

// The scan line of the place, in a row with this code.
fn scan_in(b: board::Board, code: u8) -> units::Lines
    ensures { result ≡ lines (scan_in b code) }
{
    let page = b.page;
    video::scan_at(page, raster::Code::from(code), b.place.line)
}

#[tactic(auto, unfolding(timing::specs::Fields::counts_of, timing::specs::Fields::timing_of))]
fn hsync_in(b: board::Board) -> bool
    ensures { result ≡ hsync_in b }
{
    let page = b.page;
    let t = timing::timing_of(page);
    b.place.clock.during(t.counts.hact.plus(t.hfp), t.hsync)
}

#[tactic(auto, unfolding(timing::specs::Fields::counts_of, timing::specs::Fields::timing_of))]
fn vsync_in(b: board::Board) -> bool
    ensures { result ≡ vsync_in b }
{
    let page = b.page;
    let t = timing::timing_of(page);
    let first = timing::visible_of(page).plus(t.vfp);
    b.place.line.during(first, t.vsync)
}

// BLINK and whether the picture is shown are the same on every scan line. So line 0 will do, and nothing is divided.
#[tactic(auto, unfolding(video::specs::Scene::scene_of, crate::specs::Shown::signals_with))]
fn signals_of(b: board::Board, active: bool, cursor: bool) -> Signals
    requires { active ≡ active_at b.page b.place }
    ensures { result ≡ signals_with b cursor }
{
    let scene = video::scene_of(b, units::Lines(0), b.place.field);
    Signals {
        hsync: hsync_in(b),
        vsync: vsync_in(b),
        blank: !active | !scene.shown,
        cursor: cursor,
        blink: scene.blink,
    }
}

// The scene of the place's scan line.
fn scene_in(b: board::Board, code: u8) -> video::Scene
    ensures { result ≡ scene_of b (scan_in b code) b.place.field }
{
    video::scene_of(b, scan_in(b, code), b.place.field)
}

// What an active clock shows, of the cell at its address.
fn cell_shown(
    b: board::Board,
    chars: &[u8],
    attrs: &[u8],
    words: &[u16],
    flags: &[u8],
    line: shape::FontLine,
    code: u8,
    held: u8,
    address: usize,
) -> Shown
    requires { (address < length chars.now) × (address < length attrs.now) × (length words.now ≡ 1152) × (length flags.now ≡ 128) }
    ensures { result ≡ cell_shown b chars.now attrs.now words.now flags.now line code held address }
{
    let page = b.page;
    let scene = scene_in(b, code);
    let cursor = video::cursor_at(scene, address);
    let byte = attrs[address];
    let again = raster::again_at(raster::Code::from(code), b.place.clock);
    let reading = video::reading_of(page);
    let counted = video::counted_byte(reading, again, byte);
    let valid = raster::latched(counted, held);
    let letter = video::shown_code(reading.hidden, chars[address], byte);
    let graphics = video::graphics_by(reading, valid);
    Shown {
        cursor,
        look: video::look_of(scene, valid, cursor),
        word: shape::word_by(words, flags, line, graphics, letter),
    }
}

// What is shown off the active clocks: a cell of the blank level, which is the same on every scan line.
#[tactic(auto, unfolding(crate::specs::Shown::blank_shown))]
fn blank_shown(b: board::Board) -> Shown
    ensures { result ≡ blank_shown b }
{
    let scene = video::scene_of(b, units::Lines(0), b.place.field);
    Shown {
        cursor: false,
        look: video::Look {
            lit: false,
            symbol: scene.blank,
            surround: scene.blank,
        },
        word: 0,
    }
}

// What a clock's scan line takes from the font, which counts on active clocks alone.
fn line_in(
    b: board::Board,
    active: bool,
    code: u8,
    unshifted: &[u8],
    shifted: &[u8],
    groups: &[u8],
) -> shape::FontLine
    ensures { result ≡ line_in b active code unshifted.now shifted.now groups.now }
{
    if active {
        return shape::font_line(unshifted, shifted, groups, scan_in(b, code));
    }
    shape::FontLine {
        unshifted: 0,
        shifted: 0,
        group: 0,
    }
}

// What a clock shows that fetches or holds an address, where held is valid before its cell.
#[tactic(auto, unfolding(crate::specs::Shown::shown_in))]
fn shown_in(
    b: board::Board,
    active: bool,
    chars: &[u8],
    attrs: &[u8],
    words: &[u16],
    flags: &[u8],
    line: shape::FontLine,
    code: u8,
    held: u8,
    address: usize,
) -> Shown
    requires { Lent b chars.now attrs.now words.now flags.now × (address < 16384) × (active ≡ active_at b.page b.place) }
    ensures { result ≡ shown_in b chars.now attrs.now words.now flags.now line code held address }
{
    if active {
        return cell_shown(b, chars, attrs, words, flags, line, code, held, address);
    }
    blank_shown(b)
}

// The twelve dot places of a column of what is shown, of double width or not.
fn column_dots(b: board::Board, wide: bool, s: Shown) -> [u8; 12]
    requires { (6 ≤ b.page.video.dots.0) × (b.page.video.dots.0 ≤ 12) × (s.word < 1024) }
    ensures { result ≡ padded (column_of wide (odd_in b) (cell_dots s.look s.word b.page.video.dots.0)) b.page.video.dots.0 }
{
    let mut cell = [0u8; 12];
    let look = s.look;
    dots::draw_cell(&mut cell, look, s.word, b.page.video.dots);
    if wide {
        let mut out = [0u8; 12];
        let d = b.page.video.dots.places();
        // Where the column's dots begin among the cell's, each twice.
        let from = if b.place.clock.is_odd() { d } else { 0 };
        dots::halve(&mut out, &cell, from, d);
        return out;
    }
    cell
}

// A clock that nothing refuses, from where it is loaded and what its scan line takes from the font.
fn one_clock(
    b: board::Board,
    c: place::Carried,
    active: bool,
    chars: &[u8],
    attrs: &[u8],
    words: &[u16],
    flags: &[u8],
    line: shape::FontLine,
) -> Clock
    requires lent { Lent b chars.now attrs.now words.now flags.now }
    requires c_value { (c ≡ loaded_in b.page chars.now b.place) × (active ≡ active_at b.page b.place) }
    ensures { result ≡ clock_with b chars.now attrs.now words.now flags.now line }
{
    let page = b.page;
    let place = b.place;
    let next = place::place_after(page, attrs, place, c);
    let code = c.beam.code;
    let at = c.beam.address as usize;
    let shown = shown_in(
        b,
        active,
        chars,
        attrs,
        words,
        flags,
        line,
        code,
        c.beam.latch,
        at,
    );
    Clock {
        refusal: Ok(()),
        signals: signals_of(b, active, shown.cursor),
        address: c.beam.address,
        dots: column_dots(b, active & raster::Code::from(code).is_wide(), shown),
        place: next,
    }
}

// Whether nothing refuses a clock, without the number. timing::call_check has it all, but is too large to be
// inlined. The groups come last, since their loop parts what stands before it from what stands behind.
fn clear(b: board::Board, size: bool, groups: &[u8]) -> bool
    ensures { result ≡ is_ok (call_check b (lent_by size groups.now) false false) }
{
    let page = b.page;
    if size | !timing::page_check(page).is_ok() | timing::state_refused(b) {
        return false;
    }
    shape::groups_check(groups).is_ok()
}

// What refuses a clock that something refuses.
fn refused_by(b: board::Board, size: bool, groups: &[u8]) -> Result<(), Refusal>
    requires { is_ok (call_check b (lent_by size groups.now) false false) ≡ false }
    ensures { result ≡ call_check b (lent_by size groups.now) false false }
{
    video::lent_by(size, groups)?;
    timing::page_check(b.page)?;
    Err(Refusal::Range)
}

// A clock, or where it is refused the number, zeros and the old place.
fn clock_of(
    b: board::Board,
    chars: &[u8],
    attrs: &[u8],
    words: &[u16],
    flags: &[u8],
    unshifted: &[u8],
    shifted: &[u8],
    groups: &[u8],
) -> Clock
    ensures { result ≡ clock_in (step_of b chars.now attrs.now (lent_font words flags unshifted shifted groups)) }
{
    let size = video::lent_refused(chars, attrs, words, flags, unshifted, shifted, groups);
    if clear(b, size, groups) {
        let page = b.page;
        let at = b.place;
        let c = place::loaded_at(page, chars, at);
        let active = place::active_at(page, at);
        let line = line_in(b, active, c.beam.code, unshifted, shifted, groups);
        return one_clock(b, c, active, chars, attrs, words, flags, line);
    }
    let place = b.place;
    Clock {
        refusal: refused_by(b, size, groups),
        signals: Signals {
            hsync: false,
            vsync: false,
            blank: false,
            cursor: false,
            blink: false,
        },
        address: 0,
        dots: [0u8; 12],
        place,
    }
}

// One clock: its signals, address and dots, and the board for the next clock. Refused or not, the board is put
// together at one place, and the compiler inlines all that takes it. So it sees that the page stays as it is.
pub fn step(
    b: board::Board,
    chars: &[u8],
    attrs: &[u8],
    words: &[u16],
    flags: &[u8],
    unshifted: &[u8],
    shifted: &[u8],
    groups: &[u8],
) -> Stepped
    ensures { result ≡ step_of b chars.now attrs.now (lent_font words flags unshifted shifted groups) }
{
    let c = clock_of(b, chars, attrs, words, flags, unshifted, shifted, groups);
    let refused = c.refusal;
    let signals = c.signals;
    let dots = c.dots;
    let place = c.place;
    Stepped {
        refusal: refused,
        signals,
        address: c.address,
        dots,
        board: place::with_place(b, place),
    }
}
