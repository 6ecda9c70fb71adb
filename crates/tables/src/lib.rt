#![tactic(auto)]
// What lines and pictures are drawn from: cells as numbers, tables by mark and by sign.
ghost use Rattle.std.specs.Prelude.{◌≡◌, ◌++◌, ◌+◌, ◌*◌, ◌/◌, ◌%◌, ◌≤◌, ◌<◌, length, get_or, eqb, drop};
ghost use Rattle.lists.specs.Choice.{pick};
ghost use Rattle.lists.specs.Tab.{tab};
ghost use Rattle.raster.specs.Moves.{Bounded};
ghost use Rattle.raster.specs.Latch.{latched};
ghost use Rattle.video.specs.At.{fetched_content};
ghost use Rattle.tables.specs.Run.{whole};
ghost use Rattle.tables.specs.Tables.{cell_number, number_for, levels_for, code_word, shown_word, Gathers, looks_put, looks_filled, words_filled};

use units::Unit;

// What attribute bit 5 adds to a code: 256 if it means graphics. A number, since a test in the loop would keep the
// compiler from making vectors.
fn graphics_step(graphics: bool) -> u16
    ensures { result ≡ pick graphics 256 0 }
{
    if graphics { 256 } else { 0 }
}

// A code, and 256 in graphics mode.
fn sign_of(step: u16, attributes: u8, code: u8) -> u16
    requires { step ≤ 256 }
    ensures { (result ≡ code + attributes / 32 % 2 * step) × (result < 512) }
{
    code as u16 + (attributes / 32 % 2) as u16 * step
}

// A cell's sign, and 512 times its mark: the six attributes, and 64 where the cursor's address is the cell's.
fn cell_number(sign: u16, attributes: u8, here: bool) -> u16
    requires { sign < 512 }
    ensures { result ≡ cell_number sign attributes here }
{
    let six = 512 * (attributes % 64) as u16;
    if here {
        return sign + six + 0x8000;
    }
    sign + six
}

// What is valid after a cell: in field mode what is valid at it, else what was before.
fn run_on(runs: bool, valid: u8, held: u8) -> u8
    ensures { result ≡ pick runs valid held }
{
    if runs { valid } else { held }
}

// The number of the cell at an address, where held is valid before it; and what is valid after it.
fn cell_at(
    chars: &[u8],
    attrs: &[u8],
    k: video::Reading,
    at: usize,
    here: bool,
    held: u8,
) -> (u16, u8)
    requires { (length chars.now ≡ 16384) × (length attrs.now ≡ 16384) × (at < 16384) × (here ≡ eqb at k.cursor) }
    ensures { (result.0 ≡ number_for k (fetched_content k chars.now attrs.now held at))
        × (result.1 ≡ pick k.runs (latched (get_or attrs.now at 0) held) held) }
{
    let byte = attrs[at];
    let code = video::shown_code(k.hidden, chars[at], byte);
    let attributes = raster::latched(byte, held);
    let sign = sign_of(graphics_step(k.graphics), attributes, code);
    let number = cell_number(sign, attributes, here);
    (number, run_on(k.runs, attributes, held))
}

// The cells of a row that are one run. The compiler makes vectors of it unless attributes run on. All in them has
// sixteen bits, the cell's address too.
fn gather_run(
    cells: &mut [u16],
    chars: &[u8],
    attrs: &[u8],
    k: video::Reading,
    from: usize,
    held: u8,
    n: usize,
) -> u8
    requires { (length chars.now ≡ 16384) × (length attrs.now ≡ 16384) × (n ≤ length cells.old) × (from + n ≤ 16384) × (from < 16384) }
    ensures { Gathers k chars.now attrs.now whole held from n
        cells.old result cells.new }
{
    let first = from as u16;
    let mut valid = held;
    for (c, number) in cells[..n].iter_mut().enumerate() {
        let here = first + c as u16 == k.cursor;
        (*number, valid) = cell_at(chars, attrs, k, from + c, here, valid);
    }
    valid
}

// The cells of a row round the buffer, one by one. In one loop with `gather_run` each cell would come from the one
// before it, and the compiler would make no vectors.
fn gather_round(
    cells: &mut [u16],
    chars: &[u8],
    attrs: &[u8],
    k: video::Reading,
    buffer: raster::Buffer,
    start: raster::Cell,
    held: u8,
    n: usize,
) -> u8
    requires { (length chars.now ≡ 16384) × (length attrs.now ≡ 16384) × (n ≤ length cells.old) × Bounded buffer × (start.address < 16384) }
    ensures { Gathers k chars.now attrs.now buffer held start.address n
        cells.old result cells.new }
{
    let mut cell = start;
    let mut valid = held;
    for number in cells[..n].iter_mut() {
        let at = cell.address as usize;
        let here = cell.address == k.cursor;
        (*number, valid) = cell_at(chars, attrs, k, at, here, valid);
        cell = raster::advance_one(buffer, cell);
    }
    valid
}

// The cells of a row from its start on, each once for all its lines, where held is valid before the row; and what is
// valid after it.
pub fn gather(
    cells: &mut [u16],
    chars: &[u8],
    attrs: &[u8],
    k: video::Reading,
    buffer: raster::Buffer,
    start: raster::Cell,
    held: u8,
    n: usize,
) -> u8
    requires { (length chars.now ≡ 16384) × (length attrs.now ≡ 16384) × (n ≤ length cells.old) × Bounded buffer × (start.address < 16384) }
    ensures { Gathers k chars.now attrs.now buffer held start.address n
        cells.old result cells.new }
{
    if fetch::one_run(buffer, start, n) {
        let from = start.address as usize;
        return gather_run(cells, chars, attrs, k, from, held, n);
    }
    gather_round(cells, chars, attrs, k, buffer, start, held, n)
}

// The symbol's level of six attributes, and four times the surround's, which a lit cell shows as its symbol.
fn levels(s: video::Scene, attributes: u8, here: bool) -> u8
    requires { s.blank < 4 }
    ensures { result ≡ levels_for s here attributes }
{
    let look = video::look_of(s, attributes, s.gate & here);
    look.symbol + 4 * dots::under(look)
}

// Half of a scan line's table by mark: the cells at the cursor's address, or the others.
fn half(table: &mut [u8], s: video::Scene, here: bool)
    requires { (64 ≤ length table.old) × (s.blank < 4) }
    ensures { table.new ≡ tab 64 (levels_for s here) ++ drop 64 table.old }
{
    for (attributes, number) in table[..64].iter_mut().enumerate() {
        *number = levels(s, attributes as u8, here);
    }
}

// A scan line's table by mark. In a half the cursor is the same for all, so that the compiler makes vectors of it.
pub fn looks(table: &mut [u8], s: video::Scene)
    requires { (128 ≤ length table.old) × (s.blank < 4) }
    ensures { table.new ≡ looks_put s table.old }
{
    half(table, s, false);
    half(&mut table[64..], s, true);
}

// Those of n scan lines, end to end. One function for this loop and that of `fill_words` would take the filling as a
// closure with clauses, and be longer.
pub fn fill_looks(table: &mut [u8], b: board::Board, field: u8, n: units::Lines)
    requires { (n.0 ≤ 16) × (n.0 * 128 ≤ length table.old) }
    ensures { table.new ≡ looks_filled b field n.0 table.old }
{
    for s in 0..n.places() {
        let scene = video::scene_of(b, units::Lines(s as u32), field);
        looks(&mut table[s * 128..], scene);
    }
}

// A scan line's table by code, in graphics mode or not: numbers whose low bits are the dots. Those of the codes
// below the first stand there already.
fn code_words(
    table: &mut [u16],
    first: usize,
    words: &[u16],
    flags: &[u8],
    line: shape::FontLine,
    graphics: bool,
    d: usize,
)
    requires fit { (length words.now ≡ 1152) × (length flags.now ≡ 128) × (256 ≤ length table.old) × (first ≤ 256) }
    requires begun { table.old
        ≡ tab first (code_word words.now flags.now line graphics d) ++ drop first table.old }
    ensures { table.new
        ≡ tab 256 (code_word words.now flags.now line graphics d) ++ drop 256 table.old }
{
    for code in first..256 {
        let word = shape::word_by(words, flags, line, graphics, code as u8);
        table[code] = dots::wide(word, d);
    }
}

// A scan line's table by sign: the codes in character mode, of which those below 128 show nothing, and then in
// graphics mode.
fn shown_words(table: &mut [u16], words: &[u16], flags: &[u8], line: shape::FontLine, d: usize)
    requires { (length words.now ≡ 1152) × (length flags.now ≡ 128) × (512 ≤ length table.old) }
    ensures { table.new
        ≡ tab 512 (shown_word words.now flags.now line d) ++ drop 512 table.old }
{
    table[..128].fill(0);
    code_words(table, 128, words, flags, line, false, d);
    code_words(&mut table[256..], 0, words, flags, line, true, d);
}

// Those of n scan lines, end to end.
pub fn fill_words(
    table: &mut [u16],
    words: &[u16],
    flags: &[u8],
    lines: shape::FontLines,
    n: units::Lines,
    d: usize,
)
    requires { (length words.now ≡ 1152) × (length flags.now ≡ 128) × (n.0 ≤ 16) × (n.0 * 512 ≤ length table.old) }
    ensures { table.new ≡ words_filled words.now flags.now lines n.0 d table.old }
{
    for s in 0..n.places() {
        let line = shape::font_line_at(lines, units::Lines(s as u32));
        shown_words(&mut table[s * 512..], words, flags, line, d);
    }
}
