#![tactic(auto)]
// The board's place: one clock on, and the place for clock n at once.
ghost use Rattle.std.specs.Prelude.{◌≡◌, ◌<◌, length, ◌==◌};
ghost use Rattle.lists.specs.Choice.{pick};
ghost use Rattle.raster.specs.Moves.{cell};
ghost use Rattle.raster.specs.Moves.{advance};
ghost use Rattle.raster.specs.Latch.{latched};
ghost use Rattle.raster.specs.Wide.{ends_at};
ghost use Rattle.timing.specs.Fields.{buffer_of, counts_of};
ghost use Rattle.place.specs.Place.{set_by, counted_code, settled, active_at, loads_at, begins_at, begun_in, loaded_in, past_cell, moved_in, turned_in, row_at, carried_before, place_at};
ghost use Rattle.place.specs.Spot.{last_spot, spot_in, spot_before, origin_at};
ghost use Rattle.board.specs.Parts.{with_place};
ghost use Rattle.place.specs.State.{state_of};

use refusal::Refusal;
use units::Unit;

// What the beam carries along, with its row's code, and what its row began with.
#[derive(Clone, Copy)]
pub struct Carried {
    pub beam: raster::Row,
    pub row: raster::Row,
}

// What a byte sets: nothing in character mode.
fn set_by(p: board::Page, byte: u8) -> u8
    ensures { result ≡ set_by p byte }
{
    if board::field_mode(p) { byte } else { 0 }
}

// A row's code as it counts.
#[tactic(auto, unfolding(crate::specs::Place::counted_code))]
fn counted_code(p: board::Page, code: u8) -> u8
    ensures { result ≡ counted_code p code }
{
    if timing::coded_of(p) { code % 4 } else { 0 }
}

// What is carried, with latch byte and code as they count.
#[tactic(auto, unfolding(crate::specs::Place::counted_latch))]
fn settled(p: board::Page, x: raster::Row) -> raster::Row
    ensures { result ≡ settled p x }
{
    raster::Row {
        address: x.address,
        latch: raster::latched(set_by(p, x.latch), 0),
        code: counted_code(p, x.code),
    }
}

// The cell that a row begins at, where one is held. The row table is fetched with the display off too.
fn begun_at(p: board::Page, chars: &[u8], row: u32, held: raster::Cell) -> raster::Cell
    requires { (length chars.now ≡ 16384) × (row < 8192) }
    ensures { result ≡ cell (begins_at p chars.now row held.address) }
{
    if timing::table_of(p) {
        return fetch::entry(p, chars, row);
    }
    if row == 0 {
        return raster::Cell {
            address: p.starts.start1,
        };
    }
    held
}

// What is latched when a row begins: nothing at the start of a frame.
fn begun_latch(row: u32, held: u8) -> u8
    ensures { result ≡ pick (row == 0) 0 held }
{
    if 0 < row { held } else { 0 }
}

// What a row begins with, where x is held.
fn begun(p: board::Page, chars: &[u8], row: u32, x: raster::Row) -> raster::Row
    requires { (length chars.now ≡ 16384) × (row < 8192) }
    ensures { result ≡ begun_in p chars.now row x }
{
    let held = raster::Cell { address: x.address };
    let at = begun_at(p, chars, row, held);
    raster::Row {
        address: at.address,
        latch: begun_latch(row, x.latch),
        code: fetch::code_at(p, chars, row),
    }
}

// Column 0 of a visible line.
fn loads_at(p: board::Page, q: board::Place) -> bool
    ensures { result ≡ loads_at p q }
{
    (q.line < timing::visible_of(p)) & (q.clock == units::Clocks(0))
}

// What a clock works on: on column 0 of a visible line it is loaded, elsewhere it is held.
pub fn loaded_at(p: board::Page, chars: &[u8], q: board::Place) -> Carried
    requires { length chars.now ≡ 16384 }
    ensures { result ≡ loaded_in p chars.now q }
{
    let kept = q.row;
    let beam = raster::Row {
        address: q.beam.address,
        latch: q.beam.latch,
        code: q.row.code,
    };
    let held = settled(p, beam);
    let row = settled(p, kept);
    let line = q.line;
    if loads_at(p, q) {
        if timing::line_of_row(p, line) == units::Lines(0) {
            let first = begun(p, chars, timing::row_of(p, line), held);
            return Carried {
                beam: first,
                row: first,
            };
        }
        return Carried { beam: row, row };
    }
    Carried { beam: held, row }
}

// An active clock of a visible line.
pub fn active_at(p: board::Page, q: board::Place) -> bool
    ensures { result ≡ active_at p q }
{
    let t = timing::timing_of(p);
    (q.line < timing::visible_of(p)) & (q.clock < t.counts.hact)
}

// The cell after this one, where the beam moves on.
fn next_cell(p: board::Page, moves: bool, at: u16) -> u16
    ensures { result ≡ pick moves (advance (buffer_of p) at) at }
{
    if moves {
        let next = raster::advance_one(timing::buffer_of(p), raster::Cell { address: at });
        return next.address;
    }
    at
}

// What is latched after a column, which shows its cell again or fetches one with this byte.
fn next_latch(p: board::Page, again: bool, byte: u8, held: u8) -> u8
    ensures { result ≡ pick again held (latched (set_by p byte) held) }
{
    if again {
        return held;
    }
    raster::latched(set_by(p, byte), held)
}

// A cell's last column.
#[tactic(auto, unfolding(timing::specs::Fields::timing_of))]
fn ends_at(p: board::Page, k: raster::Code, clock: units::Clocks) -> bool
    requires { clock.0 < 384 }
    ensures { result ≡ ends_at (counts_of p) k clock.0 }
{
    let t = timing::timing_of(p);
    let next = clock.plus(units::Clocks(1));
    !k.is_wide() | (clock.is_odd() | (next == t.counts.hact))
}

// Past a clock: the cell that it fetches is latched where it has AFLG, and after a cell's last column the beam moves
// on.
fn past_cell(p: board::Page, attrs: &[u8], clock: units::Clocks, x: raster::Row) -> raster::Row
    requires { (length attrs.now ≡ 16384) × (clock.0 < 384) × (x.address < 16384) }
    ensures { result ≡ past_cell p attrs.now clock.0 x }
{
    let code = x.code;
    let at = x.address;
    raster::Row {
        address: next_cell(p, ends_at(p, raster::Code::from(code), clock), at),
        latch: next_latch(
            p,
            raster::again_at(raster::Code::from(code), clock),
            attrs[at as usize],
            x.latch,
        ),
        code,
    }
}

// Each active clock, with the display off too.
fn moved_on(p: board::Page, attrs: &[u8], q: board::Place, c: Carried) -> Carried
    requires { (length attrs.now ≡ 16384) × (q.clock.0 < 384) × (c.beam.address < 16384) }
    ensures { result ≡ moved_in p attrs.now q c }
{
    let held = c.beam;
    let row = c.row;
    let clock = q.clock;
    if active_at(p, q) {
        return Carried {
            beam: past_cell(p, attrs, clock, held),
            row,
        };
    }
    c
}

// The place after a clock. The field counter goes from 255 to 0.
fn turned(p: board::Page, q: board::Place, c: Carried) -> board::Place
    requires { (q.line.0 < 8192) × (q.clock.0 < 384) }
    ensures { result ≡ turned_in p q c }
{
    let t = timing::timing_of(p);
    let beam = raster::Beam {
        address: c.beam.address,
        latch: c.beam.latch,
    };
    let row = c.row;
    let line = q.line;
    let clock = q.clock.plus(units::Clocks(1));
    let below = line.plus(units::Lines(1));
    if clock < t.counts.ht {
        return board::Place {
            field: q.field,
            line,
            clock,
            beam,
            row,
        };
    }
    if below < t.counts.vt {
        return board::Place {
            field: q.field,
            line: below,
            clock: units::Clocks(0),
            beam,
            row,
        };
    }
    board::Place {
        field: std::num::wrapping_add_u8(q.field, 1),
        line: units::Lines(0),
        clock: units::Clocks(0),
        beam,
        row,
    }
}

// The place after a clock that works on c.
pub fn place_after(p: board::Page, attrs: &[u8], q: board::Place, c: Carried) -> board::Place
    requires { (length attrs.now ≡ 16384) × (c.beam.address < 16384) × (q.line.0 < 8192) × (q.clock.0 < 384) }
    ensures { result ≡ turned_in p q (moved_in p attrs.now q c) }
{
    turned(p, q, moved_on(p, attrs, q, c))
}

// What is carried after c clocks of a row.
fn row_at(p: board::Page, chars: &[u8], attrs: &[u8], row: u32, c: units::Clocks) -> Carried
    requires { (length chars.now ≡ 16384) × (length attrs.now ≡ 16384) × (row < 8192) }
    ensures { result ≡ row_at p chars.now attrs.now row c.0 }
{
    let at = fetch::cell_at(p, chars, row, c);
    let start = fetch::row_start(p, chars, row);
    let code = fetch::code_at(p, chars, row);
    let before = latch::held_before(p, chars, attrs, row);
    Carried {
        beam: raster::Row {
            address: at.address,
            latch: latch::held_at(p, chars, attrs, row, c, before),
            code,
        },
        row: raster::Row {
            address: start.address,
            latch: before,
            code,
        },
    }
}

// A row, and how many clocks of it are over.
#[derive(Clone, Copy)]
pub struct Spot {
    pub row: u32,
    pub clocks: units::Clocks,
}

// The end of the last row.
#[tactic(auto, unfolding(timing::specs::Fields::counts_of, timing::specs::Fields::timing_of))]
fn last_spot(p: board::Page) -> Spot
    ensures { result ≡ last_spot p }
{
    let t = timing::timing_of(p);
    let ht = t.counts.ht;
    Spot {
        row: t.counts.rows - 1,
        clocks: ht,
    }
}

// Where the beam last moved, c clocks into a line: in that line, or else at the end of the last row.
#[tactic(auto, unfolding(crate::specs::Spot::spot_in))]
fn spot_in(p: board::Page, c: units::Clocks, line: units::Lines) -> Spot
    ensures { result ≡ spot_in p c.0 line.0 }
{
    if line < timing::visible_of(p) {
        return Spot {
            row: timing::row_of(p, line),
            clocks: c,
        };
    }
    last_spot(p)
}

// The same before clock c of a line: before clock 0, what the line before it left.
#[tactic(auto, unfolding(crate::specs::Spot::spot_before, timing::specs::Fields::timing_of, timing::specs::Fields::counts_of))]
fn spot_before(p: board::Page, c: units::Clocks, line: units::Lines) -> Spot
    ensures { result ≡ spot_before p c.0 line.0 }
{
    if units::Clocks(0) < c {
        return spot_in(p, c, line);
    }
    let t = timing::timing_of(p);
    if units::Lines(0) < line {
        return spot_in(p, t.counts.ht, line.minus(units::Lines(1)));
    }
    last_spot(p)
}

// Clock 0 of the first frame.
fn at_origin(c: units::Clocks, line: units::Lines, frame: u32) -> bool
    ensures { result ≡ origin_at c.0 line.0 frame }
{
    (c == units::Clocks(0)) & (line == units::Lines(0)) & (frame == 0)
}

// What is carried before clock c of a line of a frame. The work is the same for every clock; at clock 0 it is not
// needed.
fn carried_before(
    p: board::Page,
    chars: &[u8],
    attrs: &[u8],
    c: units::Clocks,
    line: units::Lines,
    frame: u32,
) -> Carried
    requires { (length chars.now ≡ 16384) × (length attrs.now ≡ 16384) }
    ensures { result ≡ carried_before p chars.now attrs.now c.0 line.0 frame }
{
    let spot = spot_before(p, c, line);
    let carried = row_at(p, chars, attrs, spot.row, spot.clocks);
    if at_origin(c, line, frame) {
        let none = raster::Row {
            address: 0,
            latch: 0,
            code: 0,
        };
        return Carried {
            beam: none,
            row: none,
        };
    }
    carried
}

// The place for clock n, by its quotients and remainders.
fn place_at(p: board::Page, chars: &[u8], attrs: &[u8], n: units::Clocks) -> board::Place
    requires { (length chars.now ≡ 16384) × (length attrs.now ≡ 16384) }
    ensures { result ≡ place_at p chars.now attrs.now n.0 }
{
    let t = timing::timing_of(p);
    let clock = n.remainder(t.counts.ht);
    let lines = units::whole_lines(n, t.counts.ht);
    let line = lines.remainder(t.counts.vt);
    let frame = lines.quotient(t.counts.vt);
    let c = carried_before(p, chars, attrs, clock, line, frame);
    let beam = raster::Beam {
        address: c.beam.address,
        latch: c.beam.latch,
    };
    let row = c.row;
    board::Place {
        field: (frame % 256) as u8,
        line,
        clock,
        beam,
        row,
    }
}

pub fn with_place(b: board::Board, place: board::Place) -> board::Board
    ensures { result ≡ with_place b place }
{
    let mut n = b;
    n.place = place;
    n
}

// The board at clock n, counted from clock 0 and not from the board's place.
#[tactic(auto, unfolding(crate::specs::State::state_of))]
pub fn state_at(
    b: board::Board,
    chars: &[u8],
    attrs: &[u8],
    n: units::Clocks,
) -> Result<board::Board, Refusal>
    ensures { result ≡ state_of b chars.now attrs.now n.0 }
{
    let size = board::memories_refused(chars.len(), attrs.len());
    timing::call_check(b, refusal::wrong_size(size), false, false)?;
    let place = place_at(b.page, chars, attrs, n);
    Ok(with_place(b, place))
}
