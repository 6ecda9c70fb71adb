#![tactic(auto)]
// The registers decoded into counts (003 Table 2), the page check, and the size of a picture.
ghost use Rattle.std.specs.Prelude.{◌≡◌, ◌/◌, ◌%◌};
ghost use Rattle.units.specs.Units.{clocks, lines};
ghost use Rattle.timing.specs.Fields.{coded_of, scans_of, lines_of, ec_of, table_of, hsync_of, hbp_of, vfp_of, vbp_of, blink_of, rows_of, hact_of, cursor_of, vsync_of, underline_of, buffer_of, ht_of, rest_of, hfp_of, visible_of, vt_of, counts_of, timing_of};
ghost use Rattle.timing.specs.Check.{reserved_refused, back_porch_refused, line_short, front_porch_refused, missing, width_refused, page_check, size_of, state_refused, call_check};

use refusal::Refusal;
use units::Unit;

// A line's and a frame's front porch and sync, and the counts that the beam goes by.
#[derive(Clone, Copy)]
pub struct Timing {
    pub hsync: units::Clocks,
    pub hfp: units::Clocks,
    pub vfp: units::Lines,
    pub vsync: units::Lines,
    pub counts: raster::Counts,
}

// The cursor's first and last scan line; whether it blinks, and over how many fields.
#[derive(Clone, Copy)]
pub struct CursorLook {
    pub first: units::Lines,
    pub last: units::Lines,
    pub blinks: bool,
    pub period: u32,
}

// The visible lines of a page, and the dots in each.
#[derive(Clone, Copy)]
pub struct PageSize {
    pub lines: units::Lines,
    pub dots: units::Dots,
}

// Each count is decoded by a function of its own: one function for them all is costly to prove.

pub fn scans_of(p: board::Page) -> units::Lines
    ensures { result ≡ lines (scans_of p) }
{
    units::Lines(p.irs[0] as u32 / 8 % 16 + 1)
}

fn lines_of(p: board::Page) -> units::Lines
    ensures { result ≡ lines (lines_of p) }
{
    scans_of(p)
}

fn ec_of(p: board::Page) -> units::Clocks
    ensures { result ≡ clocks (ec_of p) }
{
    units::Clocks(p.irs[1] as u32 % 128 + 1)
}

fn hsync_of(p: board::Page) -> units::Clocks
    ensures { result ≡ clocks (hsync_of p) }
{
    units::Clocks(2 * (p.irs[2] as u32 / 8 % 16) + 2)
}

fn hbp_of(p: board::Page) -> units::Clocks
    ensures { result ≡ clocks (hbp_of p) }
{
    units::Clocks(4 * (p.irs[2] as u32 % 8)).minus(units::Clocks(1))
}

fn vfp_of(p: board::Page) -> units::Lines
    ensures { result ≡ lines (vfp_of p) }
{
    units::Lines(4 * (p.irs[3] as u32 / 32 % 8) + 4)
}

fn vbp_of(p: board::Page) -> units::Lines
    ensures { result ≡ lines (vbp_of p) }
{
    units::Lines(2 * (p.irs[3] as u32 % 32) + 4)
}

fn rows_of(p: board::Page) -> u32
    ensures { result ≡ rows_of p }
{
    p.irs[4] as u32 % 128 + 1
}

fn hact_of(p: board::Page) -> units::Clocks
    ensures { result ≡ clocks (hact_of p) }
{
    units::Clocks(p.irs[5] as u32 % 256 + 1)
}

// VSYNC by its code.
fn vsync_of(p: board::Page) -> units::Lines
    ensures { result ≡ lines (vsync_of p) }
{
    let code = p.irs[7] / 64 % 4;
    match code {
        0 => units::Lines(3),
        1 => units::Lines(1),
        2 => units::Lines(5),
        _ => units::Lines(7),
    }
}

fn ht_of(p: board::Page) -> units::Clocks
    ensures { result ≡ clocks (ht_of p) }
{
    ec_of(p).plus(hsync_of(p).times(2)).times(2)
}

// What a line has besides its front porch.
fn rest_of(p: board::Page) -> units::Clocks
    ensures { result ≡ clocks (rest_of p) }
{
    hact_of(p).plus(hsync_of(p)).plus(hbp_of(p))
}

fn hfp_of(p: board::Page) -> units::Clocks
    ensures { result ≡ clocks (hfp_of p) }
{
    ht_of(p).minus(rest_of(p))
}

// The lines that show a picture.
pub fn visible_of(p: board::Page) -> units::Lines
    ensures { result ≡ visible_of p }
{
    lines_of(p).times(rows_of(p))
}

// The row that a line of the frame belongs to.
pub fn row_of(p: board::Page, line: units::Lines) -> u32
    ensures { result ≡ line.0 / lines_of p }
{
    line.quotient(lines_of(p))
}

// Which line of its row a line of the frame is.
pub fn line_of_row(p: board::Page, line: units::Lines) -> units::Lines
    ensures { result ≡ lines (line.0 % lines_of p) }
{
    line.remainder(lines_of(p))
}

fn vt_of(p: board::Page) -> units::Lines
    ensures { result ≡ lines (vt_of p) }
{
    let to_sync = visible_of(p).plus(vfp_of(p));
    to_sync.plus(vsync_of(p)).plus(vbp_of(p))
}

fn counts_of(p: board::Page) -> raster::Counts
    ensures { result ≡ counts_of p }
{
    raster::Counts {
        ht: ht_of(p),
        hact: hact_of(p),
        vt: vt_of(p),
        lines: lines_of(p),
        rows: rows_of(p),
    }
}

pub fn timing_of(p: board::Page) -> Timing
    ensures { result ≡ timing_of p }
{
    Timing {
        hsync: hsync_of(p),
        hfp: hfp_of(p),
        vfp: vfp_of(p),
        vsync: vsync_of(p),
        counts: counts_of(p),
    }
}

pub fn buffer_of(p: board::Page) -> raster::Buffer
    ensures { result ≡ buffer_of p }
{
    raster::Buffer {
        first: p.irs[9] as u16 % 16 * 256 + p.irs[8] as u16 % 256,
        last: 1024 * (p.irs[9] as u16 / 16 % 16 + 1) - 1,
    }
}

// Whether the row table's entries have codes.
pub fn coded_of(p: board::Page) -> bool
    ensures { result ≡ coded_of p }
{
    p.irs[0] / 128 % 2 == 1
}

pub fn table_of(p: board::Page) -> bool
    ensures { result ≡ table_of p }
{
    p.irs[2] / 128 % 2 == 1
}

pub fn cursor_of(p: board::Page) -> CursorLook
    ensures { result ≡ cursor_of p }
{
    CursorLook {
        first: units::Lines(p.irs[6] as u32 / 16 % 16),
        last: units::Lines(p.irs[6] as u32 % 16),
        blinks: p.irs[7] / 32 % 2 == 1,
        period: 32 * (p.irs[7] as u32 / 16 % 2 + 1),
    }
}

pub fn underline_of(p: board::Page) -> units::Lines
    ensures { result ≡ underline_of p }
{
    units::Lines(p.irs[7] as u32 % 16)
}

pub fn blink_of(p: board::Page) -> u32
    ensures { result ≡ blink_of p }
{
    64 * (p.irs[4] as u32 / 128 % 2 + 1)
}

// 4: interlace, or codes without the row table.
fn reserved_refused(p: board::Page) -> bool
    ensures { result ≡ reserved_refused p }
{
    (p.irs[1] / 128 % 2 == 1) | (coded_of(p) & !table_of(p))
}

// 13: HBP code 0.
fn back_porch_refused(p: board::Page) -> bool
    ensures { result ≡ back_porch_refused p }
{
    p.irs[2] % 8 == 0
}

// 14: the line is too short for its active, sync and back porch clocks.
fn line_short(p: board::Page) -> bool
    ensures { result ≡ line_short p }
{
    ht_of(p) < rest_of(p)
}

// 15: a front porch of 0 or 1.
fn front_porch_refused(p: board::Page) -> bool
    ensures { result ≡ front_porch_refused p }
{
    hfp_of(p) < units::Clocks(2)
}

// By how many clocks the front porch misses 2.
fn missing(p: board::Page) -> units::Clocks
    ensures { result ≡ missing p }
{
    rest_of(p).plus(units::Clocks(2)).minus(ht_of(p))
}

// 6: dots not 6 to 12.
pub fn width_refused(d: units::Dots) -> bool
    ensures { result ≡ width_refused d }
{
    (d < units::Dots(6)) | (units::Dots(12) < d)
}

// 12, 4, 13, 14, 15, 6, in this order. A step asks only whether one of them refuses, and takes half as long again if
// it has to call this.
#[inline(always)]
#[tactic(auto, unfolding(crate::specs::Check::page_check))]
pub fn page_check(p: board::Page) -> Result<(), Refusal>
    ensures { result ≡ page_check p }
{
    let address = board::address_refused(p);
    let reserved = reserved_refused(p);
    let back = back_porch_refused(p);
    let short = line_short(p);
    let front = front_porch_refused(p);
    if address {
        return Err(Refusal::Address);
    }
    if reserved {
        return Err(Refusal::Reserved);
    }
    if back {
        return Err(Refusal::BackPorch);
    }
    if short {
        return Err(Refusal::LineShort(missing(p)));
    }
    if front {
        return Err(Refusal::FrontPorch(missing(p)));
    }
    if width_refused(p.video.dots) {
        return Err(Refusal::Width);
    }
    Ok(())
}

#[tactic(auto, unfolding(crate::specs::Check::size_of))]
pub fn page_size(p: board::Page) -> Result<PageSize, Refusal>
    ensures { result ≡ size_of p }
{
    page_check(p)?;
    Ok(PageSize {
        lines: visible_of(p),
        dots: units::dots_of(hact_of(p), p.video.dots),
    })
}

// 7, for a board's own numbers.
pub fn state_refused(b: board::Board) -> bool
    ensures { result ≡ state_refused b }
{
    let page = b.page;
    let place = b.place;
    (vt_of(page) <= place.line)
        | (ht_of(page) <= place.clock)
        | board::cells_refused(place)
        | board::pointer_refused(page, b.pointer)
}

// What drawing, stepping, states and runs ask: what refuses a lent part, whether what was asked for is out of range,
// and whether the room is short.
#[tactic(auto, unfolding(crate::specs::Check::call_check))]
pub fn call_check(
    b: board::Board,
    lent: Result<(), Refusal>,
    asked: bool,
    room: bool,
) -> Result<(), Refusal>
    ensures { result ≡ call_check b lent asked room }
{
    lent?;
    page_check(b.page)?;
    if state_refused(b) | asked {
        return Err(Refusal::Range);
    }
    if room {
        return Err(Refusal::Room);
    }
    Ok(())
}
