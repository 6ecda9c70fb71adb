#![tactic(auto)]
// The board's whole state, by value. It holds numbers only and is laid out as C lays it out, so that every bit
// pattern is a value.
ghost use Rattle.std.specs.Prelude.{◌≡◌};
ghost use Rattle.board.specs.State.{clock_zero, power_of};
ghost use Rattle.board.specs.Layout.{layout_of, last_ir, page_length};
ghost use Rattle.board.specs.Modes.{has_modes, version_of, field_mode, setters_hidden, chip_b};
ghost use Rattle.board.specs.Range.{memories_refused, starts_refused, switches_refused, video_refused, address_refused, cells_refused, pointer_refused};

#[repr(C)]
#[derive(Clone, Copy)]
pub struct Starts {
    pub start1: u16,
    pub cursor: u16,
    pub start2: u16,
}

#[repr(C)]
#[derive(Clone, Copy)]
pub struct Video {
    pub dots: units::Dots,
    pub strike: u8,
    pub chip: u8,
}

// How many IRs a page has, and how many bytes stand behind them in its file.
#[derive(Clone, Copy)]
pub struct Layout {
    pub irs: usize,
    pub rest: usize,
}

// What a page file holds beside the memories. The switches are the file's byte: bit 0 display, 1 cursor, 2 BKGND, 3
// RBLANK, and from version 2 on bit 4 field mode, 5 ACD. The chip counts in version 3.
#[repr(C)]
#[derive(Clone, Copy)]
pub struct Page {
    pub version: u8,
    pub irs: [u8; 15],
    pub starts: Starts,
    pub switches: u8,
    pub video: Video,
}

// Where the beam is, what it carries, and what its row began with.
#[repr(C)]
#[derive(Clone, Copy)]
pub struct Place {
    pub field: u8,
    pub line: units::Lines,
    pub clock: units::Clocks,
    pub beam: raster::Beam,
    pub row: raster::Row,
}

// The pointer names an IR. The count of master resets in a row is the power state: 0 or 1 is inactive, 2 and above
// active.
#[repr(C)]
#[derive(Clone, Copy)]
pub struct Board {
    pub page: Page,
    pub place: Place,
    pub pointer: u8,
    pub resets: u8,
}

pub fn clock_zero() -> Place
    ensures { result ≡ clock_zero }
{
    Place {
        field: 0,
        line: units::Lines(0),
        clock: units::Clocks(0),
        beam: raster::Beam {
            address: 0,
            latch: 0,
        },
        row: raster::Row {
            address: 0,
            latch: 0,
            code: 0,
        },
    }
}

pub fn power() -> Board
    ensures { result ≡ power_of }
{
    Board {
        page: Page {
            version: 1,
            irs: [0u8; 15],
            starts: Starts {
                start1: 0,
                cursor: 0,
                start2: 0,
            },
            switches: 0,
            video: Video {
                dots: units::Dots(0),
                strike: 0,
                chip: 0,
            },
        },
        place: clock_zero(),
        pointer: 0,
        resets: 0,
    }
}

// Where a board must stand and a refusal gives none, it is the one after power on.
impl Default for Board {
    ghost is_default = { λ b. b ≡ power_of };

    fn default() -> Board {
        power()
    }
}

// Versions from 1 to the newest are known.
pub const NEWEST_VERSION: u8 = 3;

// A page's layout by its version: version 3 has one byte more.
#[tactic(auto, unfolding(crate::specs::Layout::layout_of))]
pub fn layout_of(version: u8) -> Layout
    ensures { result ≡ layout_of version }
{
    if version == 3 {
        return Layout { irs: 15, rest: 10 };
    }
    Layout { irs: 15, rest: 9 }
}

// How many IRs a page has.
pub fn irs_of(version: u8) -> usize
    ensures { result ≡ (layout_of version).irs }
{
    layout_of(version).irs
}

// The last IR of a page, where the pointer stays.
pub fn last_ir(version: u8) -> u8
    ensures { result ≡ last_ir version }
{
    (irs_of(version) - 1) as u8
}

// The bytes between a page file's length and its character memory.
pub fn page_length(version: u8) -> usize
    ensures { result ≡ page_length version }
{
    let l = layout_of(version);
    l.irs + l.rest
}

// 3, for the lengths of the two memories.
pub fn memories_refused(chars: usize, attrs: usize) -> bool
    ensures { result ≡ memories_refused chars attrs }
{
    (chars != 16384) | (attrs != 16384)
}

pub fn starts_refused(s: Starts) -> bool
    ensures { result ≡ starts_refused s }
{
    (16383 < s.start1) | (16383 < s.cursor) | (16383 < s.start2)
}

// Whether switches 4 and 5 are a version's own.
fn has_modes(version: u8) -> bool
    ensures { result ≡ has_modes version }
{
    (version == 2) | (version == 3)
}

// Switches 6 and 7, and where they are not the version's also 4 and 5.
pub fn switches_refused(version: u8, switches: u8) -> bool
    ensures { result ≡ switches_refused version switches }
{
    (63 < switches) | (!has_modes(version) & (15 < switches))
}

// The strike line, and in version 3 the chip.
pub fn video_refused(version: u8, v: Video) -> bool
    ensures { result ≡ video_refused version v }
{
    (15 < v.strike) | ((version == 3) & (1 < v.chip))
}

// 12, for a page.
pub fn address_refused(p: Page) -> bool
    ensures { result ≡ address_refused p }
{
    let s = p.starts;
    let v = p.video;
    starts_refused(s) | switches_refused(p.version, p.switches) | video_refused(p.version, v)
}

// The version as it is written.
pub fn version_of(p: Page) -> u8
    ensures { result ≡ version_of p }
{
    if has_modes(p.version) { p.version } else { 1 }
}

// Whether attributes run on from cell to cell.
pub fn field_mode(p: Page) -> bool
    ensures { result ≡ field_mode p }
{
    has_modes(p.version) & (p.switches / 16 % 2 == 1)
}

// Whether a cell that sets attributes has zero dots.
pub fn setters_hidden(p: Page) -> bool
    ensures { result ≡ setters_hidden p }
{
    field_mode(p) & !(p.switches / 32 % 2 == 1)
}

// Whether the page is one of the 2677B.
pub fn chip_b(p: Page) -> bool
    ensures { result ≡ chip_b p }
{
    (p.version == 3) & (p.video.chip == 1)
}

// 7, for the two cells of a place.
pub fn cells_refused(p: Place) -> bool
    ensures { result ≡ cells_refused p }
{
    (16383 < p.beam.address) | (16383 < p.row.address)
}

// 7, for the IR pointer.
pub fn pointer_refused(p: Page, pointer: u8) -> bool
    ensures { result ≡ pointer_refused p pointer }
{
    last_ir(p.version) < pointer
}
