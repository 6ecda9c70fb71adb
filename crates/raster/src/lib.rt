#![tactic(auto)]
// The beam: where it is, and which cell it is at. Almost all of this crate is theory (specs/); the code is the move
// from cell to cell.
ghost use Rattle.std.specs.Prelude.{◌≡◌};
ghost use Rattle.raster.specs.Moves.{cell, advance, advance_by};
ghost use Rattle.raster.specs.Latch.{latched};
ghost use Rattle.raster.specs.Wide.{code_of, is_wide, is_top, is_bottom, again_at};

// A cell, by its address.
#[derive(Clone, Copy)]
pub struct Cell {
    pub address: u16,
}

// What the beam carries along, and what a row keeps: a cell's address, and the attribute byte that was latched
// before it, 0 for none.
#[repr(C)]
#[derive(Clone, Copy)]
pub struct Beam {
    pub address: u16,
    pub latch: u8,
}

// What a row keeps beside them: its code, of which two bits count.
#[repr(C)]
#[derive(Clone, Copy)]
pub struct Row {
    pub address: u16,
    pub latch: u8,
    pub code: u8,
}

// 02, R-4: a row of double width, or the top or bottom half of one.
#[derive(Clone, Copy, PartialEq, Eq)]
pub enum Code {
    Plain,
    Wide,
    Top,
    Bottom,
}

// The counts that the beam goes by: clocks per line, of which so many are active; lines per frame; lines per row; rows.
#[derive(Clone, Copy)]
pub struct Counts {
    pub ht: units::Clocks,
    pub hact: units::Clocks,
    pub vt: units::Lines,
    pub lines: units::Lines,
    pub rows: u32,
}

// The first and the last buffer address. The first may be above the last.
#[derive(Clone, Copy)]
pub struct Buffer {
    pub first: u16,
    pub last: u16,
}

// The code of a row, by its byte.
impl From<u8> for Code {
    ghost from_gives = { λ byte k. k ≡ code_of byte };

    fn from(byte: u8) -> Code {
        match byte % 4 {
            0 => Code::Plain,
            1 => Code::Wide,
            2 => Code::Top,
            _ => Code::Bottom,
        }
    }
}

impl Code {
    pub fn is_wide(self) -> bool
        ensures { result ≡ is_wide self }
    {
        self != Code::Plain
    }

    pub fn is_top(self) -> bool
        ensures { result ≡ is_top self }
    {
        self == Code::Top
    }

    pub fn is_bottom(self) -> bool
        ensures { result ≡ is_bottom self }
    {
        self == Code::Bottom
    }
}

// Whether a column shows the cell of the column before it again.
pub fn again_at(k: Code, column: units::Clocks) -> bool
    ensures { result ≡ again_at k column.0 }
{
    k.is_wide() & column.is_odd()
}

// What is valid at a cell: its attribute byte where AFLG is set, else what was valid before it.
pub fn latched(byte: u8, held: u8) -> u8
    ensures { result ≡ latched byte held }
{
    if byte < 128 { held } else { byte }
}

// The cell after this one.
pub fn advance_one(b: Buffer, c: Cell) -> Cell
    ensures { result ≡ cell (advance b c.address) }
{
    let a = c.address;
    if a == b.last {
        return Cell { address: b.first };
    }
    Cell {
        address: (a % 16384 + 1) % 16384,
    }
}

// The cell k cells after this one.
pub fn advance_by(b: Buffer, k: u32, c: Cell) -> Cell
    ensures { result ≡ cell (advance_by b k c.address) }
{
    let first = b.first as u32;
    let last = b.last as u32;
    let a = c.address as u32 % 16384;
    let d = (last + 16384 - a) % 16384;
    if k <= d {
        return Cell {
            address: ((a + k) % 16384) as u16,
        };
    }
    let p = (last + 16384 - first % 16384) % 16384 + 1;
    Cell {
        address: ((first + (k - d - 1) % p) % 16384) as u16,
    }
}
