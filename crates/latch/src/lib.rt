#![tactic(auto)]
// Which attributes are valid when a cell is reached (000, field mode), searched back from it.
ghost use Rattle.std.specs.Prelude.{◌≡◌, true, ℕ, max, ◌<◌, ◌≤◌, length, get_or};
ghost use Rattle.raster.specs.Latch.{last_set};
ghost use Rattle.board.specs.Modes.{field_mode};
ghost use Rattle.latch.specs.Held.{held_at};
ghost use Rattle.latch.specs.Laws.{row_byte};

// A number that no byte is above. The compiler makes vectors of it.
fn highest(bytes: &[u8]) -> u8
    ensures { (i : ℕ) → i < length bytes.now → get_or bytes.now i 0 ≤ result }
{
    let mut most = 0;
    for byte in bytes {
        most = most.max(*byte);
    }
    most
}

// The last byte with AFLG, or 0. Most rows have none, which one look at the highest byte tells.
fn last_set(bytes: &[u8]) -> u8
    ensures { result ≡ last_set (λ i. get_or bytes.now i 0) 0 (length bytes.now) }
{
    if highest(bytes) < 128 {
        return 0;
    }
    bytes
        .iter()
        .rev()
        .copied()
        .find(|byte| 128 <= *byte)
        .unwrap_or(0)
}

// The byte of the last with AFLG of n cells from a cell on, or 0. They are found round the buffer, one by one.
// One function with `last_set` would be no plainer: the bytes there are a slice's, and here each has to be looked up.
fn last_round(attrs: &[u8], buffer: raster::Buffer, start: raster::Cell, n: u32) -> u8
    requires { length attrs.now ≡ 16384 }
    ensures { result ≡ last_set (row_byte attrs.now buffer start.address) 0 n }
{
    for before in (0..n).rev() {
        let cell = raster::advance_by(buffer, before, start);
        let byte = attrs[cell.address as usize];
        if 128 <= byte {
            return byte;
        }
    }
    0
}

// The same. Cells that are one run are looked at where they stand.
fn last_in_row(attrs: &[u8], buffer: raster::Buffer, start: raster::Cell, n: u32) -> u8
    requires { length attrs.now ≡ 16384 }
    ensures { result ≡ last_set (row_byte attrs.now buffer start.address) 0 n }
{
    let count = n as usize;
    if fetch::one_run(buffer, start, count) {
        let from = start.address as usize;
        let to = from + count;
        return last_set(&attrs[from..to]);
    }
    last_round(attrs, buffer, start, n)
}

// What is valid at the start of a row: the rows above it are looked through, the nearest first.
fn held_above(p: board::Page, chars: &[u8], attrs: &[u8], row: u32) -> u8
    requires { (length chars.now ≡ 16384) × (length attrs.now ≡ 16384) × (row < 8192) × (field_mode p ≡ true) }
    ensures { result ≡ held_at p chars.now attrs.now row 0 }
{
    let buffer = timing::buffer_of(p);
    for above in (0..row).rev() {
        let n = fetch::fetched_of(p, chars, above);
        let start = fetch::row_start(p, chars, above);
        let byte = last_in_row(attrs, buffer, start, n);
        if byte != 0 {
            return byte;
        }
    }
    0
}

// The same in either mode.
pub fn held_before(p: board::Page, chars: &[u8], attrs: &[u8], row: u32) -> u8
    requires { (length chars.now ≡ 16384) × (length attrs.now ≡ 16384) × (row < 8192) }
    ensures { result ≡ held_at p chars.now attrs.now row 0 }
{
    if !board::field_mode(p) {
        return 0;
    }
    held_above(p, chars, attrs, row)
}

// What is valid when a column of a row is reached, where before is valid when the row begins.
pub fn held_at(
    p: board::Page,
    chars: &[u8],
    attrs: &[u8],
    row: u32,
    column: units::Clocks,
    before: u8,
) -> u8
    requires { (length chars.now ≡ 16384) × (length attrs.now ≡ 16384) × (row < 8192) × (before ≡ held_at p chars.now attrs.now row 0) }
    ensures { result ≡ held_at p chars.now attrs.now row column.0 }
{
    if !board::field_mode(p) {
        return 0;
    }
    let n = fetch::fetched_before(p, chars, row, column);
    let start = fetch::row_start(p, chars, row);
    let byte = last_in_row(attrs, timing::buffer_of(p), start, n);
    if byte != 0 {
        return byte;
    }
    before
}
