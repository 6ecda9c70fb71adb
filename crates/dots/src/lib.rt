#![tactic(auto)]
// The dots of a cell into a buffer, a byte each and several to a store.
ghost use Rattle.std.specs.Prelude.{◌≡◌, ◌++◌, ◌+◌, ◌-◌, ◌*◌, ◌/◌, ◌%◌, ◌^◌, ◌≤◌, ◌<◌, length, take, drop};
ghost use Rattle.std.specs.Int.Bits.{bit_xor};
ghost use Rattle.dots.specs.Stores.{wide_of, under_of, spread_of, blend_of, mix_of, bytes_of, overlap_of, ink_of, reach_of, ink_table};
ghost use Rattle.lists.specs.Tab.{tab};
ghost use Rattle.dots.specs.Width.{shades, cell_put, cell_written, cell_drawn};
ghost use Rattle.dots.specs.Half.{half_by, halved};

use units::Unit;

// Four bits, each in a byte of its own: the product has each at the lowest place of a byte, which the mask keeps.
fn nibble(w: u16) -> u64
    ensures { result ≡ spread_of 4 w }
{
    ((w % 16) as u64 * 0x20_4081) & 0x0101_0101
}

// Eight bits, each in a byte of its own.
pub fn spread(w: u16) -> u64
    ensures { result ≡ spread_of 8 w }
{
    nibble(w) + nibble(w / 16) * 0x1_0000_0000
}

// The number whose low d bits are the cell's dots.
#[tactic(auto, unfolding(crate::specs::Stores::wide_of))]
pub fn wide(word: u16, d: usize) -> u16
    requires { word < 1024 }
    ensures { result ≡ wide_of word d }
{
    if 10 < d { 2 * word } else { word }
}

// The symbol's level in the bytes of s that are 1, the surround's in those that are 0.
fn mix(s: u64, symbol: u8, surround: u8) -> u64
    requires { s ≤ 72340172838076673 }
    ensures { result ≡ mix_of s symbol surround }
{
    s * symbol as u64 + (0x0101_0101_0101_0101 - s) * surround as u64
}

// The lowest N bytes of a number at the front of out. The compiler stores them at once.
fn store<const N: usize>(out: &mut [u8], v: u64)
    requires { (N ≤ 8) × (N ≤ length out.old) }
    ensures { out.new ≡ bytes_of N v ++ drop N out.old }
{
    out[..N].copy_from_slice(&v.to_le_bytes()[..N]);
}

// N to 2 N bytes: the first N and the last N, which overlap.
fn ends<const N: usize>(out: &mut [u8], first: u64, last: u64, d: usize)
    requires { (N ≤ 8) × (N ≤ d) × (d ≤ N + N) × (d ≤ length out.old) }
    ensures { out.new ≡ overlap_of N d first last ++ drop d out.old }
{
    store::<N>(out, first);
    store::<N>(&mut out[d - N..], last);
}

// Four to eight bytes of a number.
fn narrow(out: &mut [u8], v: u64, d: usize)
    requires { (4 ≤ d) × (d ≤ 8) × (d ≤ length out.old) }
    ensures { out.new ≡ bytes_of d v ++ drop d out.old }
{
    ends::<4>(out, v, v >> (8 * (d - 4)), d);
}

// What makes one level of another by an exclusive or.
fn change(from: u64, to: u64) -> u64
    requires { (from < 4) × (to < 4) }
    ensures { (result ≡ bit_xor from to) × (result < 4) }
{
    from ^ to
}

// What eight dots are made from: a mask for each byte of a word, FF hex for a dot of the symbol, then for each of
// sixteen looks the surround in every byte, and what makes the symbol of it.
fn ink(i: usize) -> u64
    requires { i < 288 }
    ensures { result ≡ ink_of i }
{
    if i < 256 {
        return 255 * spread(i as u16);
    }
    let surround = (i % 16 / 4) as u64;
    if i < 272 {
        return 0x0101_0101_0101_0101 * surround;
    }
    0x0101_0101_0101_0101 * change(surround, (i % 4) as u64)
}

// The table of them.
pub fn inks(table: &mut [u64])
    requires { length table.old ≡ 288 }
    ensures { table.new ≡ ink_table }
{
    for (i, number) in table.iter_mut().enumerate() {
        *number = ink(i);
    }
}

// Eight dots, from the low bits of a word and a look.
fn blend(inks: &[u64], levels: u8, word: u16) -> u64
    requires { (inks.now ≡ tab 288 ink_of) × (levels < 16) }
    ensures { result ≡ blend_of (levels % 4) (levels / 4) 8 word }
{
    let look = levels as usize;
    inks[256 + look] ^ (inks[(word % 256) as usize] & inks[272 + look])
}

// A cell from its word, in which the low d bits are its dots. A cell of fewer than eight dots is stored as eight
// unless it is tight: the next cell is then drawn over what is too much.
pub fn put_cell(out: &mut [u8], inks: &[u64], levels: u8, word: u16, d: usize, tight: bool)
    requires { (inks.now ≡ tab 288 ink_of) × (levels < 16) × (6 ≤ d) × (d ≤ 12) × (reach_of tight d ≤ length out.old) }
    ensures { out.new ≡ cell_put levels word d tight out.old }
{
    let first = blend(inks, levels, word);
    if 8 < d {
        let last = blend(inks, levels, word >> (d - 8));
        ends::<8>(out, first, last, d);
    } else if tight {
        narrow(out, first, d);
    } else {
        store::<8>(out, first);
    }
}

// The last four dots of a cell with more than eight.
fn last_four(out: &mut [u8], symbol: u8, surround: u8, w: u16, d: usize)
    requires { (8 ≤ d) × (d ≤ 12) × (d ≤ length out.old) }
    ensures { out.new ≡ take (d - 4) out.old ++ (shades symbol surround 4 (w / 2 ^ (d - 4)) ++ drop d out.old) }
{
    let e = d - 4;
    let last = mix(nibble(w >> e), symbol, surround);
    store::<4>(&mut out[e..], last);
}

// A cell from its word. To spread the last eight dots too would cost more than it saves: four reach, and overlap.
pub fn write_cell(out: &mut [u8], symbol: u8, surround: u8, word: u16, d: usize)
    requires { (word < 1024) × (6 ≤ d) × (d ≤ 12) × (d ≤ length out.old) }
    ensures { out.new ≡ cell_written symbol surround word d out.old }
{
    let w = wide(word, d);
    let first = mix(spread(w), symbol, surround);
    if d == 8 {
        store::<8>(out, first);
    } else if d < 8 {
        narrow(out, first, d);
    } else {
        store::<8>(out, first);
        last_four(out, symbol, surround, w, d);
    }
}

// The level beneath a cell's symbol: a lit cell shows its symbol's level only.
pub fn under(look: video::Look) -> u8
    ensures { result ≡ under_of look }
{
    if look.lit { look.symbol } else { look.surround }
}

// The same of a cell's look, as wide as a page's cells are.
pub fn draw_cell(out: &mut [u8], look: video::Look, word: u16, width: units::Dots)
    requires { (word < 1024) × (6 ≤ width.0) × (width.0 ≤ 12) × (width.0 ≤ length out.old) }
    ensures { out.new ≡ cell_drawn look word width.0 out.old }
{
    write_cell(out, look.symbol, under(look), word, width.places());
}

// The dots of a column of double width: its cell's, each twice, from a place on.
pub fn halve(out: &mut [u8], cell: &[u8], from: usize, d: usize)
    requires { (d ≤ length out.old) × (d ≤ length cell.now) × (from ≤ d) × (d ≤ 12) }
    ensures { out.new ≡ halved cell.now from d out.old }
{
    for (i, dot) in out[..d].iter_mut().enumerate() {
        *dot = cell[(from + i) / 2];
    }
}

// So many dots, each twice. The compiler makes vectors of it.
fn pairs(out: &mut [u8], dots: &[u8], n: usize)
    requires { (2 * n ≤ length out.old) × (n ≤ length dots.now) × (n ≤ 4096) }
    ensures { out.new ≡ tab (2 * n) (half_by dots.now 0) ++ drop (2 * n) out.old }
{
    for (i, dot) in dots[..n].iter().enumerate() {
        out[2 * i] = *dot;
        out[2 * i + 1] = *dot;
    }
}

// The first n of a row's dots, each twice: with an odd number of columns of an odd width the last comes once.
pub fn double(out: &mut [u8], dots: &[u8], n: usize)
    requires { (n ≤ length out.old) × (n ≤ 2 * length dots.now) × (n ≤ 4096) }
    ensures { out.new ≡ halved dots.now 0 n out.old }
{
    let half = n / 2;
    pairs(out, dots, half);
    if n % 2 == 1 {
        out[2 * half] = dots[half];
    }
}
