#![tactic(auto)]
// 01's listing as bytes, line by line.
ghost use Rattle.std.specs.Prelude.{◌≡◌, [], ◌∷◌, ◌++◌, map, ◌+◌, ◌-◌, ◌≤◌, ◌<◌, length, take, drop};
ghost use Rattle.shape.specs.Font.{lent_font};
ghost use Rattle.listing.specs.Decimal.{decimal};
ghost use Rattle.listing.specs.Listing.{line_feed, letter_of, ListsHead, ListsLine};

use refusal::Refusal;
use units::Unit;

// A number's decimal digits, which stand at the front of the lent bytes.
fn digits_of(n: u32, bytes: &mut [u8; 20]) -> &[u8]
    ensures digits { result.now ≡ decimal n }
    ensures few { length result.now ≤ 20 }
{
    let count = io::decimal(n as u64, bytes);
    &bytes[..count]
}

// A number's digits and the byte after them, to the front of out.
fn put_number(out: &mut [u8], digits: &[u8], after: u8)
    requires { length digits.now < length out.old }
    ensures { out.new ≡ (digits.now ++ (after ∷ [])) ++ drop (length digits.now + 1) out.old }
{
    let count = digits.len();
    out[..count].copy_from_slice(digits);
    out[count] = after;
}

// The listing's first line, at the front of out, and how many bytes it has. A refusal leaves out as it was.
pub fn listing_head(p: board::Page, out: &mut [u8]) -> Result<usize, Refusal>
    ensures { ListsHead p out.old result out.new }
{
    let size = timing::page_size(p)?;
    let mut for_lines = [0u8; 20];
    let mut for_dots = [0u8; 20];
    let lines = digits_of(size.lines.0, &mut for_lines);
    let dots = digits_of(size.dots.0, &mut for_dots);
    let first = lines.len() + 1;
    let count = first + dots.len() + 1;
    if out.len() < count {
        return Err(Refusal::Room);
    }
    put_number(out, lines, b' ');
    put_number(&mut out[first..], dots, b'\n');
    Ok(count)
}

fn letter_of(level: u8) -> u8
    ensures { result ≡ letter_of level }
{
    match level {
        0 => b'.',
        1 => b'o',
        _ => b'#',
    }
}

// Turns levels to marks where they stand.
fn mark_all(levels: &mut [u8])
    ensures { levels.new ≡ map letter_of levels.old }
{
    for level in levels.iter_mut() {
        *level = letter_of(*level);
    }
}

// The first n levels as marks, and a line feed after them.
fn finish_line(out: &mut [u8], n: usize)
    requires { n < length out.old }
    ensures { out.new ≡ (map letter_of (take n out.old) ++ (line_feed ∷ [])) ++ drop (n + 1) out.old }
{
    mark_all(&mut out[..n]);
    out[n] = b'\n';
}

// The room for dots: a byte is kept for the line feed.
fn room_for_dots(room: usize) -> usize
    ensures { result ≡ room - 1 }
{
    if room == 0 { 0 } else { room - 1 }
}

// A visible line of the listing as it looks in a field, at the front of out, and how many bytes it has. A refusal
// leaves out as it was.
pub fn listing_line(
    b: board::Board,
    chars: &[u8],
    attrs: &[u8],
    words: &[u16],
    flags: &[u8],
    unshifted: &[u8],
    shifted: &[u8],
    groups: &[u8],
    line: units::Lines,
    field: u8,
    out: &mut [u8],
) -> Result<usize, Refusal>
    ensures { ListsLine b chars.now attrs.now
        (lent_font words flags unshifted shifted groups) line.0 field out.old result out.new }
{
    let room = room_for_dots(out.len());
    line::draw_line(
        b,
        chars,
        attrs,
        words,
        flags,
        unshifted,
        shifted,
        groups,
        line,
        field,
        &mut out[..room],
    )?;
    let n = timing::page_size(b.page)?.dots.places();
    finish_line(out, n);
    Ok(n + 1)
}
