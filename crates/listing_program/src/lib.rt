#![tactic(auto)]
// The listing program but for C's `main` (programs/listing). It reads a page file, then a font file, from standard
// input and writes the listing or the refusal to standard output.
ghost use Rattle.std.specs.Prelude.{◌≤◌, length};
ghost use Rattle.refusal.specs.Number.{value_or};
ghost use Rattle.io.specs.Counts.{IsPrefixLen};

use listing::{listing_head, listing_line};
use refusal::Refusal;
use units::Unit;

const STDIN: i32 = 0;

const STDOUT: i32 = 1;

// Reads until the buffer is full or the input ends, or reading fails: C's errno tells the last two apart. What was read
// stands at the front of the buffer.
// No law of one answer: what it reads no contract of the kit can say.
pub fn feldrime_listing_read(buf: &mut [u8]) -> usize
    ensures { IsPrefixLen result buf.new }
{
    io::read_full(STDIN, buf)
}

// Reads a page file, which is as long as its version byte says.
// No law of one answer: what it reads no contract of the kit can say.
pub fn feldrime_listing_read_page(file: &mut [u8]) -> usize
    requires { 32798 ≤ length file.old }
    ensures { IsPrefixLen result file.new }
{
    let first = feldrime_listing_read(&mut file[..1]);
    if first == 0 {
        return first;
    }
    let size = files::file_size(file[0]);
    let rest = feldrime_listing_read(&mut file[1..size]);
    rest + 1
}

fn print_refusal(why: Refusal) -> bool {
    io::write_all(STDOUT, b"refused ")
        && io::print_decimal(STDOUT, refusal::number(Err(why)) as u64)
        && io::write_all(STDOUT, b"\n")
}

// Writes what was listed, which stands at the front of out.
fn print(listed: Result<usize, Refusal>, out: &[u8]) -> bool
    requires { value_or 0 listed ≤ length out.now }
{
    let count = match listed {
        Ok(count) => count,
        Err(_) => 0,
    };
    io::write_all(STDOUT, &out[..count])
}

// The head and every visible line, as in field 0. The buffer has room for 256 cells of 12 dots and a line feed.
fn print_listing(
    b: board::Board,
    chars: &[u8],
    attrs: &[u8],
    words: &[u16],
    flags: &[u8],
    unshifted: &[u8],
    shifted: &[u8],
    groups: &[u8],
) -> bool {
    let page = b.page;
    let mut out = [0u8; 3073];
    let head = listing_head(page, &mut out);
    if !print(head, &out) {
        return false;
    }
    for line in 0..timing::visible_of(page).places() {
        let line = units::Lines(line as u32);
        let listed = listing_line(
            b, chars, attrs, words, flags, unshifted, shifted, groups, line, 0, &mut out,
        );
        if !print(listed, &out) {
            return false;
        }
    }
    true
}

// What C's `main` is told: all was written, or writing failed, or the page was accepted and nothing is written yet.
// 1 is its own, for input that cannot be read.
const WRITTEN: u32 = 0;

const UNWRITTEN: u32 = 2;

const ACCEPTED: u32 = 3;

fn ending(written: bool) -> u32 {
    if written { WRITTEN } else { UNWRITTEN }
}

// The page was accepted; now the font.
fn list_page(b: board::Board, chars: &[u8], attrs: &[u8], font: &[u8]) -> u32 {
    let mut words = [0u16; 1152];
    let mut flags = [0u8; 128];
    let mut unshifted = [0u8; 9];
    let mut shifted = [0u8; 9];
    let mut groups = [0u8; 16];
    if let Err(why) = files::read_font(
        font,
        &mut words,
        &mut flags,
        &mut unshifted,
        &mut shifted,
        &mut groups,
    ) {
        return ending(print_refusal(why));
    }
    let k = files::groups_in(font);
    let lent = &groups[..k];
    ending(print_listing(b, chars, attrs, &words, &flags, &unshifted, &shifted, lent))
}

// Writes why the page file is refused, before the font file is read.
// No law of one answer: what it prints no contract of the kit can say. It is proved to end and to index nothing out of
// range, given that each `write` of C returns.
pub fn feldrime_listing_page(page: &[u8]) -> u32 {
    let mut chars = [0u8; 16384];
    let mut attrs = [0u8; 16384];
    match files::read_page(page, &mut chars, &mut attrs) {
        Ok(_) => ACCEPTED,
        Err(why) => ending(print_refusal(why)),
    }
}

// Writes the listing, or why a file is refused.
// No law of one answer: what it prints no contract of the kit can say. It is proved to end and to index nothing out of
// range, given that each `write` of C returns.
pub fn feldrime_listing(page: &[u8], font: &[u8]) -> u32 {
    let mut chars = [0u8; 16384];
    let mut attrs = [0u8; 16384];
    match files::read_page(page, &mut chars, &mut attrs) {
        Ok(b) => list_page(b, &chars, &attrs, font),
        Err(why) => ending(print_refusal(why)),
    }
}
