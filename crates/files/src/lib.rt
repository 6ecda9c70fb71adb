#![tactic(auto)]
// Page and font files, read and written.
ghost use Rattle.std.specs.Prelude.{◌≡◌, ◌+◌, ◌*◌, ◌/◌, ◌%◌, ◌≤◌, ◌<◌, ◌++◌, length, take, drop, eqb};
ghost use Rattle.board.specs.Layout.{layout_of, page_length, length_field, chars_place, attrs_place, file_size};
ghost use Rattle.files.specs.Page.{word_at, starts_at, video_of, version_in, chip_at, irs_at, page_at, board_at, long_bytes, tail_of, page_bytes};
ghost use Rattle.files.specs.File.{long_at, version_refused, length_refused, file_check, read_check, page_head, file_of, write_check, ReadsPage, WritesPage};
ghost use Rattle.files.specs.FontFile.{words_of, byte_of, bytes_in, group_count, font_size, file_groups, font_check, font_version, font_head, font_file_of, font_write_check, ReadsFont, WritesFont};
ghost use Rattle.copies.specs.Put.{put_at};
ghost use Rattle.lists.specs.Choice.{pick};
ghost use Rattle.lists.specs.Tab.{tab};
ghost use Rattle.refusal.specs.Number.{unrefused};
ghost use Rattle.shape.specs.Font.{font_now, lent_font, font_to_fill, left_font, Whole};

use refusal::Refusal;

// Two bytes big-endian.
fn word_at(bytes: &[u8], i: usize) -> u16
    requires { i + 2 ≤ length bytes.now }
    ensures { result ≡ word_at bytes.now i }
{
    u16::from_be_bytes([bytes[i], bytes[i + 1]])
}

// The first n of a record's fifteen IRs; the others are zeros.
fn irs_at(bytes: &[u8], at: usize, n: usize) -> [u8; 15]
    requires { (at + n ≤ length bytes.now) × (n ≤ 15) }
    ensures { result ≡ irs_at n bytes.now at }
{
    let mut irs = [0u8; 15];
    copies::take_from(bytes, at, &mut irs[..n]);
    irs
}

// The three addresses.
fn starts_at(bytes: &[u8], at: usize) -> board::Starts
    requires { at + 6 ≤ length bytes.now }
    ensures { result ≡ starts_at bytes.now at }
{
    board::Starts {
        start1: word_at(bytes, at),
        cursor: word_at(bytes, at + 2),
        start2: word_at(bytes, at + 4),
    }
}

fn video(dots: u8, strike: u8, chip: u8) -> board::Video
    ensures { result ≡ video_of dots strike chip }
{
    board::Video {
        dots: units::Dots(dots as u32),
        strike,
        chip,
    }
}

// The chip, which stands in a page of version 3 alone.
fn chip_at(version: u8, bytes: &[u8], at: usize) -> u8
    requires { version ≡ 3 → at < length bytes.now }
    ensures { result ≡ chip_at version bytes.now at }
{
    if version == 3 {
        return bytes[at];
    }
    0
}

// The version, which stands first, and the bytes that stand between a page file's length and its character memory.
pub fn page_at(bytes: &[u8], at: usize) -> board::Page
    requires { at + page_length (version_in bytes.now) ≤ length bytes.now }
    ensures { result ≡ page_at bytes.now at }
{
    let version = bytes[0];
    let n = board::irs_of(version);
    let rest = at + n;
    board::Page {
        version,
        irs: irs_at(bytes, at, n),
        starts: starts_at(bytes, rest),
        switches: bytes[rest + 6],
        video: video(
            bytes[rest + 7],
            bytes[rest + 8],
            chip_at(version, bytes, rest + 9),
        ),
    }
}

// "A page read gives an active board at clock 0, pointer at IR0."
pub fn board_at(bytes: &[u8], at: usize) -> board::Board
    requires { at + page_length (version_in bytes.now) ≤ length bytes.now }
    ensures { result ≡ board_at bytes.now at }
{
    board::Board {
        page: page_at(bytes, at),
        place: board::clock_zero(),
        pointer: 0,
        resets: 2,
    }
}

// Four bytes big-endian.
fn long_at(bytes: &[u8], i: usize) -> u32
    requires { i + 4 ≤ length bytes.now }
    ensures { result ≡ long_at bytes.now i }
{
    u32::from_be_bytes([bytes[i], bytes[i + 1], bytes[i + 2], bytes[i + 3]])
}

// 1, where versions from 1 to the newest are known.
pub fn version_refused(file: &[u8], newest: u8) -> bool
    ensures { result ≡ version_refused file.now newest }
{
    if file.len() == 0 {
        return true;
    }
    !((1 <= file[0]) & (file[0] <= newest))
}

// 2, where n bytes follow the length.
fn length_refused(file: &[u8], n: u32) -> bool
    requires { n ≤ 65536 }
    ensures { result ≡ length_refused file.now n }
{
    if file.len() != n as usize + 5 {
        return true;
    }
    long_at(file, 1) != n
}

// 1, 2, 3, where n bytes follow the length: all that a page's check and a font's have in common.
#[tactic(auto, unfolding(crate::specs::File::file_check))]
fn file_check(file: &[u8], newest: u8, n: u32, size: bool) -> Result<(), Refusal>
    requires { n ≤ 65536 }
    ensures { result ≡ file_check file.now newest n size unrefused }
{
    if version_refused(file, newest) {
        return Err(Refusal::Version);
    }
    if length_refused(file, n) {
        return Err(Refusal::Length);
    }
    if size {
        return Err(Refusal::Size);
    }
    Ok(())
}

// Where a page file's character memory begins.
pub fn chars_place(version: u8) -> usize
    ensures { result ≡ chars_place version }
{
    board::page_length(version) + 5
}

// The bytes that follow a page file's length.
fn length_field(version: u8) -> u32
    ensures { (result ≡ length_field version) × (result < 65536) }
{
    board::page_length(version) as u32 + 32768
}

// The version byte, which says how long the file is; an empty file has none, which 1 refuses.
fn version_in(file: &[u8]) -> u8
    ensures { result ≡ version_in file.now }
{
    if file.len() == 0 {
        return 0;
    }
    file[0]
}

// 1, 2, 3, then the page's own; whether a lent part has a wrong size is the caller's to say.
pub fn read_check(file: &[u8], size: bool) -> Result<(), Refusal>
    ensures { result ≡ read_check file.now size }
{
    let n = length_field(version_in(file));
    file_check(file, board::NEWEST_VERSION, n, size)?;
    timing::page_check(page_at(file, 5))
}

// Reads a page file into the two memories, and gives the board of its page. A refusal leaves both as they were.
pub fn read_page(file: &[u8], chars: &mut [u8], attrs: &mut [u8]) -> Result<board::Board, Refusal>
    ensures { ReadsPage file.now chars.old attrs.old result chars.new attrs.new }
{
    let size = board::memories_refused(chars.len(), attrs.len());
    read_check(file, size)?;
    let start = chars_place(file[0]);
    copies::take_from(file, start, chars);
    copies::take_from(file, start + 16384, attrs);
    Ok(board_at(file, 5))
}

// The bytes that stand behind the IRs, the chip last.
fn tail_of(p: board::Page) -> [u8; 10]
    requires { p.video.dots.0 ≤ 12 }
    ensures { result ≡ tail_of p }
{
    let start1 = p.starts.start1.to_be_bytes();
    let cursor = p.starts.cursor.to_be_bytes();
    let start2 = p.starts.start2.to_be_bytes();
    [
        start1[0],
        start1[1],
        cursor[0],
        cursor[1],
        start2[0],
        start2[1],
        p.switches,
        p.video.dots.0 as u8,
        p.video.strike,
        p.video.chip,
    ]
}

// The bytes that `page_at` reads behind the version, put into out from a place on.
pub fn put_bytes(p: board::Page, at: usize, out: &mut [u8])
    requires { (p.video.dots.0 ≤ 12) × (at + page_length p.version ≤ length out.old) }
    ensures { out.new ≡ put_at at (page_bytes p) out.old }
{
    let irs = p.irs;
    let tail = tail_of(p);
    let layout = board::layout_of(p.version);
    let n = layout.irs;
    let rest = layout.rest;
    copies::put(&irs[..n], at, out);
    copies::put(&tail[..rest], at + n, out);
}

// The version and the length in four bytes.
fn head_of(p: board::Page) -> [u8; 5]
    ensures { result ≡ page_head p }
{
    let n = length_field(p.version).to_be_bytes();
    [board::version_of(p), n[0], n[1], n[2], n[3]]
}

// A page's file into the front of out; bytes beyond it stay.
fn put_file(p: board::Page, chars: &[u8], attrs: &[u8], out: &mut [u8])
    requires { (p.video.dots.0 ≤ 12)
        × (length chars.now ≡ 16384) × (length attrs.now ≡ 16384) × (file_size p.version ≤ length out.old) }
    ensures { out.new ≡ file_of p chars.now attrs.now ++ drop (file_size p.version) out.old }
{
    let head = head_of(p);
    let start = chars_place(p.version);
    copies::put(&head, 0, out);
    put_bytes(p, 5, out);
    copies::put(chars, start, out);
    copies::put(attrs, start + 16384, out);
}

// How long the longest page file is: an array's length is a constant.
pub const LONGEST_PAGE: usize = 32798;

// How long a page file is.
pub fn file_size(version: u8) -> usize
    ensures { result ≡ file_size version }
{
    board::page_length(version) + 32773
}

// 3, 12, 4, 13, 14, 15, 6, 7.
fn write_check(b: board::Board, chars: usize, attrs: usize, out: usize) -> Result<(), Refusal>
    ensures { result ≡ write_check b chars attrs out }
{
    let short = out < file_size(b.page.version);
    let size = board::memories_refused(chars, attrs) | short;
    timing::call_check(b, refusal::wrong_size(size), false, false)
}

// Writes a board's page and its memories as a page file. A refusal leaves out as it was.
pub fn write_page(
    b: board::Board,
    chars: &[u8],
    attrs: &[u8],
    out: &mut [u8],
) -> Result<(), Refusal>
    ensures { WritesPage b chars.now attrs.now out.old result out.new }
{
    write_check(b, chars.len(), attrs.len(), out.len())?;
    put_file(b.page, chars, attrs, out);
    Ok(())
}

// As many words as dst has room for.
fn read_words(src: &[u8], dst: &mut [u16])
    requires { 2 * length dst.old ≤ length src.now }
    ensures { dst.new ≡ words_of (length dst.old) src.now }
{
    for (i, word) in dst.iter_mut().enumerate() {
        *word = word_at(src, 2 * i);
    }
}

fn byte_of(words: &[u16], k: usize) -> u8
    requires { k + 1 ≤ 2 * length words.now }
    ensures { result ≡ byte_of words.now k }
{
    words[k / 2].to_be_bytes()[k % 2]
}

// As many bytes of the words as dst has room for.
fn write_words(src: &[u16], dst: &mut [u8])
    requires { length dst.old ≤ 2 * length src.now }
    ensures { dst.new ≡ tab (length dst.old) (byte_of src.now) }
{
    for (i, byte) in dst.iter_mut().enumerate() {
        *byte = byte_of(src, i);
    }
}

// How many groups a font file has.
fn group_count(version: u8) -> usize
    ensures { result ≡ group_count version }
{
    if version == 2 {
        return 16;
    }
    0
}

// How many groups this one has.
pub fn groups_in(file: &[u8]) -> usize
    ensures { result ≡ group_count (version_in file.now) }
{
    group_count(version_in(file))
}

// How long the longest font file is.
pub const LONGEST_FONT: usize = 2471;

// How long a font file is.
fn font_size(version: u8) -> usize
    ensures { result ≡ font_size version }
{
    2455 + group_count(version)
}

// 1, 2, 3, then 12; whether a lent part has a wrong size is the caller's to say.
fn font_check(file: &[u8], size: bool) -> Result<(), Refusal>
    ensures { result ≡ font_check file.now size }
{
    let n = font_size(version_in(file)) - 5;
    file_check(file, 2, n as u32, size)?;
    shape::groups_check(&file[2455..])
}

// The groups of a file of version 2.
fn read_groups(file: &[u8], groups: &mut [u8])
    requires { version_in file.now ≡ 2 → (2471 ≤ length file.now) × (length groups.old ≡ 16) }
    ensures { groups.new ≡ pick (eqb (version_in file.now) 2) (file_groups file.now) groups.old }
{
    if version_in(file) == 2 {
        copies::take_from(file, 2455, groups);
    }
}

// Reads a font file into the five parts. A refusal leaves them as they were, and a file without groups the lent groups.
pub fn read_font(
    file: &[u8],
    words: &mut [u16],
    flags: &mut [u8],
    unshifted: &mut [u8],
    shifted: &mut [u8],
    groups: &mut [u8],
) -> Result<(), Refusal>
    ensures { ReadsFont file.now (font_to_fill words flags unshifted shifted groups) result (left_font words flags unshifted shifted groups) }
{
    let size = shape::font_refused(words, flags, unshifted, shifted, groups)
        | ((version_in(file) == 2) & (groups.len() == 0));
    font_check(file, size)?;
    read_words(&file[5..2309], words);
    copies::take_from(file, 2309, flags);
    copies::take_from(file, 2437, unshifted);
    copies::take_from(file, 2446, shifted);
    read_groups(file, groups);
    Ok(())
}

// The words of a font into a font file, from a place on.
fn put_words(words: &[u16], at: usize, out: &mut [u8])
    requires { (length words.now ≡ 1152) × (at + 2304 ≤ length out.old) }
    ensures { out.new ≡ put_at at (bytes_in words.now) out.old }
{
    let end = at + 2304;
    write_words(words, &mut out[at..end]);
}

// A font with groups is of version 2.
fn font_version(groups: usize) -> u8
    ensures { result ≡ pick (eqb groups 0) 1 2 }
{
    if groups == 0 {
        return 1;
    }
    2
}

// The version, and the length in four bytes.
fn font_head(version: u8) -> [u8; 5]
    ensures { result ≡ font_head version }
{
    let n = (font_size(version) as u32 - 5).to_be_bytes();
    [version, n[0], n[1], n[2], n[3]]
}

// A font's file into the front of out; bytes beyond it stay.
fn put_font(
    words: &[u16],
    flags: &[u8],
    unshifted: &[u8],
    shifted: &[u8],
    groups: &[u8],
    out: &mut [u8],
)
    requires { Whole (font_now words flags unshifted shifted groups)
        × (font_size (font_version (font_now words flags unshifted shifted groups)) ≤ length out.old) }
    ensures { out.new ≡ font_file_of (lent_font words flags unshifted shifted groups)
        ++ drop (font_size (font_version (lent_font words flags unshifted shifted groups))) out.old }
{
    let head = font_head(font_version(groups.len()));
    copies::put(&head, 0, out);
    put_words(words, 5, out);
    copies::put(flags, 2309, out);
    copies::put(unshifted, 2437, out);
    copies::put(shifted, 2446, out);
    copies::put(groups, 2455, out);
}

// 3, then 12.
fn font_write_check(
    words: &[u16],
    flags: &[u8],
    unshifted: &[u8],
    shifted: &[u8],
    groups: &[u8],
    out: usize,
) -> Result<(), Refusal>
    ensures { result ≡ font_write_check (lent_font words flags unshifted shifted groups) out }
{
    if shape::font_refused(words, flags, unshifted, shifted, groups)
        | (out < font_size(font_version(groups.len())))
    {
        return Err(Refusal::Size);
    }
    shape::groups_check(groups)
}

// Writes a font as a font file. A refusal leaves out as it was.
pub fn write_font(
    words: &[u16],
    flags: &[u8],
    unshifted: &[u8],
    shifted: &[u8],
    groups: &[u8],
    out: &mut [u8],
) -> Result<(), Refusal>
    ensures { WritesFont (lent_font words flags unshifted shifted groups) out.old result out.new }
{
    font_write_check(words, flags, unshifted, shifted, groups, out.len())?;
    put_font(words, flags, unshifted, shifted, groups, out);
    Ok(())
}
