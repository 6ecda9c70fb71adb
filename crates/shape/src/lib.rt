#![tactic(auto)]
// The character generator (002): from a code, a scan line and the font to ten dots.
ghost use Rattle.std.specs.Prelude.{◌≡◌, ◌<◌, length};
ghost use Rattle.shape.specs.Font.{font_refused, groups_refused, groups_check, position_of, group_in, font_line_of, font_lines_of, font_line_at, chosen_by, font_word, pair_of, graphics_word, word_by, lent_font};
ghost use Rattle.shape.specs.Laws.{weight_of};

use refusal::Refusal;
use units::Unit;

// What a scan line takes from a font: the first position in each of its two lists that equals the scan line, or the
// list's length; and its group.
#[derive(Clone, Copy)]
pub struct FontLine {
    pub unshifted: usize,
    pub shifted: usize,
    pub group: u8,
}

// The same for each of the sixteen scan lines.
#[derive(Clone, Copy)]
pub struct FontLines {
    pub each: [FontLine; 16],
}

// The first position in a list of line numbers that equals the scan line, or the list's length. Four bits of a line
// number count.
fn position(list: &[u8], scan: units::Lines) -> usize
    ensures { result ≡ position_of list.now scan.0 }
{
    list.iter()
        .position(|line| units::Lines(*line as u32 % 16) == scan)
        .unwrap_or(list.len())
}

// The group of a scan line; a font without groups has none.
fn group_at(groups: &[u8], s: usize) -> u8
    ensures { result ≡ group_in groups.now s }
{
    groups.get(s).copied().unwrap_or(0)
}

pub fn font_line(unshifted: &[u8], shifted: &[u8], groups: &[u8], scan: units::Lines) -> FontLine
    ensures { result ≡ font_line_of unshifted.now shifted.now groups.now scan.0 }
{
    FontLine {
        unshifted: position(unshifted, scan),
        shifted: position(shifted, scan),
        group: group_at(groups, scan.places()),
    }
}

pub fn font_lines(unshifted: &[u8], shifted: &[u8], groups: &[u8]) -> FontLines
    ensures { result ≡ font_lines_of unshifted.now shifted.now groups.now }
{
    FontLines {
        each: std::array::from_fn(|s| {
            font_line(unshifted, shifted, groups, units::Lines(s as u32))
        }),
    }
}

// One of them.
pub fn font_line_at(lines: FontLines, scan: units::Lines) -> FontLine
    requires { scan.0 < 16 }
    ensures { result ≡ font_line_at lines scan.0 }
{
    lines.each[scan.places()]
}

// 3, for the five parts of a font.
pub fn font_refused(
    words: &[u16],
    flags: &[u8],
    unshifted: &[u8],
    shifted: &[u8],
    groups: &[u8],
) -> bool
    ensures { result ≡ font_refused (lent_font words flags unshifted shifted groups) }
{
    (words.len() != 1152)
        | (flags.len() != 128)
        | (unshifted.len() != 9)
        | (shifted.len() != 9)
        | ((groups.len() != 0) & (groups.len() != 16))
}

// A group above 4. The compiler makes vectors of a loop that always goes to the end.
fn groups_refused(groups: &[u8]) -> bool
    ensures { result ≡ groups_refused groups.now }
{
    let mut above = false;
    for group in groups {
        above |= 4 < *group;
    }
    above
}

// 12, for the groups.
pub fn groups_check(groups: &[u8]) -> Result<(), Refusal>
    ensures { result ≡ groups_check groups.now }
{
    if groups_refused(groups) {
        return Err(Refusal::Address);
    }
    Ok(())
}

// The font word at a position of a character; past the nine there is none.
fn font_word(words: &[u16], character: usize, position: usize) -> u16
    requires { (character < 128) × (length words.now ≡ 1152) }
    ensures { result ≡ font_word words.now character position }
{
    if position < 9 {
        words[character * 9 + position] % 1024
    } else {
        0
    }
}

// The shift flag chooses a list.
fn chosen(flag: u8, line: FontLine) -> usize
    ensures { result ≡ chosen_by flag line }
{
    if flag == 0 {
        line.unshifted
    } else {
        line.shifted
    }
}

// What a code is multiplied by so that a group's pair stands where CA6 and CA7 do. It is the same for all cells of a
// line, so it is worked out once.
fn weight(group: u8) -> u16
    ensures { result ≡ weight_of group }
{
    match group {
        1 => 64,
        2 => 16,
        3 => 4,
        4 => 1,
        _ => 0,
    }
}

// The pair of the code's bits that a group puts out: CA0 and CA1 for group 1, up to CA6 and CA7 for group 4.
fn pair_of(group: u8, code: u8) -> u16
    ensures { (result ≡ pair_of group code) × (result < 4) }
{
    code as u16 * weight(group) / 64 % 4
}

// Five dots of the one bit, then five of its neighbour.
pub fn graphics_word(group: u8, code: u8) -> u16
    ensures { result ≡ graphics_word group code }
{
    let pair = pair_of(group, code);
    31 * (pair % 2) + 992 * (pair / 2)
}

// The word that a code shows on a scan line, in graphics mode or not.
#[tactic(auto, unfolding(crate::specs::Font::word_by))]
pub fn word_by(words: &[u16], flags: &[u8], line: FontLine, graphics: bool, code: u8) -> u16
    requires { (length words.now ≡ 1152) × (length flags.now ≡ 128) }
    ensures { result ≡ word_by words.now flags.now line graphics code }
{
    if graphics {
        return graphics_word(line.group, code);
    }
    if code < 128 {
        return 0;
    }
    let character = (code % 128) as usize;
    font_word(words, character, chosen(flags[character], line))
}
