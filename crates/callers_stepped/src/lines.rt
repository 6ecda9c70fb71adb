// A line drawn by stepping, dot by dot, beside the line drawn whole.
ghost use Rattle.std.specs.Prelude.{◌≡◌, true, ◌<◌, length};
ghost use Rattle.timing.specs.Fields.{visible_of};
ghost use Rattle.agreement.specs.Lines.{clock_of};
ghost use Rattle.shape.specs.Font.{font_now, lent_font};
ghost use Rattle.units.specs.Units.{clocks};
ghost use Rattle.line.specs.Line.{line_over};
ghost use Rattle.feldrime.specs.Answers.{answer_of};
ghost use Rattle.feldrime.specs.LineDraw.{line_draw_check, DrawsLineFor};
ghost use Rattle.callers_stepped.specs.Asked.{alone_of};
ghost use Rattle.callers_stepped.specs.Lines.{Steppable};

use feldrime::Answer;
use units::Unit;

// The board's clock at the first dot of a line, in the frame whose number is the field's.
fn clock_of(b: board::Board, line: units::Lines, field: u8) -> units::Clocks
    requires { line.0 < (visible_of b.page).0 }
    ensures { result ≡ clocks (clock_of b field line.0 0) }
{
    let page = b.page;
    let t = timing::timing_of(page);
    let frame = t.counts.vt;
    let before = frame.times(field as u32);
    units::clocks_of(before.plus(line), t.counts.ht)
}

// The dots of the active clocks of a line, a number as C gives it, each clock's into its own stretch of out.
fn step_line(
    out: &mut [u8],
    b: board::Board,
    chars: &[u8],
    attrs: &[u8],
    words: &[u16],
    flags: &[u8],
    unshifted: &[u8],
    shifted: &[u8],
    groups: &[u8],
    line: u32,
    field: u8,
)
    requires { Steppable b chars.now attrs.now (font_now words flags unshifted shifted groups) line (length out.old) }
    ensures { out.new ≡ line_over b chars.now attrs.now (lent_font words flags unshifted shifted groups) line field out.old }
{
    let page = b.page;
    let t = timing::timing_of(page);
    let n = t.counts.hact.0 as usize;
    let first = clock_of(b, units::Lines(line), field);
    let asked = feldrime::feldrime_state_at(b, chars, attrs, first.0);
    let mut at = asked.board;
    for c in 0..n {
        let d = b.page.video.dots.0 as usize;
        let a = c * d;
        let s = feldrime::step_numbers(at, chars, attrs, words, flags, unshifted, shifted, groups);
        let dots = s.answer.dots;
        out[a..a + d].copy_from_slice(&dots[..d]);
        at = s.board;
    }
}

// A number with none beside it.
fn alone(number: u32) -> Answer
    ensures { result ≡ alone_of number }
{
    Answer {
        refusal: number,
        beside: 0,
    }
}

// What the call that draws answers, from the calls that step. A step answers 3 and 12 for what is lent whatever the
// board is, and the page of a board that was made, or of power's, has no 12 of its own.
fn line_answer(
    numbers: &[u8],
    chars: &[u8],
    attrs: &[u8],
    words: &[u16],
    flags: &[u8],
    unshifted: &[u8],
    shifted: &[u8],
    groups: &[u8],
    line: u32,
    room: usize,
) -> Answer
    ensures { let f = lent_font words flags unshifted shifted groups in
        result ≡ answer_of (line_draw_check numbers.now chars.now attrs.now f line room) }
{
    let made = feldrime::feldrime_board_of(numbers);
    if made.refusal == 3 {
        return alone(3);
    }
    let board = made.board;
    let tried = feldrime::step_numbers(
        board, chars, attrs, words, flags, unshifted, shifted, groups,
    );
    if tried.answer.refusal == 3 {
        return alone(3);
    }
    if tried.answer.refusal == 12 {
        return alone(12);
    }
    if made.refusal != 0 {
        return Answer {
            refusal: made.refusal,
            beside: made.beside,
        };
    }
    let size = feldrime::feldrime_page_size(numbers);
    if size.lines <= line {
        return alone(7);
    }
    if room < size.dots as usize {
        return alone(8);
    }
    alone(0)
}

// Draws a visible line as it looks in a field by stepping, dot by dot: the contract is that of `feldrime_line_draw`.
pub fn line_by_steps(
    numbers: &[u8],
    chars: &[u8],
    attrs: &[u8],
    words: &[u16],
    flags: &[u8],
    unshifted: &[u8],
    shifted: &[u8],
    groups: &[u8],
    line: u32,
    field: u8,
    out: &mut [u8],
) -> Answer
    ensures { DrawsLineFor numbers.now chars.now attrs.now (lent_font words flags unshifted shifted groups)
        line field out.old result out.new }
{
    let room = out.len();
    let answer = line_answer(
        numbers, chars, attrs, words, flags, unshifted, shifted, groups, line, room,
    );
    if answer.refusal == 0 {
        let made = feldrime::feldrime_board_of(numbers);
        let board = made.board;
        step_line(
            out, board, chars, attrs, words, flags, unshifted, shifted, groups, line, field,
        );
    }
    answer
}

// The two ways to draw from C, over the same numbers: the same answer, and what was the same in both buffers is the
// same again.
pub fn drawn_both_ways(
    numbers: &[u8],
    chars: &[u8],
    attrs: &[u8],
    words: &[u16],
    flags: &[u8],
    unshifted: &[u8],
    shifted: &[u8],
    groups: &[u8],
    line: u32,
    field: u8,
    out: &mut [u8],
    other: &mut [u8],
) -> bool
    ensures { out.old ≡ other.old → (result ≡ true) × (out.new ≡ other.new) }
{
    let whole = feldrime::feldrime_line_draw(
        numbers, chars, attrs, words, flags, unshifted, shifted, groups, line, field, out,
    );
    let stepped = line_by_steps(
        numbers, chars, attrs, words, flags, unshifted, shifted, groups, line, field, other,
    );
    whole == stepped
}
