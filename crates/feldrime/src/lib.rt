#![tactic(auto)]
// The calls, which `feldrime_c` hands to C. Only numbers and slices cross; every call checks what it is given, so none
// has a condition to meet.
ghost use Rattle.std.specs.Prelude.{◌≡◌};
ghost use Rattle.board.specs.State.{power_of};
ghost use Rattle.shape.specs.Font.{lent_font, font_to_fill, left_font};
ghost use Rattle.records.specs.Records.{phrases_differ};
ghost use Rattle.refusal.specs.Number.{given, check_of};
ghost use Rattle.numbers.specs.Numbers.{numbers_check, numbers_board};
ghost use Rattle.feldrime.specs.Answers.{archive_version, answer_of, board_given};
ghost use Rattle.feldrime.specs.Pages.{size_for, run_for, board_for, ReadsPageFor, WritesPageFor, groups_read, ReadsFontFor, GivesNumbersFor};
ghost use Rattle.feldrime.specs.LineDraw.{DrawsLineFor};
ghost use Rattle.feldrime.specs.PictureDraw.{DrawsPictureFor};
ghost use Rattle.feldrime.specs.RowCells.{GivesCellsFor};
ghost use Rattle.feldrime.specs.Catalogue.{MovesToTableFor, MovesToSheetFor};
ghost use Rattle.feldrime.specs.Phrases.{phrase_for, asked_for};
ghost use Rattle.feldrime.specs.Step.{numbered, step_numbers, StepsFor};
ghost use Rattle.feldrime.specs.Boards.{set_video_for, write_for, read_for, state_for};

use refusal::Refusal;

pub fn feldrime_version() -> u32
    ensures { result ≡ archive_version }
{
    8
}

// The refusal's number, and the number beside it.
#[repr(C)]
#[derive(Clone, Copy, PartialEq, Eq)]
pub struct Answer {
    pub refusal: u32,
    pub beside: u32,
}

fn answered(checked: Result<(), Refusal>) -> Answer
    ensures { result ≡ answer_of checked }
{
    Answer {
        refusal: refusal::number(checked),
        beside: refusal::beside(checked),
    }
}

pub fn feldrime_page_check(numbers: &[u8]) -> Answer
    ensures { result ≡ answer_of (numbers_check numbers.now) }
{
    answered(numbers::numbers_check(numbers))
}

// Visible lines, and dots in a line.
#[repr(C)]
#[derive(Clone, Copy)]
pub struct SizeAnswer {
    pub refusal: u32,
    pub beside: u32,
    pub lines: u32,
    pub dots: u32,
}

pub fn feldrime_page_size(numbers: &[u8]) -> SizeAnswer
    ensures { result ≡ size_for numbers.now }
{
    if numbers::numbers_refused(numbers) {
        return SizeAnswer {
            refusal: 3,
            beside: 0,
            lines: 0,
            dots: 0,
        };
    }
    match timing::page_size(files::page_at(numbers, 1)) {
        Ok(size) => SizeAnswer {
            refusal: 0,
            beside: 0,
            lines: size.lines.0,
            dots: size.dots.0,
        },
        Err(why) => SizeAnswer {
            refusal: refusal::number(Err(why)),
            beside: refusal::beside(Err(why)),
            lines: 0,
            dots: 0,
        },
    }
}

// Reads a page file: its numbers and the two memories. A refusal leaves them as they were.
pub fn feldrime_page_read(
    file: &[u8],
    numbers: &mut [u8],
    chars: &mut [u8],
    attrs: &mut [u8],
) -> Answer
    ensures { ReadsPageFor file.now numbers.old chars.old attrs.old
        result numbers.new chars.new attrs.new }
{
    let refused = numbers::read_file(file, numbers, chars, attrs);
    answered(refused)
}

// Writes a page file at the front of out.
pub fn feldrime_page_write(numbers: &[u8], chars: &[u8], attrs: &[u8], out: &mut [u8]) -> Answer
    ensures { WritesPageFor numbers.now chars.now attrs.now out.old result out.new }
{
    let refused = numbers::write_file(numbers, chars, attrs, out);
    answered(refused)
}

// How many groups a font has, 0 or 16.
#[repr(C)]
#[derive(Clone, Copy)]
pub struct FontAnswer {
    pub refusal: u32,
    pub beside: u32,
    pub groups: u32,
}

fn groups_read(checked: Result<(), Refusal>, file: &[u8]) -> u32
    ensures { result ≡ groups_read checked file.now }
{
    if checked.is_ok() {
        return files::groups_in(file) as u32;
    }
    0
}

// Reads a font file into the five parts. A refusal leaves them as they were, and a file without groups the lent groups.
pub fn feldrime_font_read(
    file: &[u8],
    words: &mut [u16],
    flags: &mut [u8],
    unshifted: &mut [u8],
    shifted: &mut [u8],
    groups: &mut [u8],
) -> FontAnswer
    ensures { ReadsFontFor file.now (font_to_fill words flags unshifted shifted groups) result (left_font words flags unshifted shifted groups) }
{
    let refused = files::read_font(file, words, flags, unshifted, shifted, groups);
    FontAnswer {
        refusal: refusal::number(refused),
        beside: refusal::beside(refused),
        groups: groups_read(refused, file),
    }
}

// Draws a visible line as it looks in a field, HACT x dots bytes at the front of out.
pub fn feldrime_line_draw(
    numbers: &[u8],
    chars: &[u8],
    attrs: &[u8],
    words: &[u16],
    flags: &[u8],
    unshifted: &[u8],
    shifted: &[u8],
    groups: &[u8],
    line: u32,
    field: u8,
    out: &mut [u8],
) -> Answer
    ensures { DrawsLineFor numbers.now chars.now attrs.now (lent_font words flags unshifted shifted groups)
        line field out.old result out.new }
{
    if numbers::numbers_refused(numbers) {
        return answered(Err(Refusal::Size));
    }
    let b = files::board_at(numbers, 1);
    let refused = line::draw_line(
        b,
        chars,
        attrs,
        words,
        flags,
        unshifted,
        shifted,
        groups,
        units::Lines(line),
        field,
        out,
    );
    answered(refused)
}

// Draws all visible lines as they look in a field, end to end at the front of out.
pub fn feldrime_picture_draw(
    numbers: &[u8],
    chars: &[u8],
    attrs: &[u8],
    words: &[u16],
    flags: &[u8],
    unshifted: &[u8],
    shifted: &[u8],
    groups: &[u8],
    field: u8,
    out: &mut [u8],
) -> Answer
    ensures { DrawsPictureFor numbers.now chars.now attrs.now (lent_font words flags unshifted shifted groups)
        field out.old result out.new }
{
    if numbers::numbers_refused(numbers) {
        return answered(Err(Refusal::Size));
    }
    let b = files::board_at(numbers, 1);
    let refused = picture::draw_picture(
        b, chars, attrs, words, flags, unshifted, shifted, groups, field, out,
    );
    answered(refused)
}

// A row's first run of cells: from an address on, so many.
#[repr(C)]
#[derive(Clone, Copy)]
pub struct RunAnswer {
    pub refusal: u32,
    pub beside: u32,
    pub first: u32,
    pub count: u32,
}

pub fn feldrime_row_run(numbers: &[u8], chars: &[u8], row: u32) -> RunAnswer
    ensures { result ≡ run_for numbers.now chars.now row }
{
    if numbers::numbers_refused(numbers) {
        return RunAnswer {
            refusal: 3,
            beside: 0,
            first: 0,
            count: 0,
        };
    }
    match fetch::span_of(files::board_at(numbers, 1), chars, row) {
        Ok(span) => RunAnswer {
            refusal: 0,
            beside: 0,
            first: span.start as u32,
            count: span.count as u32,
        },
        Err(why) => RunAnswer {
            refusal: refusal::number(Err(why)),
            beside: refusal::beside(Err(why)),
            first: 0,
            count: 0,
        },
    }
}

// How many cells a row has; their addresses are put into a lent buffer.
#[repr(C)]
#[derive(Clone, Copy)]
pub struct CellsAnswer {
    pub refusal: u32,
    pub beside: u32,
    pub count: u32,
}

// The addresses of all cells that a row fetches, column by column, at the front of cells.
pub fn feldrime_row_cells(numbers: &[u8], chars: &[u8], row: u32, cells: &mut [u16]) -> CellsAnswer
    ensures { GivesCellsFor numbers.now chars.now row cells.old result cells.new }
{
    if numbers::numbers_refused(numbers) {
        return CellsAnswer {
            refusal: 3,
            beside: 0,
            count: 0,
        };
    }
    match fetch::row_cells(files::board_at(numbers, 1), chars, row, cells) {
        Ok(count) => CellsAnswer {
            refusal: 0,
            beside: 0,
            count: count as u32,
        },
        Err(why) => CellsAnswer {
            refusal: refusal::number(Err(why)),
            beside: refusal::beside(Err(why)),
            count: 0,
        },
    }
}

fn answered_move(moved: Result<board::Board, Refusal>) -> Answer
    ensures { result ≡ answer_of (check_of moved) }
{
    match moved {
        Ok(_) => answered(Ok(())),
        Err(why) => answered(Err(why)),
    }
}

// A sheet becomes a page with a row table: its numbers and character memory are altered where they stand.
pub fn feldrime_to_table(numbers: &mut [u8], chars: &mut [u8]) -> Answer
    ensures { MovesToTableFor numbers.old chars.old result numbers.new chars.new }
{
    if numbers::numbers_refused(numbers) {
        return answered(Err(Refusal::Size));
    }
    let moved = catalogue::to_table(files::board_at(numbers, 1), chars);
    numbers::put_page(moved, numbers);
    answered_move(moved)
}

// A page whose rows follow one another becomes a sheet: its numbers are altered where they stand.
pub fn feldrime_to_sheet(numbers: &mut [u8], chars: &[u8]) -> Answer
    ensures { MovesToSheetFor numbers.old chars.now result numbers.new }
{
    if numbers::numbers_refused(numbers) {
        return answered(Err(Refusal::Size));
    }
    let moved = catalogue::to_sheet(files::board_at(numbers, 1), chars);
    numbers::put_page(moved, numbers);
    answered_move(moved)
}

// What a row asks of each record.
fn numbers_asked(numbers: &[u8], chars: &[u8], row: u32) -> Result<records::Ends, Refusal>
    ensures { result ≡ asked_for numbers.now chars.now row }
{
    if numbers::numbers_refused(numbers) {
        return Err(Refusal::Size);
    }
    records::row_asked(files::board_at(numbers, 1), chars, row)
}

// The lowest record that holds the whole of what a row fetches.
pub fn feldrime_phrase_of_row(
    numbers: &[u8],
    chars: &[u8],
    phrases: &[records::Phrase],
    row: u32,
) -> records::PhraseAnswer
    ensures { result ≡ phrase_for numbers.now chars.now phrases.now row }
{
    let asked = numbers_asked(numbers, chars, row);
    phrases::search(phrases, records::Asked::from(asked))
}

// The first two records with the same language and number that differ in first cell or length.
pub fn feldrime_phrases_differ(phrases: &[records::Phrase]) -> records::PairAnswer
    ensures { result ≡ phrases_differ phrases.now }
{
    phrases::phrases_differ(phrases)
}

// An answer that carries a board.
#[repr(C)]
#[derive(Clone, Copy)]
pub struct BoardAnswer {
    pub refusal: u32,
    pub beside: u32,
    pub board: board::Board,
}

// The board that a call gives, or on a refusal another.
fn with_board(given: Result<board::Board, Refusal>, other: board::Board) -> BoardAnswer
    ensures { result ≡ board_given given other }
{
    match given {
        Ok(board) => BoardAnswer {
            refusal: 0,
            beside: 0,
            board,
        },
        Err(why) => BoardAnswer {
            refusal: refusal::number(Err(why)),
            beside: refusal::beside(Err(why)),
            board: other,
        },
    }
}

pub fn feldrime_power() -> board::Board
    ensures { result ≡ power_of }
{
    board::power()
}

// An active board at clock 0, pointer at IR0.
fn board_in(numbers: &[u8]) -> Result<board::Board, Refusal>
    ensures { result ≡ given (numbers_check numbers.now) (numbers_board numbers.now) }
{
    numbers::numbers_check(numbers)?;
    Ok(files::board_at(numbers, 1))
}

// The same; on a refusal the board that power gives.
#[tactic(auto, unfolding(crate::specs::Pages::board_for))]
pub fn feldrime_board_of(numbers: &[u8]) -> BoardAnswer
    ensures { result ≡ board_for numbers.now }
{
    with_board(board_in(numbers), board::power())
}

// A board's page as numbers, the way back.
pub fn feldrime_numbers_of(b: board::Board, numbers: &mut [u8]) -> Answer
    ensures { GivesNumbersFor b numbers.old result numbers.new }
{
    let refused = numbers::numbers_of(b, numbers);
    answered(refused)
}

pub fn feldrime_set_video(
    b: board::Board,
    width: u8,
    strike: u8,
    bkgnd: u8,
    rblank: u8,
) -> BoardAnswer
    ensures { result ≡ set_video_for b width strike bkgnd rblank }
{
    let set = registers::set_video(
        b,
        units::Dots(width as u32),
        strike,
        bkgnd != 0,
        rblank != 0,
    );
    with_board(set, b)
}

pub fn feldrime_register_write(b: board::Board, address: u8, byte: u8) -> BoardAnswer
    ensures { result ≡ write_for b address byte }
{
    with_board(registers::write(b, address, byte), b)
}

#[repr(C)]
#[derive(Clone, Copy)]
pub struct ByteAnswer {
    pub refusal: u32,
    pub beside: u32,
    pub byte: u32,
}

pub fn feldrime_register_read(b: board::Board, address: u8) -> ByteAnswer
    ensures { result ≡ read_for b address }
{
    match registers::read(b, address) {
        Ok(byte) => ByteAnswer {
            refusal: 0,
            beside: 0,
            byte: byte as u32,
        },
        Err(why) => ByteAnswer {
            refusal: refusal::number(Err(why)),
            beside: refusal::beside(Err(why)),
            byte: 0,
        },
    }
}

// The board at clock n, counted from clock 0.
pub fn feldrime_state_at(b: board::Board, chars: &[u8], attrs: &[u8], n: u32) -> BoardAnswer
    ensures { result ≡ state_for b chars.now attrs.now n }
{
    with_board(place::state_at(b, chars, attrs, units::Clocks(n)), b)
}

// What a step answers: a signal is 0 or 1, the dots are bytes as in a drawn line.
#[repr(C)]
#[derive(Clone, Copy)]
pub struct StepAnswer {
    pub refusal: u32,
    pub beside: u32,
    pub hsync: u32,
    pub vsync: u32,
    pub blank: u32,
    pub cursor: u32,
    pub blink: u32,
    pub address: u32,
    pub dots: [u8; 12],
}

#[repr(C)]
#[derive(Clone, Copy)]
pub struct StepBy {
    pub answer: StepAnswer,
    pub board: board::Board,
}

fn number_of(s: step::Stepped) -> StepAnswer
    ensures { result ≡ numbered s }
{
    let refused = s.refusal;
    let dots = s.dots;
    StepAnswer {
        refusal: refusal::number(refused),
        beside: refusal::beside(refused),
        hsync: u32::from(s.signals.hsync),
        vsync: u32::from(s.signals.vsync),
        blank: u32::from(s.signals.blank),
        cursor: u32::from(s.signals.cursor),
        blink: u32::from(s.signals.blink),
        address: s.address as u32,
        dots: dots,
    }
}

// The step by value, with numbers only.
pub fn step_numbers(
    b: board::Board,
    chars: &[u8],
    attrs: &[u8],
    words: &[u16],
    flags: &[u8],
    unshifted: &[u8],
    shifted: &[u8],
    groups: &[u8],
) -> StepBy
    ensures { result ≡ step_numbers b chars.now attrs.now
        words.now flags.now unshifted.now shifted.now groups.now }
{
    let s = step::step(b, chars, attrs, words, flags, unshifted, shifted, groups);
    let next = s.board;
    StepBy {
        answer: number_of(s),
        board: next,
    }
}

// One clock: the board is altered where it stands.
pub fn feldrime_step(
    b: &mut board::Board,
    chars: &[u8],
    attrs: &[u8],
    words: &[u16],
    flags: &[u8],
    unshifted: &[u8],
    shifted: &[u8],
    groups: &[u8],
) -> StepAnswer
    ensures { StepsFor b.old chars.now attrs.now
        words.now flags.now unshifted.now shifted.now groups.now
        result b.new }
{
    let s = step_numbers(*b, chars, attrs, words, flags, unshifted, shifted, groups);
    *b = s.board;
    s.answer
}
