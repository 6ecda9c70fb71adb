#![tactic(auto)]
// The calls as C makes them, by the names of include/feldrime.h. Each is that of `feldrime` and states its clauses
// again.
ghost use Rattle.std.specs.Prelude.{◌≡◌};
ghost use Rattle.board.specs.State.{power_of};
ghost use Rattle.shape.specs.Font.{lent_font, font_to_fill, left_font};
ghost use Rattle.records.specs.Records.{phrases_differ};
ghost use Rattle.numbers.specs.Numbers.{numbers_check};
ghost use Rattle.feldrime.specs.Answers.{archive_version, answer_of};
ghost use Rattle.feldrime.specs.Pages.{size_for, run_for, board_for, ReadsPageFor, WritesPageFor, ReadsFontFor, GivesNumbersFor};
ghost use Rattle.feldrime.specs.LineDraw.{DrawsLineFor};
ghost use Rattle.feldrime.specs.PictureDraw.{DrawsPictureFor};
ghost use Rattle.feldrime.specs.RowCells.{GivesCellsFor};
ghost use Rattle.feldrime.specs.Catalogue.{MovesToTableFor, MovesToSheetFor};
ghost use Rattle.feldrime.specs.Phrases.{phrase_for};
ghost use Rattle.feldrime.specs.Step.{StepsFor};
ghost use Rattle.feldrime.specs.Boards.{set_video_for, write_for, read_for, state_for};

use feldrime::{
    Answer, BoardAnswer, ByteAnswer, CellsAnswer, FontAnswer, RunAnswer, SizeAnswer, StepAnswer,
};

#[unsafe(no_mangle)]
pub extern "C" fn feldrime_version() -> u32
    ensures { result ≡ archive_version }
{
    feldrime::feldrime_version()
}

#[unsafe(no_mangle)]
pub extern "C" fn feldrime_page_check(numbers: &[u8]) -> Answer
    ensures { result ≡ answer_of (numbers_check numbers.now) }
{
    feldrime::feldrime_page_check(numbers)
}

#[unsafe(no_mangle)]
pub extern "C" fn feldrime_page_size(numbers: &[u8]) -> SizeAnswer
    ensures { result ≡ size_for numbers.now }
{
    feldrime::feldrime_page_size(numbers)
}

#[unsafe(no_mangle)]
pub extern "C" fn feldrime_page_read(
    file: &[u8],
    numbers: &mut [u8],
    chars: &mut [u8],
    attrs: &mut [u8],
) -> Answer
    ensures { ReadsPageFor file.now numbers.old chars.old attrs.old
        result numbers.new chars.new attrs.new }
{
    feldrime::feldrime_page_read(file, numbers, chars, attrs)
}

#[unsafe(no_mangle)]
pub extern "C" fn feldrime_page_write(
    numbers: &[u8],
    chars: &[u8],
    attrs: &[u8],
    out: &mut [u8],
) -> Answer
    ensures { WritesPageFor numbers.now chars.now attrs.now out.old result out.new }
{
    feldrime::feldrime_page_write(numbers, chars, attrs, out)
}

#[unsafe(no_mangle)]
pub extern "C" fn feldrime_font_read(
    file: &[u8],
    words: &mut [u16],
    flags: &mut [u8],
    unshifted: &mut [u8],
    shifted: &mut [u8],
    groups: &mut [u8],
) -> FontAnswer
    ensures { ReadsFontFor file.now (font_to_fill words flags unshifted shifted groups) result (left_font words flags unshifted shifted groups) }
{
    feldrime::feldrime_font_read(file, words, flags, unshifted, shifted, groups)
}

#[unsafe(no_mangle)]
pub extern "C" fn feldrime_line_draw(
    numbers: &[u8],
    chars: &[u8],
    attrs: &[u8],
    words: &[u16],
    flags: &[u8],
    unshifted: &[u8],
    shifted: &[u8],
    groups: &[u8],
    line: u32,
    field: u8,
    out: &mut [u8],
) -> Answer
    ensures { DrawsLineFor numbers.now chars.now attrs.now (lent_font words flags unshifted shifted groups)
        line field out.old result out.new }
{
    feldrime::feldrime_line_draw(
        numbers, chars, attrs, words, flags, unshifted, shifted, groups, line, field, out,
    )
}

#[unsafe(no_mangle)]
pub extern "C" fn feldrime_picture_draw(
    numbers: &[u8],
    chars: &[u8],
    attrs: &[u8],
    words: &[u16],
    flags: &[u8],
    unshifted: &[u8],
    shifted: &[u8],
    groups: &[u8],
    field: u8,
    out: &mut [u8],
) -> Answer
    ensures { DrawsPictureFor numbers.now chars.now attrs.now (lent_font words flags unshifted shifted groups)
        field out.old result out.new }
{
    feldrime::feldrime_picture_draw(
        numbers, chars, attrs, words, flags, unshifted, shifted, groups, field, out,
    )
}

#[unsafe(no_mangle)]
pub extern "C" fn feldrime_row_run(numbers: &[u8], chars: &[u8], row: u32) -> RunAnswer
    ensures { result ≡ run_for numbers.now chars.now row }
{
    feldrime::feldrime_row_run(numbers, chars, row)
}

#[unsafe(no_mangle)]
pub extern "C" fn feldrime_row_cells(
    numbers: &[u8],
    chars: &[u8],
    row: u32,
    cells: &mut [u16],
) -> CellsAnswer
    ensures { GivesCellsFor numbers.now chars.now row cells.old result cells.new }
{
    feldrime::feldrime_row_cells(numbers, chars, row, cells)
}

#[unsafe(no_mangle)]
pub extern "C" fn feldrime_to_table(numbers: &mut [u8], chars: &mut [u8]) -> Answer
    ensures { MovesToTableFor numbers.old chars.old result numbers.new chars.new }
{
    feldrime::feldrime_to_table(numbers, chars)
}

#[unsafe(no_mangle)]
pub extern "C" fn feldrime_to_sheet(numbers: &mut [u8], chars: &[u8]) -> Answer
    ensures { MovesToSheetFor numbers.old chars.now result numbers.new }
{
    feldrime::feldrime_to_sheet(numbers, chars)
}

#[unsafe(no_mangle)]
pub extern "C" fn feldrime_phrase_of_row(
    numbers: &[u8],
    chars: &[u8],
    phrases: &[records::Phrase],
    row: u32,
) -> records::PhraseAnswer
    ensures { result ≡ phrase_for numbers.now chars.now phrases.now row }
{
    feldrime::feldrime_phrase_of_row(numbers, chars, phrases, row)
}

#[unsafe(no_mangle)]
pub extern "C" fn feldrime_phrases_differ(phrases: &[records::Phrase]) -> records::PairAnswer
    ensures { result ≡ phrases_differ phrases.now }
{
    feldrime::feldrime_phrases_differ(phrases)
}

#[unsafe(no_mangle)]
pub extern "C" fn feldrime_power() -> board::Board
    ensures { result ≡ power_of }
{
    feldrime::feldrime_power()
}

#[unsafe(no_mangle)]
pub extern "C" fn feldrime_board_of(numbers: &[u8]) -> BoardAnswer
    ensures { result ≡ board_for numbers.now }
{
    feldrime::feldrime_board_of(numbers)
}

#[unsafe(no_mangle)]
pub extern "C" fn feldrime_numbers_of(b: board::Board, numbers: &mut [u8]) -> Answer
    ensures { GivesNumbersFor b numbers.old result numbers.new }
{
    feldrime::feldrime_numbers_of(b, numbers)
}

#[unsafe(no_mangle)]
pub extern "C" fn feldrime_set_video(
    b: board::Board,
    width: u8,
    strike: u8,
    bkgnd: u8,
    rblank: u8,
) -> BoardAnswer
    ensures { result ≡ set_video_for b width strike bkgnd rblank }
{
    feldrime::feldrime_set_video(b, width, strike, bkgnd, rblank)
}

#[unsafe(no_mangle)]
pub extern "C" fn feldrime_register_write(b: board::Board, address: u8, byte: u8) -> BoardAnswer
    ensures { result ≡ write_for b address byte }
{
    feldrime::feldrime_register_write(b, address, byte)
}

#[unsafe(no_mangle)]
pub extern "C" fn feldrime_register_read(b: board::Board, address: u8) -> ByteAnswer
    ensures { result ≡ read_for b address }
{
    feldrime::feldrime_register_read(b, address)
}

#[unsafe(no_mangle)]
pub extern "C" fn feldrime_state_at(
    b: board::Board,
    chars: &[u8],
    attrs: &[u8],
    n: u32,
) -> BoardAnswer
    ensures { result ≡ state_for b chars.now attrs.now n }
{
    feldrime::feldrime_state_at(b, chars, attrs, n)
}

#[unsafe(no_mangle)]
pub extern "C" fn feldrime_step(
    b: &mut board::Board,
    chars: &[u8],
    attrs: &[u8],
    words: &[u16],
    flags: &[u8],
    unshifted: &[u8],
    shifted: &[u8],
    groups: &[u8],
) -> StepAnswer
    ensures { StepsFor b.old chars.now attrs.now
        words.now flags.now unshifted.now shifted.now groups.now
        result b.new }
{
    feldrime::feldrime_step(b, chars, attrs, words, flags, unshifted, shifted, groups)
}
