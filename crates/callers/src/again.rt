// A file that is read, and written again.
ghost use Rattle.std.specs.Prelude.{◌≡◌, false, length};
ghost use Rattle.refusal.specs.Number.{value_or};
ghost use Rattle.board.specs.State.{power_of};
ghost use Rattle.board.specs.Layout.{file_size};
ghost use Rattle.files.specs.Page.{version_in};
ghost use Rattle.files.specs.File.{read_check, read_page_of};
ghost use Rattle.files.specs.FontFile.{font_size, font_check};
ghost use Rattle.feldrime.specs.Answers.{answer_of};
ghost use Rattle.callers.specs.Again.{again_check, written_again};
ghost use Rattle.callers.specs.Numbers.{numbers_again_check, numbers_again};

use feldrime::Answer;

// A page file that is accepted is written as the same bytes.
pub fn page_again(file: &[u8], out: &mut [u8]) -> Answer
    ensures { (result ≡ answer_of (again_check (read_check file.now false) (file_size (version_in file.now)) (length out.old)))
        × (out.new ≡ written_again (read_check file.now false) (file_size (version_in file.now)) file.now out.old) }
{
    let mut numbers = [0u8; 32];
    let mut chars = [0u8; 16384];
    let mut attrs = [0u8; 16384];
    let read = feldrime::feldrime_page_read(file, &mut numbers, &mut chars, &mut attrs);
    if read.refusal != 0 {
        return read;
    }
    feldrime::feldrime_page_write(&numbers, &chars, &attrs, out)
}

// The board of a page file; of one that is refused, the board that power gives.
pub fn board_or_power(file: &[u8]) -> board::Board
    ensures { result ≡ value_or power_of (read_page_of file.now false) }
{
    let mut chars = [0u8; 16384];
    let mut attrs = [0u8; 16384];
    files::read_page(file, &mut chars, &mut attrs).unwrap_or_default()
}

// A font file that is accepted is written as the same bytes. C has no call that writes a font.
pub fn font_again(file: &[u8], out: &mut [u8]) -> Answer
    ensures { (result ≡ answer_of (again_check (font_check file.now false) (font_size (version_in file.now)) (length out.old)))
        × (out.new ≡ written_again (font_check file.now false) (font_size (version_in file.now)) file.now out.old) }
{
    let mut words = [0u16; 1152];
    let mut flags = [0u8; 128];
    let mut unshifted = [0u8; 9];
    let mut shifted = [0u8; 9];
    let mut groups = [0u8; 16];
    let read = feldrime::feldrime_font_read(
        file,
        &mut words,
        &mut flags,
        &mut unshifted,
        &mut shifted,
        &mut groups,
    );
    if read.refusal != 0 {
        return Answer {
            refusal: read.refusal,
            beside: read.beside,
        };
    }
    let n = read.groups as usize;
    let refused = files::write_font(&words, &flags, &unshifted, &shifted, &groups[..n], out);
    Answer {
        refusal: refusal::number(refused),
        beside: refusal::beside(refused),
    }
}

// A page's numbers made a board, the board written and read again: the same numbers, and zeros where numbers are
// ignored.
pub fn numbers_again(numbers: &[u8], chars: &[u8], attrs: &[u8], out: &mut [u8]) -> Answer
    ensures { let c = length chars.now in let a = length attrs.now in
        (result ≡ answer_of (numbers_again_check numbers.now c a (length out.old)))
        × (out.new ≡ numbers_again numbers.now c a out.old) }
{
    let made = feldrime::feldrime_board_of(numbers);
    if made.refusal != 0 {
        return Answer {
            refusal: made.refusal,
            beside: made.beside,
        };
    }
    let board = made.board;
    let mut file = [0u8; files::LONGEST_PAGE];
    let refused = refusal::number(files::write_page(board, chars, attrs, &mut file));
    if refused != 0 {
        return Answer {
            refusal: refused,
            beside: 0,
        };
    }
    let n = files::file_size(board.page.version);
    let mut chars_read = [0u8; 16384];
    let mut attrs_read = [0u8; 16384];
    feldrime::feldrime_page_read(&file[..n], out, &mut chars_read, &mut attrs_read)
}
