#![tactic(auto)]
// A page's numbers as C has them: 32 bytes, the version first.
ghost use Rattle.std.specs.Prelude.{◌≡◌, ◌+◌, ◌≤◌, length, drop, replicate, IfOk};
ghost use Rattle.board.specs.Layout.{page_length};
ghost use Rattle.numbers.specs.Numbers.{numbers_refused, numbers_check, zeros_after, numbers_front, page_in, page_or_own, GivesNumbers};
ghost use Rattle.numbers.specs.Files.{ReadsFile, WritesFile};

use refusal::Refusal;

// 3, for a page's numbers.
pub fn numbers_refused(numbers: &[u8]) -> bool
    ensures { result ≡ numbers_refused numbers.now }
{
    (numbers.len() != 32) | files::version_refused(numbers, board::NEWEST_VERSION)
}

// The page check: 3, 12, 4, 13, 14, 15, 6.
pub fn numbers_check(numbers: &[u8]) -> Result<(), Refusal>
    ensures { result ≡ numbers_check numbers.now }
{
    if numbers_refused(numbers) {
        return Err(Refusal::Size);
    }
    timing::page_check(files::page_at(numbers, 1))
}

// The version and a page's bytes; what stands behind them stays.
fn put_front(version: u8, page: &[u8], numbers: &mut [u8])
    requires { 1 + length page.now ≤ length numbers.old }
    ensures { numbers.new ≡ numbers_front version page.now (drop (1 + length page.now) numbers.old) }
{
    numbers[0] = version;
    copies::put(page, 1, numbers);
}

fn clear(numbers: &mut [u8])
    requires { length numbers.old ≡ 32 }
    ensures { numbers.new ≡ replicate 32 0 }
{
    numbers.fill(0);
}

// The version, a page's bytes, and zeros.
fn put_numbers(version: u8, page: &[u8], numbers: &mut [u8])
    requires { (length page.now ≡ page_length version) × (length numbers.old ≡ 32) }
    ensures { numbers.new ≡ numbers_front version page.now (zeros_after version) }
{
    clear(numbers);
    put_front(version, page, numbers);
}

// A page in the place of the numbers' own. The bytes that are not looked at stay.
fn put_own(p: board::Page, numbers: &mut [u8])
    requires { (p.video.dots.0 ≤ 12) × (length numbers.old ≡ 32) }
    ensures { numbers.new ≡ page_in p numbers.old }
{
    numbers[0] = board::version_of(p);
    files::put_bytes(p, 1, numbers);
}

// The same of a board's page, if the board was not refused.
pub fn put_page(moved: Result<board::Board, Refusal>, numbers: &mut [u8])
    requires { (length numbers.old ≡ 32) × IfOk moved (λ b. b.page.video.dots.0 ≤ 12) }
    ensures { numbers.new ≡ page_or_own moved numbers.old }
{
    if let Ok(b) = moved {
        put_own(b.page, numbers);
    }
}

// Takes a page file apart: its numbers and the two memories. A refusal leaves them as they were.
pub fn read_file(
    file: &[u8],
    numbers: &mut [u8],
    chars: &mut [u8],
    attrs: &mut [u8],
) -> Result<(), Refusal>
    ensures { ReadsFile file.now numbers.old chars.old attrs.old
        result numbers.new chars.new attrs.new }
{
    let size = board::memories_refused(chars.len(), attrs.len()) | (numbers.len() != 32);
    files::read_check(file, size)?;
    files::read_page(file, chars, attrs)?;
    let end = files::chars_place(file[0]);
    put_numbers(file[0], &file[5..end], numbers);
    Ok(())
}

// Writes a page file at the front of out. A refusal leaves out as it was.
pub fn write_file(numbers: &[u8], chars: &[u8], attrs: &[u8], out: &mut [u8]) -> Result<(), Refusal>
    ensures { WritesFile numbers.now chars.now attrs.now out.old result out.new }
{
    if numbers_refused(numbers) {
        return Err(Refusal::Size);
    }
    files::write_page(files::board_at(numbers, 1), chars, attrs, out)
}

// A board's page as numbers. Nothing else of the board is looked at. A refusal leaves numbers as they were.
pub fn numbers_of(b: board::Board, numbers: &mut [u8]) -> Result<(), Refusal>
    ensures { GivesNumbers b numbers.old result numbers.new }
{
    if numbers.len() != 32 {
        return Err(Refusal::Size);
    }
    timing::page_check(b.page)?;
    clear(numbers);
    put_own(b.page, numbers);
    Ok(())
}
