// A row's text: the codes of its cells, as a program reads them by the cells that it is answered.
ghost use Rattle.std.specs.Prelude.{◌≡◌, true, ◌++◌, ◌≤◌, length, take, drop};
ghost use Rattle.lists.specs.Tab.{tab};
ghost use Rattle.callers.specs.Texts.{Readable, code_by, row_text};

// The codes of n cells, at the front of text.
fn put_codes(chars: &[u8], cells: &[u16], n: usize, text: &mut [u8])
    requires { Readable chars.now cells.now n (length text.old) }
    ensures { text.new ≡ tab n (code_by chars.now cells.now) ++ drop n text.old }
{
    for c in 0..n {
        text[c] = chars[cells[c] as usize];
    }
}

// Each cell that is answered lies in character memory, and its code is what the row shows there. Text without room
// for the row, or of a refused row, stays.
pub fn row_text(numbers: &[u8], chars: &[u8], row: u32, text: &mut [u8])
    ensures { text.new ≡ row_text numbers.now chars.now row text.old }
{
    let mut cells = [0u16; 256];
    let given = feldrime::feldrime_row_cells(numbers, chars, row, &mut cells);
    let n = given.count as usize;
    if n <= text.len() {
        put_codes(chars, &cells, n, text);
    }
}

// That text begins with the row's run.
pub fn text_begins<'a>(numbers: &[u8], chars: &'a [u8], row: u32, text: &mut [u8]) -> &'a [u8]
    ensures { 256 ≤ length text.old → take (length result.now) text.new ≡ result.now }
{
    row_text(numbers, chars, row, text);
    crate::runs::run_taken(numbers, chars, row)
}

// Both calls refuse a row by the same number, with the same beside it, and its cells are at least as many as its run
// has.
pub fn cells_agree(numbers: &[u8], chars: &[u8], row: u32) -> bool
    ensures { result ≡ true }
{
    let mut cells = [0u16; 256];
    let given = feldrime::feldrime_row_cells(numbers, chars, row, &mut cells);
    let run = feldrime::feldrime_row_run(numbers, chars, row);
    (given.refusal == run.refusal) & (given.beside == run.beside) & (run.count <= given.count)
}
