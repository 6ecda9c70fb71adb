// An index of phrases, as columns of numbers.
ghost use Rattle.std.specs.Prelude.{◌≡◌, true, ◌&&◌, ◌+◌, ◌<◌, leb, ltb, length, get_or};
ghost use Rattle.callers.specs.Index.{all_held, two_of};

use records::{PairAnswer, PhraseAnswer};

// Whether a cell is one of a record's, first to first + length - 1.
fn covers(first: u32, length: u32, cell: u16) -> bool
    ensures { result ≡ (leb first cell && ltb cell (first + length)) }
{
    (first <= cell as u32) & ((cell as u64) < first as u64 + length as u64)
}

// The same of the record at a position.
fn covers_at(firsts: &[u32], lengths: &[u32], i: usize, cell: u16) -> bool
    requires { (i < length firsts.now) × (i < length lengths.now) }
    ensures { let first = get_or firsts.now i 0 in
        result ≡ (leb first cell && ltb cell (first + get_or lengths.now i 0)) }
{
    covers(firsts[i], lengths[i], cell)
}

// The record that is found for a row has each of the row's cells: any one of them, by its column.
pub fn found_holds(
    b: board::Board,
    chars: &[u8],
    languages: &[u32],
    numbers: &[u32],
    firsts: &[u32],
    lengths: &[u32],
    row: u32,
    column: usize,
) -> bool
    ensures { result ≡ true }
{
    let answer = columns::record_of_row(b, chars, languages, numbers, firsts, lengths, row);
    let mut cells = [0u16; 256];
    let Ok(count) = fetch::row_cells(b, chars, row, &mut cells) else {
        return true;
    };
    if (answer.found == 0) | (count <= column) {
        return true;
    }
    covers_at(firsts, lengths, answer.position, cells[column])
}

// A record of all cells is found for every row that is not refused. What a column has beyond the shortest is no record:
// here it would be a bad one.
pub fn all_held(b: board::Board, chars: &[u8], language: u32, number: u32, row: u32) -> PhraseAnswer
    ensures { result ≡ all_held b chars.now row }
{
    let languages = [language; 1];
    let numbers = [number; 1];
    let firsts = [0u32; 2];
    let lengths = [16384, 0];
    columns::record_of_row(b, chars, &languages, &numbers, &firsts, &lengths, row)
}

// Both calls tell the same bad record of a row that is not refused, and a refused row is told by the number of its run.
pub fn refused_alike(
    b: board::Board,
    chars: &[u8],
    languages: &[u32],
    numbers: &[u32],
    firsts: &[u32],
    lengths: &[u32],
    row: u32,
) -> bool
    ensures { result ≡ true }
{
    let one = columns::record_of_row(b, chars, languages, numbers, firsts, lengths, row);
    let two = columns::records_differ(languages, numbers, firsts, lengths);
    if let Err(why) = fetch::span_of(b, chars, row) {
        let number = refusal::number(Err(why));
        let beside = refusal::beside(Err(why));
        return (one.refusal == number) & (one.beside == beside) & (one.found == 0);
    }
    (one.refusal == two.refusal)
        & (one.beside == 0)
        & (two.beside == 0)
        & ((one.refusal == 0) | (one.position == two.earlier))
}

// Of two records: the first bad one, else the two where they disagree, else none.
pub fn two_compared(p: records::Phrase, q: records::Phrase) -> PairAnswer
    ensures { result ≡ two_of p q }
{
    let languages = [p.language, q.language];
    let numbers = [p.number, q.number];
    let firsts = [p.first, q.first];
    let lengths = [p.length, q.length];
    columns::records_differ(&languages, &numbers, &firsts, &lengths)
}
