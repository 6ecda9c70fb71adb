// A row's first run, by C and by Rattle.
ghost use Rattle.std.specs.Prelude.{◌≡◌, true, ◌+◌};
ghost use Rattle.callers.specs.Runs.{run_part, run_start};

// What C takes from character memory, by the first address and the count that it is answered, is the row's run: the
// same cells at the same place; none on a refusal.
pub fn run_taken<'a>(numbers: &[u8], chars: &'a [u8], row: u32) -> &'a [u8]
    ensures { (result.now ≡ run_part numbers.now chars.now row)
        × (result.ref_ptr.0 ≡ chars.entry.ref_ptr.0)
        × (result.ref_ptr.1 ≡ chars.entry.ref_ptr.1 + run_start numbers.now chars.now row) }
{
    let asked = feldrime::feldrime_row_run(numbers, chars, row);
    let from = asked.first as usize;
    let to = from + asked.count as usize;
    &chars[from..to]
}

// On a board of an accepted page's numbers both answer the same number, and the count is the part's length.
pub fn runs_agree(numbers: &[u8], chars: &[u8], row: u32) -> bool
    ensures { result ≡ true }
{
    let made = feldrime::feldrime_board_of(numbers);
    if made.refusal != 0 {
        return true;
    }
    let asked = feldrime::feldrime_row_run(numbers, chars, row);
    let board = made.board;
    let mut refused = 0;
    let part = fetch::row_run(board, chars, row, &mut refused);
    (asked.refusal == refused) & (asked.count as usize == part.len())
}
