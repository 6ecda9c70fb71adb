// The calls that take a page's numbers alone. C has a struct for each of their answers, so `==` does not compare them.
ghost use Rattle.std.specs.Prelude.{◌≡◌, true};

// The check, the size and the board of any numbers answer the same, with the same number beside it, and on a refusal
// the size is 0 by 0.
pub fn numbers_agree(numbers: &[u8]) -> bool
    ensures { result ≡ true }
{
    let checked = feldrime::feldrime_page_check(numbers);
    let size = feldrime::feldrime_page_size(numbers);
    let made = feldrime::feldrime_board_of(numbers);
    let refused = checked.refusal;
    (size.refusal == refused)
        & (size.beside == checked.beside)
        & (made.refusal == refused)
        & (made.beside == checked.beside)
        & ((refused == 0) | ((size.lines == 0) & (size.dots == 0)))
}
