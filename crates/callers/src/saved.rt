// A board's page saved as numbers, and made a board again.
ghost use Rattle.std.specs.Prelude.{◌≡◌, length};
ghost use Rattle.feldrime.specs.Answers.{answer_of};
ghost use Rattle.callers.specs.Saved.{saved_board, saved_check, saved_numbers};

use feldrime::{Answer, BoardAnswer};

// A board that is saved and made again has its page, with its version as it counts, at clock 0 on an active board.
pub fn saved_again(b: board::Board) -> BoardAnswer
    ensures { result ≡ saved_board b }
{
    let mut numbers = [0u8; 32];
    let saved = feldrime::feldrime_numbers_of(b, &mut numbers);
    if saved.refusal != 0 {
        return BoardAnswer {
            refusal: saved.refusal,
            beside: saved.beside,
            board: feldrime::feldrime_power(),
        };
    }
    feldrime::feldrime_board_of(&numbers)
}

// Numbers that are made a board and saved are the same numbers, and zeros where numbers are ignored.
pub fn numbers_saved(numbers: &[u8], out: &mut [u8]) -> Answer
    ensures { (result ≡ answer_of (saved_check numbers.now (length out.old)))
        × (out.new ≡ saved_numbers numbers.now out.old) }
{
    let made = feldrime::feldrime_board_of(numbers);
    if made.refusal != 0 {
        return Answer {
            refusal: made.refusal,
            beside: made.beside,
        };
    }
    let board = made.board;
    feldrime::feldrime_numbers_of(board, out)
}
