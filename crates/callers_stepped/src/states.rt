// A state asked for, and stepped to.
ghost use Rattle.std.specs.Prelude.{◌≡◌, ◌+◌};
ghost use Rattle.shape.specs.Font.{lent_font};
ghost use Rattle.callers_stepped.specs.States.{stepped_to};

use feldrime::BoardAnswer;

// The state for any clock, asked for and stepped on, is what `feldrime_state_at` answers so many clocks later,
// wherever a step answers 0; else a step's own answer and the old board.
pub fn stepped_to(
    b: board::Board,
    chars: &[u8],
    attrs: &[u8],
    words: &[u16],
    flags: &[u8],
    unshifted: &[u8],
    shifted: &[u8],
    groups: &[u8],
    from: u32,
    steps: u32,
) -> BoardAnswer
    ensures { result ≡ stepped_to b chars.now attrs.now (lent_font words flags unshifted shifted groups) (from + steps) }
{
    let tried = feldrime::step_numbers(b, chars, attrs, words, flags, unshifted, shifted, groups);
    let refused = tried.answer.refusal;
    if refused != 0 {
        return BoardAnswer {
            refusal: refused,
            beside: tried.answer.beside,
            board: b,
        };
    }
    let asked = feldrime::feldrime_state_at(b, chars, attrs, from);
    let mut at = asked.board;
    for _ in 0..steps {
        let s = feldrime::step_numbers(at, chars, attrs, words, flags, unshifted, shifted, groups);
        at = s.board;
    }
    BoardAnswer {
        refusal: 0,
        beside: 0,
        board: at,
    }
}
