// A refusal stands beside the old board.
ghost use Rattle.std.specs.Prelude.{◌≡◌};

use feldrime::BoardAnswer;

// A write that is refused gives the old board.
pub fn written_or_kept(b: board::Board, address: u8, byte: u8) -> BoardAnswer
    ensures { (result.refusal ≡ 0 → ⊥) → result.board ≡ b }
{
    feldrime::feldrime_register_write(b, address, byte)
}

// So do video numbers that are refused.
pub fn set_or_kept(b: board::Board, dots: u8, strike: u8, bkgnd: u8, rblank: u8) -> BoardAnswer
    ensures { (result.refusal ≡ 0 → ⊥) → result.board ≡ b }
{
    feldrime::feldrime_set_video(b, dots, strike, bkgnd, rblank)
}

// And a state that is refused.
pub fn state_or_kept(b: board::Board, chars: &[u8], attrs: &[u8], n: u32) -> BoardAnswer
    ensures { (result.refusal ≡ 0 → ⊥) → result.board ≡ b }
{
    feldrime::feldrime_state_at(b, chars, attrs, n)
}
