// Dots, strike line, BKGND and RBLANK, which C sets.
ghost use Rattle.std.specs.Prelude.{◌≡◌, not, eqb};
ghost use Rattle.units.specs.Units.{dots};
ghost use Rattle.registers.specs.Video.{video_set};
ghost use Rattle.callers_registers.specs.Videos.{video_number};

use feldrime::BoardAnswer;

// The video numbers that a board has already leave it as it is. More than 255 dots are no byte, and are not asked for.
pub fn same_video(b: board::Board) -> BoardAnswer
    ensures { result.board ≡ b }
{
    let dots = b.page.video.dots.0;
    let switches = b.page.switches;
    if dots > 255 {
        return BoardAnswer {
            refusal: 6,
            beside: 0,
            board: b,
        };
    }
    feldrime::feldrime_set_video(
        b,
        dots as u8,
        b.page.video.strike,
        switches / 4 % 2,
        switches / 8 % 2,
    )
}

// Numbers that were set before, or refused, leave no trace: those set last are judged as on the old board, and where
// they are taken the board is the old one with exactly these.
pub fn set_twice(
    b: board::Board,
    old_width: u8,
    old_strike: u8,
    old_bkgnd: u8,
    old_rblank: u8,
    width: u8,
    strike: u8,
    bkgnd: u8,
    rblank: u8,
) -> BoardAnswer
    ensures { (result.refusal ≡ video_number b (dots width) strike)
        × (result.refusal ≡ 0 → result.board ≡ video_set b (dots width) strike (not (eqb bkgnd 0)) (not (eqb rblank 0))) }
{
    let once = feldrime::feldrime_set_video(b, old_width, old_strike, old_bkgnd, old_rblank);
    let board = once.board;
    feldrime::feldrime_set_video(board, width, strike, bkgnd, rblank)
}
