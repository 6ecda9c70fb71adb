// A page moved to a row table and back, drawn over its picture and stepped.
ghost use Rattle.std.specs.Prelude.{◌≡◌};
ghost use Rattle.shape.specs.Font.{lent_font};
ghost use Rattle.feldrime.specs.PictureDraw.{DrawsPictureFor};
ghost use Rattle.agreement.specs.FromC.{step_c};

use feldrime::{Answer, StepAnswer};

// What either move leaves, refused or not, has the picture that stands there already: the contract is that of
// `feldrime_picture_draw`.
pub fn moved_over_picture(
    numbers: &mut [u8],
    chars: &mut [u8],
    attrs: &[u8],
    words: &[u16],
    flags: &[u8],
    unshifted: &[u8],
    shifted: &[u8],
    groups: &[u8],
    field: u8,
    out: &mut [u8],
) -> Answer
    ensures { DrawsPictureFor numbers.old chars.old attrs.now (lent_font words flags unshifted shifted groups)
        field out.old result out.new }
{
    feldrime::feldrime_to_table(numbers, chars);
    feldrime::feldrime_picture_draw(
        numbers, chars, attrs, words, flags, unshifted, shifted, groups, field, out,
    );
    feldrime::feldrime_to_sheet(numbers, chars);
    feldrime::feldrime_picture_draw(
        numbers, chars, attrs, words, flags, unshifted, shifted, groups, field, out,
    )
}

// What a step answers after n single steps, from the board that the numbers describe.
fn step_after(
    numbers: &[u8],
    chars: &[u8],
    attrs: &[u8],
    words: &[u16],
    flags: &[u8],
    unshifted: &[u8],
    shifted: &[u8],
    groups: &[u8],
    n: u32,
) -> StepAnswer
    ensures { result ≡ step_c numbers.now chars.now attrs.now words.now flags.now unshifted.now shifted.now groups.now n }
{
    let made = feldrime::feldrime_board_of(numbers);
    let start = made.board;
    let reached = crate::states::stepped_to(
        start, chars, attrs, words, flags, unshifted, shifted, groups, 0, n,
    );
    let board = reached.board;
    let s = feldrime::step_numbers(
        board, chars, attrs, words, flags, unshifted, shifted, groups,
    );
    s.answer
}

// What either move leaves, refused or not, is answered the same at every step: the contract is that of the numbers
// and memory handed over.
pub fn moved_step(
    there: bool,
    numbers: &mut [u8],
    chars: &mut [u8],
    attrs: &[u8],
    words: &[u16],
    flags: &[u8],
    unshifted: &[u8],
    shifted: &[u8],
    groups: &[u8],
    n: u32,
) -> StepAnswer
    ensures { result ≡ step_c numbers.old chars.old attrs.now words.now flags.now unshifted.now shifted.now groups.now n }
{
    if there {
        feldrime::feldrime_to_table(numbers, chars);
        return step_after(
            numbers, chars, attrs, words, flags, unshifted, shifted, groups, n,
        );
    }
    feldrime::feldrime_to_sheet(numbers, chars);
    step_after(
        numbers, chars, attrs, words, flags, unshifted, shifted, groups, n,
    )
}
