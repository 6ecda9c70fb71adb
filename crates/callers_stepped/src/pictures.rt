// A picture, and one of its lines drawn again over it.
ghost use Rattle.shape.specs.Font.{lent_font};
ghost use Rattle.feldrime.specs.PictureDraw.{DrawsPictureFor};

use feldrime::Answer;

// Any visible line that `feldrime_line_draw` draws over the picture stands there already: the contract is that of
// `feldrime_picture_draw`.
pub fn line_over_picture(
    numbers: &[u8],
    chars: &[u8],
    attrs: &[u8],
    words: &[u16],
    flags: &[u8],
    unshifted: &[u8],
    shifted: &[u8],
    groups: &[u8],
    line: u32,
    field: u8,
    out: &mut [u8],
) -> Answer
    ensures { DrawsPictureFor numbers.now chars.now attrs.now (lent_font words flags unshifted shifted groups)
        field out.old result out.new }
{
    let drawn = feldrime::feldrime_picture_draw(
        numbers, chars, attrs, words, flags, unshifted, shifted, groups, field, out,
    );
    if drawn.refusal != 0 {
        return drawn;
    }
    let size = feldrime::feldrime_page_size(numbers);
    if line < size.lines {
        let a = line as usize * size.dots as usize;
        feldrime::feldrime_line_draw(
            numbers,
            chars,
            attrs,
            words,
            flags,
            unshifted,
            shifted,
            groups,
            line,
            field,
            &mut out[a..],
        );
    }
    drawn
}
