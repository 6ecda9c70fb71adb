// A sheet moved to a row table, and back.
ghost use Rattle.std.specs.Prelude.{◌≡◌};
ghost use Rattle.feldrime.specs.Answers.{answer_of};
ghost use Rattle.feldrime.specs.Catalogue.{to_table_check, to_table_chars};
ghost use Rattle.callers.specs.Moved.{returned_numbers};

use feldrime::Answer;

// The way back is not refused, and of the numbers only screen start 2 has changed; memory is as the way there left it.
pub fn table_then_sheet(numbers: &mut [u8], chars: &mut [u8]) -> Answer
    ensures { (result ≡ answer_of (to_table_check numbers.old chars.old))
        × (numbers.new ≡ returned_numbers numbers.old chars.old)
        × (chars.new ≡ to_table_chars numbers.old chars.old) }
{
    let there = feldrime::feldrime_to_table(numbers, chars);
    if there.refusal != 0 {
        return there;
    }
    feldrime::feldrime_to_sheet(numbers, chars)
}
