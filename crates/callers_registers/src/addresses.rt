// The address registers, 2 to 7: what is written is kept, and nothing else is touched.
ghost use Rattle.std.specs.Prelude.{◌≡◌, ◌≤◌};
ghost use Rattle.refusal.specs.Number.{unrefused};
ghost use Rattle.feldrime.specs.Answers.{board_answer, byte_answer};
ghost use Rattle.callers_registers.specs.Ready.{Ready};
ghost use Rattle.callers_registers.specs.Addresses.{kept_at};

use feldrime::{BoardAnswer, ByteAnswer};

// A byte written there is read there, six bits of it in an upper register.
pub fn read_again(b: board::Board, address: u8, byte: u8) -> ByteAnswer
    ensures { Ready b → 2 ≤ address → address ≤ 7 → result ≡ byte_answer unrefused (kept_at address byte) }
{
    let put = feldrime::feldrime_register_write(b, address, byte);
    let board = put.board;
    feldrime::feldrime_register_read(board, address)
}

// The byte that was read there before, written back, makes it the old board again.
pub fn put_back(b: board::Board, address: u8, byte: u8) -> BoardAnswer
    ensures { Ready b → 2 ≤ address → address ≤ 7 → result ≡ board_answer unrefused b }
{
    let old = feldrime::feldrime_register_read(b, address);
    let put = feldrime::feldrime_register_write(b, address, byte);
    let board = put.board;
    feldrime::feldrime_register_write(board, address, old.byte as u8)
}
