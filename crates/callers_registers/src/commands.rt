// The commands, written at address 1.
ghost use Rattle.std.specs.Prelude.{◌≡◌, true, false, ◌+◌, ◌-◌, ◌≤◌, Err};
ghost use Rattle.refusal.specs.declared.Refusal.{Refusal};
ghost use Rattle.refusal.specs.Number.{unrefused};
ghost use Rattle.board.specs.State.{power_of};
ghost use Rattle.board.specs.Layout.{last_ir};
ghost use Rattle.feldrime.specs.Answers.{board_answer};
ghost use Rattle.callers_registers.specs.Ready.{Ready};
ghost use Rattle.callers_registers.specs.Commands.{loaded_first, loaded_at, switching, switched_by, carried};

use feldrime::BoardAnswer;

// Two resets in a row make the board that power gives active: the next write at 0 loads IR0.
pub fn woken(byte: u8) -> BoardAnswer
    ensures { result ≡ board_answer unrefused (loaded_first byte) }
{
    let off = feldrime::feldrime_power();
    let once = feldrime::feldrime_register_write(off, 1, 0);
    let one = once.board;
    let twice = feldrime::feldrime_register_write(one, 1, 0);
    let two = twice.board;
    feldrime::feldrime_register_write(two, 0, byte)
}

// After one reset it is not: a write at 0 loads nothing, and the reset no longer counts.
pub fn half_woken(byte: u8) -> BoardAnswer
    ensures { result ≡ board_answer unrefused power_of }
{
    let off = feldrime::feldrime_power();
    let once = feldrime::feldrime_register_write(off, 1, 0);
    let one = once.board;
    feldrime::feldrime_register_write(one, 0, byte)
}

// From 10 hex up to the last IR of the page: the next write at 0 loads the register that the command names, and no
// other.
pub fn pointed_load(b: board::Board, command: u8, byte: u8) -> BoardAnswer
    ensures { Ready b → 16 ≤ command → command ≤ last_ir b.page.version + 16 → result ≡ board_answer unrefused (loaded_at b (command - 16) byte) }
{
    let pointed = feldrime::feldrime_register_write(b, 1, command);
    let board = pointed.board;
    feldrime::feldrime_register_write(board, 0, byte)
}

// Two commands for display and cursor: each is as the last command says that names it, else as it was.
pub fn switched(b: board::Board, first: u8, second: u8) -> BoardAnswer
    ensures { Ready b → switching first ≡ true → switching second ≡ true → result ≡ board_answer unrefused (switched_by b first second) }
{
    let once = feldrime::feldrime_register_write(b, 1, first);
    let board = once.board;
    feldrime::feldrime_register_write(board, 1, second)
}

// Every other byte is refused by 10, and the board stays.
pub fn not_carried(b: board::Board, command: u8) -> BoardAnswer
    ensures { Ready b → carried b.page command ≡ false → result ≡ board_answer (Err Refusal.Command) b }
{
    feldrime::feldrime_register_write(b, 1, command)
}
