#![tactic(auto)]
// What the processor writes and reads (003 Tables 1, 4 and 6), and the video setting.
ghost use Rattle.std.specs.Prelude.{◌≡◌, max, ◌≤◌, ◌-◌, ◌+◌};
ghost use Rattle.lists.specs.Choice.{pick};
ghost use Rattle.board.specs.Layout.{last_ir};
ghost use Rattle.registers.specs.Write.{register_check, broken_of, reset_of, pointed_of, point_of, next_pointer, loaded_of, lower_of, upper_of, starts_after, started_of, switches_after, switched_of, command_of, active_of, inactive_of, write_of};
ghost use Rattle.registers.specs.Read.{shown_at, read_at, read_of};
ghost use Rattle.registers.specs.Video.{video_check, with_dots, video_set, set_video_of};

use refusal::Refusal;

// What every register call asks of the board: 12, then 7 for the pointer.
#[tactic(auto, unfolding(crate::specs::Write::register_check))]
fn register_check(b: board::Board) -> Result<(), Refusal>
    ensures { result ≡ register_check b }
{
    if board::address_refused(b.page) {
        return Err(Refusal::Address);
    }
    if board::pointer_refused(b.page, b.pointer) {
        return Err(Refusal::Range);
    }
    Ok(())
}

// A write that is no reset, on an inactive board.
fn broken(b: board::Board) -> board::Board
    ensures { result ≡ broken_of b }
{
    board::Board { resets: 0, ..b }
}

fn reset(b: board::Board) -> board::Board
    ensures { result ≡ reset_of b }
{
    let resets = if b.resets == 0 { 1 } else { 2 };
    board::Board {
        page: board::Page {
            switches: b.page.switches / 4 * 4,
            ..b.page
        },
        place: board::clock_zero(),
        pointer: 0,
        resets,
    }
}

fn pointed(b: board::Board, at: u8) -> board::Board
    ensures { result ≡ pointed_of b at }
{
    board::Board { pointer: at, ..b }
}

// The pointer moves on and stays at the last IR.
fn next_pointer(last: u8, at: u8) -> u8
    requires { at ≤ 254 }
    ensures { result ≡ next_pointer last at }
{
    if at < last { at + 1 } else { last }
}

fn loaded(b: board::Board, v: u8) -> board::Board
    requires { b.pointer ≤ last_ir b.page.version }
    ensures { result ≡ loaded_of b v }
{
    let at = b.pointer;
    let i = at as usize;
    let next = next_pointer(board::last_ir(b.page.version), at);
    let mut p = b.page;
    p.irs[i] = v;
    board::Board {
        page: p,
        pointer: next,
        ..b
    }
}

// Each keeps one byte of an address. `upper` takes six bits of v, so `u16::from_be_bytes` would be no plainer.
fn lower(x: u16, v: u8) -> u16
    ensures { result ≡ lower_of x v }
{
    x / 256 * 256 + v as u16
}

fn upper(x: u16, v: u8) -> u16
    ensures { result ≡ upper_of x v }
{
    v as u16 % 64 * 256 + x % 256
}

// Addresses 2 to 7: lower, then upper.
#[tactic(auto, unfolding(crate::specs::Write::starts_after))]
fn starts_after(s: board::Starts, a: u8, v: u8) -> board::Starts
    ensures { result ≡ starts_after s a v }
{
    match a {
        2 => board::Starts {
            start1: lower(s.start1, v),
            ..s
        },
        3 => board::Starts {
            start1: upper(s.start1, v),
            ..s
        },
        4 => board::Starts {
            cursor: lower(s.cursor, v),
            ..s
        },
        5 => board::Starts {
            cursor: upper(s.cursor, v),
            ..s
        },
        6 => board::Starts {
            start2: lower(s.start2, v),
            ..s
        },
        _ => board::Starts {
            start2: upper(s.start2, v),
            ..s
        },
    }
}

fn started(b: board::Board, a: u8, v: u8) -> board::Board
    ensures { result ≡ started_of b a v }
{
    let starts = starts_after(b.page.starts, a, v);
    board::Board {
        page: board::Page { starts, ..b.page },
        ..b
    }
}

// Bit 3 names the display, bit 4 the cursor; bit 0 says on.
fn switches_after(s: u8, v: u8) -> u8
    ensures { result ≡ switches_after s v }
{
    let cursor = if v / 16 % 2 == 1 { v % 2 } else { s / 2 % 2 };
    let display = if v / 8 % 2 == 1 { v % 2 } else { s % 2 };
    s / 4 * 4 + 2 * cursor + display
}

fn switched(b: board::Board, v: u8) -> board::Board
    ensures { result ≡ switched_of b v }
{
    let switches = switches_after(b.page.switches, v);
    board::Board {
        page: board::Page { switches, ..b.page },
        ..b
    }
}

// A pointer above the last IR of the page is not carried.
fn point(b: board::Board, at: u8) -> Result<board::Board, Refusal>
    ensures { result ≡ point_of b at }
{
    let p = b.page;
    if board::pointer_refused(p, at) {
        return Err(Refusal::Command);
    }
    Ok(pointed(b, at))
}

// The command byte (003 Table 6).
#[tactic(auto, unfolding(crate::specs::Write::command_of))]
fn command(b: board::Board, v: u8) -> Result<board::Board, Refusal>
    ensures { result ≡ command_of b v }
{
    match v {
        0 => Ok(reset(b)),
        16..=31 => point(b, v - 16),
        32..=63 => {
            if (v / 2 % 2 == 0) & !(v / 8 % 4 == 0) {
                Ok(switched(b, v))
            } else {
                Err(Refusal::Command)
            }
        }
        _ => Err(Refusal::Command),
    }
}

// The register address (003 Table 1), on an active board.
#[tactic(auto, unfolding(crate::specs::Write::active_of))]
fn active(b: board::Board, a: u8, v: u8) -> Result<board::Board, Refusal>
    requires { b.pointer ≤ last_ir b.page.version }
    ensures { result ≡ active_of b a v }
{
    match a {
        0 => Ok(loaded(b, v)),
        1 => command(b, v),
        2..=7 => Ok(started(b, a, v)),
        _ => Err(Refusal::Register),
    }
}

#[tactic(auto, unfolding(crate::specs::Write::inactive_of))]
fn inactive(b: board::Board, a: u8, v: u8) -> Result<board::Board, Refusal>
    ensures { result ≡ inactive_of b a v }
{
    match a {
        0..=7 => {
            if (a == 1) & (v == 0) {
                Ok(reset(b))
            } else {
                Ok(broken(b))
            }
        }
        _ => Err(Refusal::Register),
    }
}

// The board after a write at a register address.
#[tactic(auto, unfolding(crate::specs::Write::write_of))]
pub fn write(b: board::Board, a: u8, v: u8) -> Result<board::Board, Refusal>
    ensures { result ≡ write_of b a v }
{
    register_check(b)?;
    if 2 <= b.resets {
        active(b, a, v)
    } else {
        inactive(b, a, v)
    }
}

// What addresses 2 to 7 show: lower, then upper.
#[tactic(auto, unfolding(crate::specs::Read::shown_at))]
fn shown_at(s: board::Starts, a: u8) -> u8
    ensures { result ≡ shown_at s a }
{
    match a {
        2 => (s.start1 % 256) as u8,
        3 => (s.start1 / 256 % 64) as u8,
        4 => (s.cursor % 256) as u8,
        5 => (s.cursor / 256 % 64) as u8,
        6 => (s.start2 % 256) as u8,
        _ => (s.start2 / 256 % 64) as u8,
    }
}

// The register address of a read.
#[tactic(auto, unfolding(crate::specs::Read::read_at))]
fn read_at(s: board::Starts, a: u8) -> Result<u8, Refusal>
    ensures { result ≡ read_at s a }
{
    match a {
        0..=1 => Ok(0),
        2..=7 => Ok(shown_at(s, a)),
        _ => Err(Refusal::Register),
    }
}

// A read at a register address. It never changes the board.
#[tactic(auto, unfolding(crate::specs::Read::read_of))]
pub fn read(b: board::Board, a: u8) -> Result<u8, Refusal>
    ensures { result ≡ read_of b a }
{
    register_check(b)?;
    read_at(b.page.starts, a)
}

#[tactic(auto, unfolding(crate::specs::Video::video_check))]
fn video_check(p: board::Page) -> Result<(), Refusal>
    ensures { result ≡ video_check p }
{
    if board::address_refused(p) {
        return Err(Refusal::Address);
    }
    if timing::width_refused(p.video.dots) {
        return Err(Refusal::Width);
    }
    Ok(())
}

// A page with other dots and another strike line.
fn with_dots(p: board::Page, dots: units::Dots, strike: u8) -> board::Page
    ensures { result ≡ with_dots p dots strike }
{
    board::Page {
        video: board::Video {
            dots,
            strike,
            ..p.video
        },
        ..p
    }
}

fn with_video(
    b: board::Board,
    dots: units::Dots,
    strike: u8,
    bkgnd: bool,
    rblank: bool,
) -> board::Board
    ensures { result ≡ video_set b dots strike bkgnd rblank }
{
    let background = if bkgnd { 4 } else { 0 };
    let retrace = if rblank { 8 } else { 0 };
    let s = b.page.switches;
    let switches = s / 16 * 16 + s % 4 + background + retrace;
    let page = board::Page { switches, ..b.page };
    board::Board {
        page: with_dots(page, dots, strike),
        ..b
    }
}

// The board's own setting of dots, strike line, BKGND and RBLANK.
#[tactic(auto, unfolding(crate::specs::Video::set_video_of))]
pub fn set_video(
    b: board::Board,
    dots: units::Dots,
    strike: u8,
    bkgnd: bool,
    rblank: bool,
) -> Result<board::Board, Refusal>
    ensures { result ≡ set_video_of b dots strike bkgnd rblank }
{
    video_check(with_dots(b.page, dots, strike))?;
    Ok(with_video(b, dots, strike, bkgnd, rblank))
}
