#![tactic(auto)]
// The answer numbers of documents 01 and 02, by name. A check answers `Ok(())`, or why it refuses.
ghost use Rattle.std.specs.Prelude.{◌≡◌};
ghost use Rattle.refusal.specs.Number.{number_of, beside_of, wrong_size};

// A line that is too short, and a front porch that is, tell by how many clocks the front porch misses 2.
#[derive(Clone, Copy)]
pub enum Refusal {
    Version,
    Length,
    Size,
    Reserved,
    BackPorch,
    LineShort(units::Clocks),
    FrontPorch(units::Clocks),
    Width,
    Range,
    Room,
    Register,
    Command,
    Address,
    Kind,
    Stretch,
    Apart,
    Coded,
}

// A check's number: 0 where nothing is refused.
pub fn number(checked: Result<(), Refusal>) -> u32
    ensures { result ≡ number_of checked }
{
    match checked {
        Ok(()) => 0,
        Err(Refusal::Version) => 1,
        Err(Refusal::Length) => 2,
        Err(Refusal::Size) => 3,
        Err(Refusal::Reserved) => 4,
        Err(Refusal::BackPorch) => 13,
        Err(Refusal::LineShort(_)) => 14,
        Err(Refusal::FrontPorch(_)) => 15,
        Err(Refusal::Width) => 6,
        Err(Refusal::Range) => 7,
        Err(Refusal::Room) => 8,
        Err(Refusal::Register) => 9,
        Err(Refusal::Command) => 10,
        Err(Refusal::Address) => 12,
        Err(Refusal::Kind) => 16,
        Err(Refusal::Stretch) => 17,
        Err(Refusal::Apart) => 18,
        Err(Refusal::Coded) => 19,
    }
}

// The number that belongs to a refusal, or 0.
pub fn beside(checked: Result<(), Refusal>) -> u32
    ensures { result ≡ beside_of checked }
{
    match checked {
        Err(Refusal::LineShort(missing)) => missing.0,
        Err(Refusal::FrontPorch(missing)) => missing.0,
        _ => 0,
    }
}

// 3, for a lent part of wrong size.
pub fn wrong_size(wrong: bool) -> Result<(), Refusal>
    ensures { result ≡ wrong_size wrong }
{
    if wrong { Err(Refusal::Size) } else { Ok(()) }
}
