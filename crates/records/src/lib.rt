#![tactic(auto)]
// One record of an index of phrases (02, R-6): what is asked of it, and what it answers.
ghost use Rattle.std.specs.Prelude.{◌≡◌, ◌+◌, min, max, ◌<◌};
ghost use Rattle.raster.specs.Moves.{Bounded};
ghost use Rattle.records.specs.Records.{bad_record, disagrees, pair_answer};
ghost use Rattle.records.specs.Ends.{ends_by, asked_by, asked_of, holds_ends};
ghost use Rattle.records.specs.Folds.{start_of, visit_of, label_of, same_label, unequal, mate_start, mate_visit, mate_four, first_four, fours_from, pair_start, pair_visit};

use refusal::Refusal;

// A phrase in a language, by its number: its cells are first to first + length - 1. Any four numbers may be handed over.
#[repr(C)]
#[derive(Clone, Copy)]
pub struct Phrase {
    pub language: u32,
    pub number: u32,
    pub first: u32,
    pub length: u32,
}

// The lowest record that holds a row, where one does. With 20 the position is the first bad record's.
#[repr(C)]
#[derive(Clone, Copy)]
pub struct PhraseAnswer {
    pub refusal: u32,
    pub beside: u32,
    pub found: u32,
    pub position: usize,
}

// Two records that disagree, where there are two. With 20 the first bad record stands in earlier.
#[repr(C)]
#[derive(Clone, Copy)]
pub struct PairAnswer {
    pub refusal: u32,
    pub beside: u32,
    pub found: u32,
    pub earlier: usize,
    pub later: usize,
}

// The lowest and the highest of a row's cells.
#[derive(Clone, Copy)]
pub struct Ends {
    pub low: u32,
    pub high: u32,
}

// What is asked of each record: to hold the ends of a row's cells. After a refusal nothing is asked, and the refusal is
// handed on, whatever its number.
#[derive(Clone, Copy)]
pub struct Asked {
    pub refusal: u32,
    pub beside: u32,
    pub ends: Ends,
}

impl From<Result<Ends, Refusal>> for Asked {
    ghost from_gives = { λ row a. a ≡ asked_by row };

    fn from(row: Result<Ends, Refusal>) -> Asked {
        match row {
            Ok(ends) => Asked {
                refusal: 0,
                beside: 0,
                ends,
            },
            Err(why) => Asked {
                refusal: refusal::number(Err(why)),
                beside: refusal::beside(Err(why)),
                ends: Ends { low: 0, high: 0 },
            },
        }
    }
}

// The first later record that disagrees with one, where there is one, and whether that one is bad.
#[derive(Clone, Copy)]
pub struct Mate {
    pub bad: bool,
    pub at: Option<usize>,
}

// The ends of n cells, from a cell on.
fn row_ends(buffer: raster::Buffer, start: raster::Cell, n: u32) -> Ends
    requires { Bounded buffer × (start.address < 16384) }
    ensures { result ≡ ends_by buffer start.address n }
{
    let mut low = start.address as u32;
    let mut high = start.address as u32;
    let mut cell = start;
    for _ in 0..n {
        low = low.min(cell.address as u32);
        high = high.max(cell.address as u32);
        cell = raster::advance_one(buffer, cell);
    }
    Ends { low, high }
}

// What a row asks of each record.
pub fn row_asked(b: board::Board, chars: &[u8], row: u32) -> Result<Ends, Refusal>
    ensures { result ≡ asked_of b chars.now row }
{
    fetch::span_of(b, chars, row)?;
    let n = fetch::fetched_of(b.page, chars, row);
    let start = fetch::row_start(b.page, chars, row);
    Ok(row_ends(timing::buffer_of(b.page), start, n))
}

// 20: a record of length 0, or one that passes 16383.
fn is_bad(p: Phrase) -> bool
    ensures { result ≡ bad_record p }
{
    (p.length == 0) | (16384 < p.first as u64 + p.length as u64)
}

fn holds(p: Phrase, ends: Ends) -> bool
    ensures { result ≡ holds_ends ends p }
{
    (p.first <= ends.low) & ((ends.high as u64) < p.first as u64 + p.length as u64)
}

// The same language and number, and another first cell or length. A derived `==` would be no plainer: of the four
// fields two are to agree, and of the others one is not to.
fn disagree(p: Phrase, o: Phrase) -> bool
    ensures { result ≡ disagrees p o }
{
    (p.language == o.language)
        & (p.number == o.number)
        & ((p.first != o.first) | (p.length != o.length))
}

// The answer before any record is looked at.
pub fn start(asked: Asked) -> PhraseAnswer
    ensures { result ≡ start_of asked }
{
    PhraseAnswer {
        refusal: asked.refusal,
        beside: asked.beside,
        found: 0,
        position: 0,
    }
}

// The answer once one record more is looked at. Most records alter nothing: these are let go by one branch.
pub fn visit(s: PhraseAnswer, p: Phrase, i: usize, ends: Ends) -> PhraseAnswer
    ensures { result ≡ visit_of s p i ends }
{
    let bad = is_bad(p);
    let good = holds(p, ends);
    if !(bad | good) {
        return s;
    }
    if (s.refusal == 0) & bad {
        return PhraseAnswer {
            refusal: 20,
            beside: 0,
            found: 0,
            position: i,
        };
    }
    if (s.refusal == 0) & (s.found == 0) & good {
        return PhraseAnswer {
            refusal: 0,
            beside: 0,
            found: 1,
            position: i,
        };
    }
    s
}

pub fn start_mate(o: Phrase) -> Mate
    ensures { result ≡ mate_start o }
{
    Mate {
        bad: is_bad(o),
        at: None,
    }
}

// Language and number in one number, so that a single branch lets a record go by. With two branches one processor
// guessed wrong at every record of the same language, and the search took seven times as long.
fn label(p: Phrase) -> u64
    ensures { result ≡ label_of p }
{
    p.number as u64 * 4294967296 + p.language as u64
}

// The same for a mate: most records have another language or number.
#[tactic(auto, unfolding(crate::specs::Folds::mate_visit))]
pub fn visit_mate(s: Mate, p: Phrase, i: usize, o: Phrase) -> Mate
    ensures { result ≡ mate_visit s p i o }
{
    if label(o) != label(p) {
        return s;
    }
    if s.at.is_none() & disagree(o, p) {
        return Mate {
            bad: s.bad,
            at: Some(i),
        };
    }
    s
}

// The same language and number, by one comparison.
fn same_label(o: Phrase, p: Phrase) -> bool
    ensures { result ≡ same_label o p }
{
    label(o) == label(p)
}

// Another first cell or length.
fn apart(o: Phrase, p: Phrase) -> bool
    ensures { result ≡ unequal o p }
{
    (o.first != p.first) | (o.length != p.length)
}

// The first of four records in a row for which a test holds, where one does.
fn first_four(a: bool, b: bool, c: bool, i: usize) -> usize
    requires { i + 3 < 18446744073709551616 }
    ensures { result ≡ first_four a b c i }
{
    if a {
        return i;
    }
    if b {
        return i + 1;
    }
    if c {
        return i + 2;
    }
    i + 3
}

// The same for four records in a row, the first at i. A loop that visits one record a turn is so short that its time
// went by where the linker put it, up to twice as long at some places. Whether labels are the same is asked once of
// each record.
pub fn visit_four(s: Mate, a: Phrase, b: Phrase, c: Phrase, d: Phrase, i: usize, o: Phrase) -> Mate
    requires { i + 3 < 18446744073709551616 }
    ensures { result ≡ mate_four s a b c d i o }
{
    let w = same_label(o, a);
    let x = same_label(o, b);
    let y = same_label(o, c);
    let z = same_label(o, d);
    if !(w | x | y | z) {
        return s;
    }
    let first = w & apart(o, a);
    let second = x & apart(o, b);
    let third = y & apart(o, c);
    let unlike = first | second | third | (z & apart(o, d));
    if !unlike {
        return s;
    }
    if s.at.is_none() {
        return Mate {
            bad: s.bad,
            at: Some(first_four(first, second, third, i)),
        };
    }
    s
}

// Where the records after a position go on in fours to the end of n records: up to three come before.
pub fn fours_from(after: usize, n: usize) -> usize
    requires { after < n }
    ensures { result ≡ fours_from after n }
{
    n - (n - after - 1) / 4 * 4
}

pub fn start_pair() -> PairAnswer
    ensures { result ≡ pair_start }
{
    PairAnswer {
        refusal: 0,
        beside: 0,
        found: 0,
        earlier: 0,
        later: 0,
    }
}

fn found_pair(earlier: usize, later: usize) -> PairAnswer
    ensures { result ≡ pair_answer 0 0 1 earlier later }
{
    PairAnswer {
        refusal: 0,
        beside: 0,
        found: 1,
        earlier,
        later,
    }
}

pub fn visit_pair(pair: PairAnswer, m: Mate, i: usize) -> PairAnswer
    ensures { result ≡ pair_visit pair m i }
{
    if (pair.refusal == 0) & m.bad {
        return PairAnswer {
            refusal: 20,
            beside: 0,
            found: 0,
            earlier: i,
            later: 0,
        };
    }
    if let Some(at) = m.at {
        if (pair.refusal == 0) & (pair.found == 0) {
            return found_pair(i, at);
        }
    }
    pair
}
