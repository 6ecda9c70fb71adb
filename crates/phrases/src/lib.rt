#![tactic(auto)]
// An index of phrases (02, R-6): which record holds a row, and which two records disagree. The decisions are the
// crate `records`'; these go over the records, however they are kept.
ghost use Rattle.std.specs.Prelude.{◌≡◌, ◌≤◌, ◌<◌, List, length, get_or};
ghost use Rattle.records.specs.declared.Phrase.{Phrase};
ghost use Rattle.records.specs.Records.{none, phrase_of_row, phrases_differ};
ghost use Rattle.records.specs.Folds.{search_of, mate_to, mate_of};

// The records of an index, by their positions.
pub trait Index {
    ghost kept: { Self → List Phrase };

    // How many there are.
    fn count(&self) -> usize
        ensures { result ≡ length (kept self.now) };

    // The record at a position.
    fn at(&self, i: usize) -> records::Phrase
        requires { i < length (kept self.now) }
        ensures { result ≡ get_or (kept self.now) i none };
}

// Records that stand one after the other.
#[derive(Clone, Copy)]
struct Listed<'a>(&'a [records::Phrase]);

impl<'a> Index for Listed<'a> {
    ghost kept = { λ s. s.0.now };

    fn count(&self) -> usize {
        self.0.len()
    }

    fn at(&self, i: usize) -> records::Phrase {
        self.0[i]
    }
}

// The lowest record of an index that holds what is asked.
pub fn search_in<I: Index>(index: &I, asked: records::Asked) -> records::PhraseAnswer
    ensures { result ≡ search_of (I.kept index.now) asked }
{
    let mut s = records::start(asked);
    if asked.refusal != 0 {
        return s;
    }
    let ends = asked.ends;
    for i in 0..index.count() {
        s = records::visit(s, index.at(i), i, ends);
    }
    s
}

// The lowest record that holds what is asked.
pub fn search(phrases: &[records::Phrase], asked: records::Asked) -> records::PhraseAnswer
    ensures { result ≡ search_of phrases.now asked }
{
    search_in(&Listed(phrases), asked)
}

// The lowest record that holds the whole of what a row fetches.
pub fn phrase_of_row(
    b: board::Board,
    chars: &[u8],
    phrases: &[records::Phrase],
    row: u32,
) -> records::PhraseAnswer
    ensures { result ≡ phrase_of_row b chars.now phrases.now row }
{
    let asked = records::row_asked(b, chars, row);
    search(phrases, records::Asked::from(asked))
}

// The first record after a position and before an end that disagrees with the one there.
fn mate_near<I: Index>(index: &I, after: usize, end: usize) -> records::Mate
    requires { (after < end) × (end ≤ length (I.kept index.now)) }
    ensures { result ≡ mate_to (I.kept index.now) after end }
{
    let o = index.at(after);
    let mut s = records::start_mate(o);
    for i in after + 1..end {
        s = records::visit_mate(s, index.at(i), i, o);
    }
    s
}

// The first record after a position that disagrees with the one there.
fn mate_of<I: Index>(index: &I, after: usize) -> records::Mate
    requires { after < length (I.kept index.now) }
    ensures { result ≡ mate_of (I.kept index.now) after }
{
    let o = index.at(after);
    let n = index.count();
    let from = records::fours_from(after, n);
    let mut s = mate_near(index, after, from);
    for four in 0..(n - from) / 4 {
        let i = from + 4 * four;
        s = records::visit_four(
            s,
            index.at(i),
            index.at(i + 1),
            index.at(i + 2),
            index.at(i + 3),
            i,
            o,
        );
    }
    s
}

// The first two records of an index with the same language and number that differ, by the earlier one's position, then
// the later's.
pub fn differ_in<I: Index>(index: &I) -> records::PairAnswer
    ensures { result ≡ phrases_differ (I.kept index.now) }
{
    let mut s = records::start_pair();
    for i in 0..index.count() {
        s = records::visit_pair(s, mate_of(index, i), i);
    }
    s
}

// The same of a list.
pub fn phrases_differ(phrases: &[records::Phrase]) -> records::PairAnswer
    ensures { result ≡ phrases_differ phrases.now }
{
    differ_in(&Listed(phrases))
}
