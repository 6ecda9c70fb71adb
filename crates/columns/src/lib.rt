#![tactic(auto)]
// An index of phrases as four columns of numbers (02, R-6), one for each field of a record.
// A record stands at each position that all four columns have, so the shortest column ends the list. What is decided of
// a record is the crate `records`', and how an index is searched the crate `phrases`'.
ghost use Rattle.std.specs.Prelude.{◌≡◌};
ghost use Rattle.records.specs.Records.{phrase_of_row, phrases_differ};
ghost use Rattle.columns.specs.Columns.{records_now, lent_records};

use phrases::Index;

#[derive(Clone, Copy)]
struct Columns<'a> {
    languages: &'a [u32],
    numbers: &'a [u32],
    firsts: &'a [u32],
    lengths: &'a [u32],
}

impl<'a> Index for Columns<'a> {
    ghost kept = { λ s. records_now s.languages s.numbers s.firsts s.lengths };

    fn count(&self) -> usize {
        let labels = self.languages.len().min(self.numbers.len());
        let cells = self.firsts.len().min(self.lengths.len());
        labels.min(cells)
    }

    fn at(&self, i: usize) -> records::Phrase {
        records::Phrase {
            language: self.languages[i],
            number: self.numbers[i],
            first: self.firsts[i],
            length: self.lengths[i],
        }
    }
}

// The lowest record that holds the whole of what a row fetches.
pub fn record_of_row(
    b: board::Board,
    chars: &[u8],
    languages: &[u32],
    numbers: &[u32],
    firsts: &[u32],
    lengths: &[u32],
    row: u32,
) -> records::PhraseAnswer
    ensures { result ≡ phrase_of_row b chars.now (lent_records languages numbers firsts lengths) row }
{
    let columns = Columns {
        languages,
        numbers,
        firsts,
        lengths,
    };
    let asked = records::row_asked(b, chars, row);
    phrases::search_in(&columns, records::Asked::from(asked))
}

// The first two records with the same language and number that differ, by the earlier one's position, then the later's.
pub fn records_differ(
    languages: &[u32],
    numbers: &[u32],
    firsts: &[u32],
    lengths: &[u32],
) -> records::PairAnswer
    ensures { result ≡ phrases_differ (lent_records languages numbers firsts lengths) }
{
    phrases::differ_in(&Columns {
        languages,
        numbers,
        firsts,
        lengths,
    })
}
