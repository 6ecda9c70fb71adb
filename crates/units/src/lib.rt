#![tactic(auto)]
// The three units of the papers: character clocks, scan lines, dots. A count of one is never added to a count of
// another. Only here is a count's plain number worked with: sums and comparisons within a unit, the conversions
// between them, and those to cells of a row and places of a buffer, which are plain numbers. Elsewhere it is only
// handed on: to C, as the number next to a refusal, to a file, to the listing. The functions of `callers*` read it
// as C does.
ghost use Rattle.std.specs.Prelude.{ℕ, ◌≡◌, ◌+◌, ◌-◌, ◌*◌, ◌/◌, ◌%◌, ◌<◌, ◌^◌, eqb};
ghost use Rattle.units.specs.Units.{clocks, lines, dots, during, clocks_of, dots_of, whole_lines};

#[repr(C)]
#[derive(Clone, Copy, PartialEq, Eq, PartialOrd, Ord)]
pub struct Clocks(pub u32);

#[repr(C)]
#[derive(Clone, Copy, PartialEq, Eq, PartialOrd, Ord)]
pub struct Lines(pub u32);

#[repr(C)]
#[derive(Clone, Copy, PartialEq, Eq, PartialOrd, Ord)]
pub struct Dots(pub u32);

// What can be done with a count of any unit: the unit is kept.
pub trait Unit: Copy {
    ghost of: { ℕ → Self };

    ghost count: { Self → ℕ };

    fn of(n: u32) -> Self
        ensures { result ≡ of n };

    fn count(self) -> u32
        ensures { result ≡ count self };

    fn plus(self, n: Self) -> Self
        requires { count self + count n < 2 ^ 32 }
        ensures { result ≡ of (count self + count n) }
    {
        Self::of(self.count() + n.count())
    }

    // None where n is more.
    fn minus(self, n: Self) -> Self
        ensures { result ≡ of (count self - count n) }
    {
        Self::of(self.count().saturating_sub(n.count()))
    }

    fn times(self, k: u32) -> Self
        requires { k * count self < 2 ^ 32 }
        ensures { result ≡ of (k * count self) }
    {
        Self::of(k * self.count())
    }

    // From a count on, n of them.
    fn during(self, from: Self, n: Self) -> bool
        requires { count from + count n < 2 ^ 32 }
        ensures { result ≡ during (count from) (count n) (count self) }
    {
        (from.count() <= self.count()) & (self.count() < from.count() + n.count())
    }

    // How many times n is in it.
    fn quotient(self, n: Self) -> u32
        requires { 0 < count n }
        ensures { result ≡ count self / count n }
    {
        self.count() / n.count()
    }

    // What is left over.
    fn remainder(self, n: Self) -> Self
        requires { 0 < count n }
        ensures { result ≡ of (count self % count n) }
    {
        Self::of(self.count() % n.count())
    }

    // Half of them, rounded down.
    fn half(self) -> Self
        ensures { result ≡ of (count self / 2) }
    {
        Self::of(self.count() / 2)
    }

    // The places that so many take in a buffer or a table, one each.
    fn places(self) -> usize
        ensures { result ≡ count self }
    {
        self.count() as usize
    }
}

impl Unit for Clocks {
    ghost of = { clocks };

    ghost count = { λ n. n.0 };

    fn of(n: u32) -> Clocks {
        Clocks(n)
    }

    fn count(self) -> u32 {
        self.0
    }
}

impl Unit for Lines {
    ghost of = { lines };

    ghost count = { λ n. n.0 };

    fn of(n: u32) -> Lines {
        Lines(n)
    }

    fn count(self) -> u32 {
        self.0
    }
}

impl Unit for Dots {
    ghost of = { dots };

    ghost count = { λ n. n.0 };

    fn of(n: u32) -> Dots {
        Dots(n)
    }

    fn count(self) -> u32 {
        self.0
    }
}

// Clocks are also those of a row's cells.
impl Clocks {
    // The second clock of a pair, where they are counted from 0.
    pub fn is_odd(self) -> bool
        ensures { result ≡ eqb (self.0 % 2) 1 }
    {
        self.0 % 2 == 1
    }

    // The cells that are shown in so many clocks, one each.
    pub fn cells(self) -> u32
        ensures { result ≡ self.0 }
    {
        self.0
    }

    // The cells of double width that are over after so many clocks, a pair each.
    pub fn pairs(self) -> u32
        ensures { result ≡ self.0 / 2 }
    {
        self.0 / 2
    }

    // The cells of double width that are begun in them: half of the clocks, rounded up.
    pub fn pairs_begun(self) -> u32
        ensures { result ≡ (self.0 + 1) / 2 }
    {
        self.0.div_ceil(2)
    }
}

// The clocks of so many lines. `dots_of` is the same of dots: as one generic function they would need a trait that says
// which unit makes which, and a conversion is to be read by its name.
pub fn clocks_of(n: Lines, line: Clocks) -> Clocks
    requires { n.0 * line.0 < 2 ^ 32 }
    ensures { result ≡ clocks_of n line }
{
    Clocks(n.0 * line.0)
}

// The whole lines of so many clocks.
pub fn whole_lines(n: Clocks, line: Clocks) -> Lines
    requires { 0 < line.0 }
    ensures { result ≡ whole_lines n line }
{
    Lines(n.0 / line.0)
}

// The dots of so many clocks.
pub fn dots_of(n: Clocks, clock: Dots) -> Dots
    requires { n.0 * clock.0 < 2 ^ 32 }
    ensures { result ≡ dots_of n clock }
{
    Dots(n.0 * clock.0)
}
