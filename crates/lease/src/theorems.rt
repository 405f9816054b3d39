//! What is proved of clocks and of the book.

ghost use Rattle.lease.specs.Clocks.{ClockLaw};
ghost use Rattle.lease.specs.Leases.{BookTells, NotedOnce, BookSmall};

/// A lease that an office acts on has not run out, and a store that stopped since is still quiet.
pub fn clock_law() -> u8
    ensures { ClockLaw }
{
    0
}

/// The book forgets nothing that matters at a later reading.
pub fn book_tells() -> u8
    ensures { BookTells }
{
    0
}

/// The book stays small.
pub fn book_small() -> u8
    ensures once { NotedOnce }
    ensures small { BookSmall }
{
    0
}
