// The law between ledger and book, from the rules alone: what each call by its rule keeps, and what follows of runs and of two books.
ghost use Rattle.ledger.specs.Keeps.{OpeningLaw, CallsKeep, ContractsStay, BalanceAnswered, FillNeverShort, RunLaw, DayLaw, SameBooksBalance};
ghost use Rattle.ledger.specs.Order.{TestsRise};

// The law stands at opening.
pub fn opening_keeps()
    ensures { OpeningLaw }
{}

// Each of the eleven calls keeps the law and changes no contract; where it is accepted it answers the balance after it; a fill
// within its limit is never short of balance.
pub fn calls_keep()
    ensures law { CallsKeep }
    ensures contracts { ContractsStay }
    ensures balance { BalanceAnswered }
    ensures fill { FillNeverShort }
{}

// The law stands along every run, and so over the whole day.
pub fn runs_keep()
    ensures run { RunLaw }
    ensures day { DayLaw }
{}

// Two books that are the same but for rows and numbers have equal balances.
pub fn same_books_balance()
    ensures { SameBooksBalance }
{}

// Each call's tests stand in rising order of their numbers.
pub fn tests_rise()
    ensures { TestsRise }
{}
