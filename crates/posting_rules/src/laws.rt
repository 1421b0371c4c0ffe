//! Laws of the bank, for every log of commands. Each is a function that does nothing: its contract is the
//! law.
ghost use Rattle.posting_rules.specs.Stated.{DecidedAsStated, RepliedAsStated};
ghost use Rattle.posting_rules.specs.believed.Laws.{NoneShares, TablesAreConsistent};
ghost use Rattle.posting_rules.specs.Laws.{BalancesStayWithin};
ghost use Rattle.posting_rules.specs.Laws.{AccountsStayAbove, EqualTablesAnswerAlike};
ghost use Rattle.posting_rules.specs.Alike.{OpeningsAnswerAlike, BalancesAnswerAlike, BranchesAnswerAlike};
ghost use Rattle.posting_rules.specs.Damage.{TablesAreUndamaged};
ghost use Rattle.posting_rules.specs.Resends.{RepliesAgain, RepliesInPlace, AddsOnce, KeepsCommands};
ghost use Rattle.posting_rules.specs.Editions.{CarriesOver, PlainAreCommands, HasNoFloors, HasNoReferences};
ghost use Rattle.posting_rules.specs.Editions.{IsPresent};
ghost use Rattle.posting_rules.specs.believed.ClosedBooks.{SealedDecidesNothing, SealsAlone, StillCarries, TwoYears};

/// Which records are decided, which of them are posted, and what is replied, said case by case.
pub fn cases_are_as_stated()
    ensures decided { DecidedAsStated }
    ensures replied { RepliedAsStated }
{}

/// No two decided requests share teller and number, so that each request is posted once.
pub fn each_request_once()
    ensures { NoneShares }
{}

/// Every balance of an account, a teller and a branch stays within its limit.
pub fn balances_stay_within()
    ensures { BalancesStayWithin }
{}

/// No account is ever below the floor of its own branch, whichever branch its postings came from.
pub fn accounts_stay_above()
    ensures { AccountsStayAbove }
{}

/// The consistency condition (TPC-B clause 2): accounts, tellers, branches and the deltas of history have one
/// sum, each branch has the sum of its tellers, and history has just the posted requests.
pub fn tables_are_consistent()
    ensures { TablesAreConsistent }
{}

/// No log of commands leads to damaged tables.
pub fn tables_are_undamaged()
    ensures { TablesAreUndamaged }
{}

/// What a bank answers depends on its tables alone: the replies, the answers to openings, the balances and
/// the branches.
pub fn equal_tables_answer_alike()
    ensures replies { EqualTablesAnswerAlike }
    ensures openings { OpeningsAnswerAlike }
    ensures balances { BalancesAnswerAlike }
    ensures branches { BranchesAnswerAlike }
{}

/// A record that comes again gets the reply that it got, and adds no row, as long as no branch is opened in
/// between. So a resend may come in any order, in part, any number of times, and mixed with new records.
pub fn resends_get_their_replies()
    ensures replies { RepliesAgain }
    ensures in_place { RepliesInPlace }
    ensures tables { AddsOnce }
    ensures commands { KeepsCommands }
{}

/// Sealed books stay sealed and decide nothing more: what they keep gets its first reply, and anything else of an open
/// teller is refused, as closed or as sealed. A seal changes nothing else.
pub fn sealed_law()
    ensures sealed { SealedDecidesNothing }
    ensures alone { SealsAlone }
{}

/// New books that carry on sealed ones answer whatever comes as one bank would that never closed its books, but for numbers
/// that the old books used, which are refused for good. The balances stay those of the one bank.
pub fn two_years_law()
    ensures places { TwoYears }
    ensures still { StillCarries }
{}

/// The tables of a log in a file of an earlier version are the present tables of what that version knew of the
/// log: before version 2 there were no floors, and before version 3 no references. So a file is carried over
/// with all its rows as they are.
pub fn earlier_versions_carry_over()
    ensures tables { CarriesOver }
    ensures commands { PlainAreCommands }
    ensures no_floors { HasNoFloors }
    ensures no_references { HasNoReferences }
    ensures present { IsPresent }
{}
