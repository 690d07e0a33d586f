//! What auditors look for, as laws: a law is a function that does nothing, and whose contract is the law.

ghost use Rattle.zs_machine.specs.Laws.{RunLaw, HistoryLaw, TextLaw, FinishedLaw};

/// A run with one more step is a run.
pub fn run_law()
    ensures { RunLaw }
{}

/// A history with one more step, whose reply tells of the events before it, is a history.
pub fn history_law()
    ensures { HistoryLaw }
{}

/// The text of events with others behind them is that of the ones, and then that of the others.
pub fn text_law()
    ensures { TextLaw }
{}

/// Where an event of a history tells that a scan came to its end, the scan has an entry then for each live piece in its
/// scope.
pub fn finished_law()
    ensures { FinishedLaw }
{}
