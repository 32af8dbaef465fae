//! Laws of the board. Each function here does nothing, and its contract is a law.

ghost use Rattle.claim_rule.specs.Laws.{OpeningIsGood, EventsKeepGood, NextIsOne, OneHistory, HistoryGrows};
ghost use Rattle.claim_rule.specs.Commuting.{BoardCommitsCommute};

/// The board with which a mesh begins is good.
pub fn opening_is_good()
    ensures { OpeningIsGood }
{}

/// Every event keeps the board good. An event answers one thing, and a board has one history.
pub fn events_keep_good()
    ensures good { EventsKeepGood }
    ensures one { NextIsOne }
    ensures history { OneHistory }
{}

/// Two commits of two passes that are done in one order are done in the other, with the same replies.
pub fn commits_commute()
    ensures { BoardCommitsCommute }
{}

/// An earlier history is the front of each later one.
pub fn history_grows()
    ensures { HistoryGrows }
{}
