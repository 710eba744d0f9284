// What is proved of the table as a whole, each by computing over all of its rows.
ghost use Rattle.meaning_grammar.specs.laws.Reach.{SymbolsServe};
ghost use Rattle.meaning_grammar.specs.laws.Table.{BeginningsAreTaken, BeginningsAreThoseOfRows, LooksAreApart, LooksLeadOn, NoBeginningIsLost, RowsAreSorted, RowsFall, RowsHaveLooks, TheRowIsTaken, WhatIsTakenFits, WhatIsTakenIsARow};

/// Each row has one look; no two looks of a symbol hold at once, and the row that is taken is the one whose look holds.
pub fn each_row_has_its_look()
    ensures rows { RowsHaveLooks }
    ensures apart { LooksAreApart }
    ensures taken { TheRowIsTaken }
    ensures only { WhatIsTakenIsARow }
{}

/// A look holds where its row can begin, and nowhere else, but where the grammar says which of two rows goes first.
pub fn beginnings_are_those_of_rows()
    ensures table { BeginningsAreThoseOfRows }
    ensures lead_on { LooksLeadOn }
    ensures taken { BeginningsAreTaken }
    ensures none_lost { NoBeginningIsLost }
{}

/// In each row the weights fall, and the values that actions find are of the sorts that they need.
pub fn rows_fit()
    ensures fall { RowsFall }
    ensures sorted { RowsAreSorted }
    ensures taken { WhatIsTakenFits }
{}

/// Every symbol is reached from the unit, and derives something.
pub fn symbols_serve()
    ensures { SymbolsServe }
{}
