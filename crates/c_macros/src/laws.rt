// What ids say of macros is what their spellings say, and what is known of them stays known.
ghost use Rattle.std.specs.Prelude.{◌≡◌, ◌↔◌, List, ℕ, option_map};
ghost use Rattle.meaning_macros.specs.Agreement.{agree};
ghost use Rattle.meaning_macros.specs.Macros as macros;
ghost use Rattle.meaning_macros.specs.WellFormed.{IsWellFormed};
ghost use Rattle.sparse_model.specs.declared.ids.NameId.{NameId};
ghost use Rattle.c_tokens.specs.Seen.{Extends, IsKnown, text_of};
ghost use Rattle.c_tokens.specs.Spellings.{AreApart};
ghost use Rattle.c_macros.specs.declared.definition.Macro.{Macro};
ghost use Rattle.c_macros.specs.Seen.{IsKnownMacro, IsKnownTable, KnowsAll, by_ids, macro_of, table_of};
ghost use Rattle.c_macros.specs.Table.{Table, macro_at};

/// Two macros agree by their ids exactly where they agree as they are spelled, a macro is well formed
/// by its ids exactly where it is so as it is spelled, and a table has at an id what it has at its spelling:
/// in any table of names whose spellings are apart.
pub fn ids_say_what_spellings_say()
    ensures agreement { (names : List (List ℕ)) (m n : Macro) → AreApart names → IsKnownMacro names m → IsKnownMacro names n → agree (macro_of names m) (macro_of names n) ≡ agree (by_ids m) (by_ids n) }
    ensures well_formed { (names : List (List ℕ)) (m : Macro) → AreApart names → IsKnownMacro names m → IsWellFormed (macro_of names m) ↔ IsWellFormed (by_ids m) }
    ensures table { (names : List (List ℕ)) (table : Table) (name : NameId) → AreApart names → IsKnownTable names table → IsKnown names name → macros.macro_of (table_of names table).definitions (text_of names name) ≡ option_map (macro_of names) (macro_at table name) }
{}

/// What a table of macros tells of stays known where the table of names grows.
pub fn known_tables_stay_known()
    ensures { (names later : List (List ℕ)) (table : Table) → Extends names later → KnowsAll names table → KnowsAll later table }
{}
