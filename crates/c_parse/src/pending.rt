// The items that wait: rows arrive, and their items leave one by one, the next one first. What an item does isn't known here.
ghost use Rattle.std.specs.Prelude.{◌≡◌, ◌<◌, ◌≤◌, ◌^◌, ◌++◌, ◌∷◌, [], List, OnErr, OnOk, length, reverse, true};
ghost use Rattle.std.specs.List.{list_all};
ghost use Rattle.c_parse.specs.Rows.{AreCounted, WereCounted, is_short, items_in};
ghost use Rattle.c_parse.specs.declared.pending.Row.{Row};
ghost use Rattle.c_parse.specs.declared.pending.Counted.{Counted};

use crate::items::count_symbols;
use c_opening::absent_in_front;
use std::alloc::{AllocError, Global};
use std::marker::Model;
use vocabulary::{ProductionItem, TokenClass};

// How many rows may wait behind another.
const MOST_ROWS: usize = 1 << 32;

// So many rows have fewer symbols than may wait, since a row has 15 at most.
const FEW_ROWS: usize = 4_369;

// The items of a row that are left.
#[derive(Clone, Copy)]
struct Row {
    items: &'static [ProductionItem],
}

// How many rows were counted, those that come last, and how many symbols of the grammar they have.
#[derive(Clone, Copy)]
struct Counted {
    rows: usize,
    symbols: usize,
}

// What is counted of so many rows that are left once this one, which comes before them, is taken off.
fn counted_behind(counted: Counted, left: usize, row: Row) -> Counted
    requires { WereCounted counted left row }
    ensures { (rows : List Row) → length rows ≡ left → AreCounted (rows ++ row ∷ []) counted → AreCounted rows result }
{
    if counted.rows <= left {
        return counted;
    }
    Counted {
        rows: left,
        symbols: counted.symbols - count_symbols(row.items),
    }
}

// What is counted once all of these rows are.
fn all_counted(rows: &[Row], counted: Counted) -> Counted
    requires few { length rows.now ≤ 2 ^ 32 }
    requires short { list_all is_short rows.now ≡ true }
    requires counted { AreCounted rows.now counted }
    ensures counted { AreCounted rows.now result }
    ensures all { result.rows ≡ length rows.now }
{
    let mut symbols = counted.symbols;
    for index in counted.rows..rows.len() {
        symbols += count_symbols(rows[index].items);
    }
    Counted {
        rows: rows.len(),
        symbols,
    }
}

// Puts a row before others, unless nothing is left of it.
fn put_row(rows: &mut Vec<Row>, row: Row) -> Result<(), AllocError>
    requires few { length rows.old.items < 2 ^ 32 }
    requires short { is_short row ≡ true }
    requires all_short { list_all is_short rows.old.items ≡ true }
    ensures items { OnOk result (items_in (reverse rows.new.items) ≡ row.items.now ++ items_in (reverse rows.old.items)) }
    ensures err { OnErr result (rows.new.items ≡ rows.old.items) }
    ensures counted { (counted : Counted) → AreCounted rows.old.items counted → AreCounted rows.new.items counted }
    ensures all_short { list_all is_short rows.new.items ≡ true }
    ensures few { length rows.new.items ≤ 2 ^ 32 }
{
    if row.items.is_empty() {
        return Ok(());
    }
    rows.push(row)?;
    Ok(())
}

/// Items that wait. Its value is the list of them, the next one first.
///
/// A row that is left behind its last item is none: chains that grow at their end leave nothing but their actions.
#[derive(Drop)]
pub(crate) struct Pending {
    // The row of the next item.
    front: Row,
    // The rows behind it, the next one last.
    rows: Vec<Row>,
    // What was counted of those, which is done only where so many rows wait that it matters.
    counted: Counted,
}

impl Model for Pending {
    ghost use Rattle.std.specs.Prelude.{List};
    ghost use Rattle.vocabulary.specs.declared.production_item.ProductionItem.{ProductionItem};
    ghost use Rattle.c_parse.specs.Rows.{waiting, IsPending};

    ghost Value = { List ProductionItem };

    ghost view = { λ p. waiting p.front p.rows.items };

    ghost invariant = { λ p. IsPending p.front p.rows.items p.counted };
}

impl Pending {
    ghost use Rattle.std.specs.Prelude.{◌≡◌, ◌≤◌, ◌∷◌, ◌++◌, [], IfNone, IfSome, IsTrue, List, OnOk, length};
    ghost use Rattle.vocabulary.specs.declared.production_item.ProductionItem.{ProductionItem};
    ghost use Rattle.vocabulary.specs.declared.token_class.TokenClass.{TokenClass};
    ghost use Rattle.c_opening.specs.Absent.{AreAbsent};
    ghost use Rattle.meaning_derivation.specs.Derivation.{symbols};
    ghost use Rattle.meaning_derivation.specs.State.{most_pending};
    ghost use Rattle.c_parse.specs.Rows.{most_waiting};

    /// These items.
    pub(crate) fn new(alloc: Global, items: &'static [ProductionItem]) -> Pending
        requires { length items.now ≤ 15 }
        ensures { result ≡ items.now }
    {
        Pending {
            front: Row { items },
            rows: Vec::new(alloc),
            counted: Counted {
                rows: 0,
                symbols: 0,
            },
        }
    }

    /// Takes the next item off.
    pub(crate) fn next(&mut self) -> Option<ProductionItem>
        ensures none { IfNone result (self.old ≡ []) }
        ensures some { IfSome result (λ item. self.old ≡ item ∷ self.new) }
    {
        'rows: loop {
            if let Some((item, others)) = self.front.items.split_first() {
                self.front = Row { items: others };
                return Some(*item);
            }
            let Some(row) = self.rows.pop() else {
                return None;
            };
            self.counted = counted_behind(self.counted, self.rows.len(), row);
            self.front = row;
        }
    }

    /// Puts the items of a row before the others. An empty row changes nothing.
    pub(crate) fn push(&mut self, items: &'static [ProductionItem]) -> Result<(), AllocError>
        requires { length items.now ≤ 15 }
        ensures { OnOk result (self.new ≡ items.now ++ self.old) }
    {
        if items.is_empty() {
            return Ok(());
        }
        self.put_front(items)
    }

    // The items of a row come before the others.
    fn put_front(&mut self, items: &'static [ProductionItem]) -> Result<(), AllocError>
        requires { length items.now ≤ 15 }
        ensures { OnOk result (self.new ≡ items.now ++ self.old) }
    {
        if self.rows.len() >= MOST_ROWS {
            return Err(AllocError);
        }
        put_row(&mut self.rows, self.front)?;
        self.front = Row { items };
        Ok(())
    }

    /// Passes over operators that aren't there before a token of this class: as many items of the next row as stand for them, one
    /// behind the other.
    pub(crate) fn pass_absent(&mut self, next: TokenClass)
        ensures { (passed : List ProductionItem) × (self.old ≡ passed ++ self.new) × ((second : TokenClass) → AreAbsent next second passed) }
    {
        let passed = absent_in_front(self.front.items, next);
        self.front = Row {
            items: &self.front.items[passed..],
        };
    }

    /// So few rows wait that no more symbols of the grammar do than may.
    pub(crate) fn is_small(&self) -> bool
        ensures small { IsTrue result → symbols self.now ≤ most_pending }
        ensures few { length self.now ≤ most_waiting }
    {
        self.rows.len() < FEW_ROWS
    }

    /// Counts how many symbols of the grammar wait.
    ///
    /// A row is counted once, if it is at all, however often this is asked.
    pub(crate) fn count(&mut self) -> usize
        ensures same { self.new ≡ self.old }
        ensures count { result ≡ symbols self.old }
    {
        self.counted = all_counted(&self.rows, self.counted);
        self.counted.symbols + count_symbols(self.front.items)
    }
}
