// The words of an expansion.
ghost use Rattle.std.specs.Prelude.{IfSome};
ghost use Rattle.workbench.specs.Asked.{MayExpand};

use c_macros::Budget;
use sparse_outside::Words;
use std::str;

/// What may be used up where the words say nothing else.
const SMALL: Budget = Budget {
    replacements: 1000,
    tokens: 1000,
    counter: 0,
};

/// What is asked of an expansion.
#[derive(Clone, Copy)]
pub struct Asked<'w> {
    /// What it may use up: the words `replacements=N`, `tokens=N` and `counter=N`.
    pub budget: Budget,
    /// How `__FILE__` is spelled, where the word `spelled=TEXT` says so.
    pub spelled: Option<&'w [u8]>,
    /// The word `places`: each token is shown with its place.
    pub places: bool,
}

impl<'w> Asked<'w> {
    /// What the words behind the file's ask, in any order.
    pub fn read(words: &'w Words) -> Option<Self>
        ensures { IfSome result MayExpand }
    {
        let mut asked = Asked {
            budget: SMALL,
            spelled: None,
            places: false,
        };
        for i in 2..words.len() {
            asked = asked.with(words.get(i)?)?;
        }
        asked.budget.counter.checked_add(asked.budget.replacements)?;
        Some(asked)
    }

    // With what a further word asks.
    fn with(mut self, word: &'w [u8]) -> Option<Self> {
        if word == b"places".as_slice() {
            self.places = true;
        } else if let Some(text) = word.strip_prefix(b"spelled=") {
            self.spelled = Some(text);
        } else if let Some(digits) = word.strip_prefix(b"replacements=") {
            self.budget.replacements = number(digits)?;
        } else if let Some(digits) = word.strip_prefix(b"tokens=") {
            self.budget.tokens = number(digits)?;
        } else {
            self.budget.counter = number(word.strip_prefix(b"counter=")?)?;
        }
        Some(self)
    }
}

fn number(digits: &[u8]) -> Option<u32> {
    str::from_utf8(digits).ok()?.parse::<u32>().ok()
}
