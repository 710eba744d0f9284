// The storage class of specifiers (C11 6.7.1), as far as it says how the names behind them are bound. A number arrives, and a
// class leaves. Which words there were isn't known here.
ghost use Rattle.std.specs.Prelude.{◌≡◌};
ghost use Rattle.meaning_derivation.specs.Storage.{storage_number, storage_of_number, class_with};
ghost use Rattle.parse_state.specs.Storage.{class_of};

/// What specifiers say of how the names behind them are bound.
#[derive(Clone, Copy, Debug, PartialEq, Eq)]
pub enum StorageClass {
    /// `typedef`, beside whatever else stands there.
    Typedef,
    /// `extern`, and no `typedef`.
    Extern,
    /// Another one, or none.
    Other,
}

impl StorageClass {
    /// The number that a node of such specifiers has.
    pub fn number(self) -> u64
        ensures { result ≡ storage_number (class_of self) }
    {
        match self {
            StorageClass::Other => 0,
            StorageClass::Typedef => 1,
            StorageClass::Extern => 2,
        }
    }

    /// The class that this number stands for.
    pub(crate) fn of_number(number: u64) -> StorageClass
        ensures { class_of result ≡ storage_of_number number }
    {
        if number == 1 {
            StorageClass::Typedef
        } else if number == 2 {
            StorageClass::Extern
        } else {
            StorageClass::Other
        }
    }

    /// The class where the word `typedef` is there or not, and the word `extern` is or not.
    pub(crate) fn with_words(has_typedef: bool, has_extern: bool) -> StorageClass
        ensures { class_of result ≡ class_with has_typedef has_extern }
    {
        if has_typedef {
            StorageClass::Typedef
        } else if has_extern {
            StorageClass::Extern
        } else {
            StorageClass::Other
        }
    }
}
