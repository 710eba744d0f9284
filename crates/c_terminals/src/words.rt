// How each spelling of a table is read: the table arrives, and a list by its ids leaves. No token is known here.
ghost use Rattle.std.specs.Prelude.{◌≡◌, IfOk, map};
ghost use Rattle.c_terminals.specs.Seen.{entry_seen, word_entry};

use crate::reading::Reading;
use crate::spellings::word_entry;
use c_tokens::Names;
use sparse_model::NameId;
use std::alloc::{AllocError, Global};

/// How each spelling is read where it is that of a word, by its id.
pub(crate) fn read_words(alloc: Global, names: &Names) -> Result<Vec<Option<Reading>>, AllocError>
    ensures { IfOk result (λ words. map entry_seen words.items ≡ map word_entry names.now) }
{
    let mut words = Vec::new(alloc);
    for id in 0..names.len() {
        words.push(word_entry(names.spelling(NameId(id as u32))))?;
    }
    Ok(words)
}
