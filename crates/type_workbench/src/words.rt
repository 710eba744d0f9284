// Words with numbers behind them.
use c_tokens::Names;
use sparse_model::NameId;
use std::str;

/// A word, and the number behind its last underscore.
pub fn with_number(word: &[u8]) -> Option<(&[u8], u64)> {
    let place = word.iter().rposition(|&byte| byte == b'_')?;
    let (stem, digits) = word.split_at(place);
    let number = str::from_utf8(digits.get(1..)?).ok()?.parse::<u64>().ok()?;
    Some((stem, number))
}

/// The spelling of a name of the table, and nothing for another one.
pub fn word_of(names: &Names, name: NameId) -> &[u8] {
    if (name.0 as usize) < names.len() {
        names.spelling(name)
    } else {
        &[]
    }
}
