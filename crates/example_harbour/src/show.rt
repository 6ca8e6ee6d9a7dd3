// Sets and rows as text.
use sets::{ValueSet, take_least};
use std::alloc::{AllocError, Global};

// The values of a set in braces, ascending. (A function and not Display: to the language a set is a number.)
pub(crate) fn set_text(heap: Global, set: ValueSet) -> Result<String, AllocError> {
    let mut text = String::from_str(heap, "{")?;
    let mut left = set;
    for _ in 0..set.count_ones() {
        let Some(value) = take_least(&mut left) else {
            break;
        };
        if text.len() > 1 {
            text.push_str(" ")?;
        }
        let word = format!(in heap; "{value}")?;
        text.push_str(&word)?;
    }
    text.push_str("}")?;
    Ok(text)
}

// What a kind's rows say, by the kind's letter, which is all that a row has of its kind.
pub(crate) fn kind_name(letter: u8) -> &'static str {
    match letter {
        b'A' => "all different",
        b'L' => "weighted sum at most",
        b'C' => "at least one of",
        b'E' => "entry of a table",
        _ => "unknown",
    }
}
