// A node's key: one word for each voice, 0 where it is fixed and otherwise its set, then each row's trace.
ghost use Rattle.std.specs.Prelude.{◌≡◌, ◌+◌, ◌*◌, ◌≤◌, ◌++◌, length, take, drop};
ghost use Rattle.rows.specs.Views.{rows_of};
ghost use Rattle.stores.specs.Keys.{voice_words, trace_words, key, put_answer, put_after};

use rows::bank::Bank;
use rows::row::Row;
use sets::{ValueSet, is_fixed};

// The voices' words, at the front of `words`.
fn write_voices(sets: &[ValueSet], words: &mut [u64])
    requires { length sets.now ≤ length words.old }
    ensures { words.new ≡ voice_words sets.now ++ drop (length sets.now) words.old }
{
    // By index: after a loop over `iter_mut` and `zip` nothing is known of what the words hold.
    for (i, s) in sets.iter().enumerate() {
        words[i] = if is_fixed(*s) { 0 } else { *s };
    }
}

// The rows' traces, at the front of `words`.
fn write_traces<B: Bank>(rows: &[Row], sets: &[ValueSet], words: &mut [u64])
    requires { 2 * length rows.now ≤ length words.old }
    ensures { words.new ≡ trace_words B.Bank.meaning sets.now (rows_of rows.now)
        ++ drop (2 * length rows.now) words.old }
{
    // by index, as in write_voices
    for (i, row) in rows.iter().enumerate() {
        words[2 * i..2 * i + 2].copy_from_slice(&B::trace(row, sets).words());
    }
}

/// Writes the key of these sets at the front of `words` and returns how many words it has. Where `words` is too short,
/// it returns `None` and writes nothing.
pub fn write_key<B: Bank>(rows: &[Row], sets: &[ValueSet], words: &mut [u64]) -> Option<usize>
    ensures value { result
        ≡ put_answer (key B.Bank.meaning (rows_of rows.now) sets.now) words.old }
    ensures after { words.new
        ≡ put_after (key B.Bank.meaning (rows_of rows.now) sets.now) words.old }
{
    if words.len() < sets.len() || (words.len() - sets.len()) / 2 < rows.len() {
        return None;
    }
    write_voices(sets, words);
    write_traces::<B>(rows, sets, &mut words[sets.len()..]);
    Some(sets.len() + 2 * rows.len())
}
