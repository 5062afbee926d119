// Sets of minutes as words of bits.
ghost use Rattle.std.specs.Int.{bit_at};
ghost use Rattle.std.specs.Prelude.{◌≡◌, ◌+◌, ◌-◌, ◌*◌, ◌/◌, ◌%◌, ◌^◌, ◌≤◌, ◌<◌, ℕ, IfOk, OnOk, bit_or, cond, leb, length, max, slice_index_or};
ghost use Rattle.drive_states.specs.Words.{TakesFresh, TakesLater, IsTrimmed, bit_of, later_bit, sum_below};
ghost use Rattle.route_base.specs.declared.limits.TheConstants.{DAY_MINUTES};

use route_base::OutOfMemory;
use route_base::limits::DAY_MINUTES;

// The word at a place, or 0 behind the end.
#[inline(always)]
fn word_at(words: &[u64], i: usize) -> u64
    ensures value { result ≡ slice_index_or words.now i 0 }
    ensures fits { result < 2 ^ 64 }
{
    if i < words.len() { words[i] } else { 0 }
}

// The lowest bits of a word.
#[inline(always)]
fn low_bits(word: u64, count: usize) -> u64
    requires some { 1 ≤ count }
    requires few { count ≤ 64 }
    ensures { result ≡ word % 2 ^ count }
{
    word & (u64::MAX >> (64 - count as u32))
}

// A word whose bits move up, with those that leave the word before.
#[inline(always)]
fn moved_up(word: u64, before: u64, part: u32) -> u64
    requires { part < 64 }
    ensures { result ≡ bit_or (word * 2 ^ part % 2 ^ 64) (before / 2 ^ (64 - part)) }
{
    (word << part) | ((before >> 1) >> (63 - part))
}

// The number of bits that a word lacks of another.
#[inline(always)]
fn lacking(word: u64, other: u64) -> u32
    ensures few { result ≤ 64 }
    ensures count { (c : ℕ) → c ≤ 64 → other < 2 ^ c
        → sum_below (λ k. bit_at (bit_or word other) k) c
        ≡ sum_below (λ k. bit_at word k) c + result }
{
    let new = other & !word;
    if new == 0 {
        return 0;
    }
    new.count_ones()
}

// Takes the minutes of another row, and counts the new ones. It goes over the words in which the other row's minutes can be.
fn join_words(row: &mut [u64], from: &[u64], by: usize, most: usize) -> u32
    requires most { most ≤ DAY_MINUTES }
    requires room { most / 64 < length row.old }
    ensures bits { (r : ℕ) → bit_of row.new r
        ≡ max (bit_of row.old r) (later_bit from.now by most r) }
    ensures count { sum_below (bit_of row.new) (most + 1)
        ≡ sum_below (bit_of row.old) (most + 1) + result }
{
    let first = by / 64;
    let part = (by % 64) as u32;
    let count = (most / 64 + 1).saturating_sub(first).min(from.len() + 1);
    let mut before = 0;
    let mut fresh = 0;
    for i in first..first + count {
        let word = word_at(from, i - first);
        let later = low_bits(moved_up(word, before, part), (most + 1 - 64 * i).min(64));
        before = word;
        fresh += lacking(row[i], later);
        row[i] |= later;
    }
    fresh
}

// Lengthens a row to a place.
fn lengthen(row: &mut Vec<u64>, place: usize) -> Result<(), OutOfMemory>
    requires { place < 2 ^ 32 }
    ensures same { (k : ℕ) → slice_index_or row.new.items k 0 ≡ slice_index_or row.old.items k 0 }
    ensures within { OnOk result (place < length row.new.items) }
{
    if place < row.len() {
        return Ok(());
    }
    row.resize(place + 1, 0)?;
    Ok(())
}

/// Takes the minutes of another row, all later by some minutes, up to the most, and counts the new ones. Linear in the words of the
/// other row.
pub fn add_later(
    row: &mut Vec<u64>,
    from: &[u64],
    by: usize,
    most: usize,
) -> Result<u32, OutOfMemory>
    requires { most ≤ DAY_MINUTES }
    ensures { IfOk result (TakesLater row.old.items row.new.items from.now by most) }
{
    lengthen(row, most / 64)?;
    Ok(join_words(row, from, by, most))
}

// Lengthens a row to a number of words.
fn reach(row: &mut Vec<u64>, count: usize) -> Result<(), OutOfMemory>
    ensures same { (k : ℕ) → slice_index_or row.new.items k 0 ≡ slice_index_or row.old.items k 0 }
    ensures within { OnOk result (count ≤ length row.new.items) }
{
    if count > row.len() {
        row.resize(count, 0)?;
    }
    Ok(())
}

// Takes the words of a row, and writes what is new of each.
fn take_words(done: &mut Vec<u64>, row: &[u64], fresh: &mut Vec<u64>)
    requires done { length row.now ≤ length done.old.items }
    requires fresh { length row.now ≤ length fresh.old.items }
    requires none { (k : ℕ) → slice_index_or fresh.old.items k 0 ≡ 0 }
    ensures { TakesFresh done.old.items done.new.items row.now fresh.new.items }
{
    for i in 0..row.len() {
        fresh[i] = row[i] & !done[i];
        done[i] = row[i];
    }
}

// As many words of 0, in the place of what was there.
fn blank(row: &mut Vec<u64>, count: usize) -> Result<(), OutOfMemory>
    ensures none { OnOk result ((k : ℕ) → slice_index_or row.new.items k 0 ≡ 0) }
    ensures within { OnOk result (count ≤ length row.new.items) }
{
    row.clear();
    row.resize(count, 0)?;
    Ok(())
}

/// Takes all minutes of a row, and writes the new ones. Linear in the minutes over the bits of a word.
pub fn take_fresh(done: &mut Vec<u64>, row: &[u64], fresh: &mut Vec<u64>) -> Result<(), OutOfMemory>
    ensures { OnOk result (TakesFresh done.old.items done.new.items row.now fresh.new.items) }
{
    reach(done, row.len())?;
    blank(fresh, row.len())?;
    take_words(done, row, fresh);
    Ok(())
}

// The place of the first word that isn't 0, or the number of words.
fn first_word(row: &[u64]) -> usize
    ensures within { result ≤ length row.now }
    ensures none { (k : ℕ) → k < result → slice_index_or row.now k 0 ≡ 0 }
{
    for (i, word) in row.iter().enumerate() {
        if *word != 0 {
            return i;
        }
    }
    row.len()
}

// The place behind the last word that isn't 0, but no place before the first.
fn last_word(row: &[u64], first: usize) -> usize
    requires { first ≤ length row.now }
    ensures low { first ≤ result }
    ensures within { result ≤ length row.now }
    ensures none { (k : ℕ) → result ≤ k → slice_index_or row.now k 0 ≡ 0 }
{
    let mut end = row.len();
    'words: while end > first && row[end - 1] == 0 {
        end -= 1;
    }
    end
}

/// The words of a row from the first to the last that isn't 0, and the minute at which they begin.
pub fn trimmed(row: &[u64]) -> (&[u64], u64)
    ensures part { IsTrimmed row.now result.0.now result.1 }
    ensures early { result.1 ≤ DAY_MINUTES }
{
    let first = first_word(row).min(DAY_MINUTES as usize / 64);
    let end = last_word(row, first);
    (&row[first..end], 64 * first as u64)
}

/// The number of minutes below one. Linear in the minutes over the bits of a word.
pub fn count_below(row: &[u64], end: usize) -> u32
    requires { end ≤ DAY_MINUTES + 1 }
    ensures { result ≡ sum_below (bit_of row.now) end }
{
    let mut count = 0;
    for i in 0..(end + 63) / 64 {
        count += low_bits(word_at(row, i), (end - 64 * i).min(64)).count_ones();
    }
    count
}
