ghost use Rattle.std.specs.Prelude.{◌≡◌, ◌+◌, ◌/◌, ◌%◌, ◌^◌, ◌==◌, ◌<◌, true, bit_or, if◌then◌else◌, slice_index};
ghost use Rattle.std.specs.Int.{bit_at};
ghost use Rattle.verifier_spec.specs.StackSets.{is_set, with_place, with_places};
ghost use Rattle.verifier_spec.specs.Checks.{are_set};

use machine_spec::STACK_SIZE;
use verifier_spec::StackSet;

fn bit_of(word: u64, place: u64) -> bool
    requires { place < 64 }
    ensures { result ≡ (bit_at word place == 1) }
{
    (word >> place) & 1 == 1
}

fn bit_in(words: &[u64; 8], place: u64) -> bool
    ensures bit { result ≡ (bit_at (slice_index words.now (place / 64)) (place % 64) == 1) }
    ensures inside { result ≡ true → place < STACK_SIZE }
{
    if place < STACK_SIZE as u64 {
        bit_of(words[(place / 64) as usize], place % 64)
    } else {
        false
    }
}

/// Whether a place is in the set.
fn is_set(set: &StackSet, place: u64) -> bool
    ensures bit { result ≡ is_set set.now place }
    ensures inside { result ≡ true → place < STACK_SIZE }
{
    bit_in(&set.words, place)
}

/// Whether `count` places from one on are all in the set.
#[tactic(auto, using(crate::proofs::Runs::are_set_first, crate::proofs::Runs::are_set_not, crate::proofs::Runs::are_set_none))]
pub fn contains_all(set: &StackSet, place: u64, count: u128) -> bool
    ensures { result ≡ are_set set.now place count }
{
    let mut next = place;
    let mut left = count;
    while left > 0 {
        if !is_set(set, next) {
            return false;
        }
        next += 1;
        left -= 1;
    }
    true
}

/// The word with this number, with the place's bit if the place is in it.
#[tactic(auto, using(crate::proofs::Runs::no_bit))]
fn with_bit(word: u64, number: u64, place: u64) -> u64
    ensures { result ≡ bit_or word (if number == place / 64 then 2 ^ (place % 64) else 0) }
{
    if number == place / 64 {
        word | 1 << (place % 64)
    } else {
        word
    }
}

fn words_with(words: &[u64; 8], place: u64) -> [u64; 8]
    ensures { result ≡ (with_place (record { words = words.now }) place).words }
{
    [
        with_bit(words[0], 0, place),
        with_bit(words[1], 1, place),
        with_bit(words[2], 2, place),
        with_bit(words[3], 3, place),
        with_bit(words[4], 4, place),
        with_bit(words[5], 5, place),
        with_bit(words[6], 6, place),
        with_bit(words[7], 7, place),
    ]
}

/// The set and `count` places from one on.
#[tactic(auto, using(crate::proofs::Runs::with_next, crate::proofs::Runs::with_none))]
pub fn with_places(set: &StackSet, place: u64, count: u64) -> StackSet
    requires { place + count < 2 ^ 64 }
    ensures { result ≡ with_places set.now place count }
{
    let mut with = *set;
    for k in 0..count {
        with = StackSet {
            words: words_with(&with.words, place + k),
        };
    }
    with
}
