//! The hash by which Kafka's clients choose a partition.

ghost use Rattle.std.specs.Prelude.{◌≡◌, ◌<◌, ◌≤◌, ◌^◌, length, fold};
ghost use Rattle.machine_spec.specs.Hashes as definitions;

use crate::part::part_of;
use kafka_record::RecordRef;
use machine_spec::Part;

/// The multiplier of murmur2.
const MULTIPLIER: u32 = 0x5bd1_e995;

/// The seed of Kafka's clients.
const SEED: u32 = 0x9747_b28c;

/// All bits but the sign bit.
const UNSIGNED: u32 = 0x7fff_ffff;

/// A number, xored with itself shifted right by so many bits.
fn folded(number: u32, bits: u32) -> u32
    requires { bits < 32 }
    ensures { result ≡ definitions.folded bits number }
{
    number ^ (number >> bits)
}

/// The hash after a word.
fn after_word(hash: u32, word: u32) -> u32
    ensures { result ≡ definitions.after_word hash word }
{
    let mixed = folded(word.wrapping_mul(MULTIPLIER), 24).wrapping_mul(MULTIPLIER);
    hash.wrapping_mul(MULTIPLIER) ^ mixed
}

/// The hash after words, of which the first byte is lowest.
fn after_words(mut hash: u32, words: &[[u8; 4]]) -> u32
    ensures { result ≡ fold (λ h word. definitions.after_word h (definitions.word_of word)) hash words.now }
{
    for word in words {
        hash = after_word(hash, u32::from_le_bytes(*word));
    }
    hash
}

/// The number that less than four bytes are, the first one lowest.
fn word_of(rest: &[u8]) -> u32
    requires { length rest.now < 4 }
    ensures { result ≡ definitions.word_of rest.now }
{
    let mut word = [0; 4];
    word[..rest.len()].copy_from_slice(rest);
    u32::from_le_bytes(word)
}

/// The hash after bytes.
fn after_bytes(hash: u32, bytes: &[u8]) -> u32
    ensures { result ≡ definitions.after_bytes hash bytes.now }
{
    let (words, rest) = bytes.as_chunks::<4>();
    let hash = after_words(hash, words);
    if rest.is_empty() {
        hash
    } else {
        (hash ^ word_of(rest)).wrapping_mul(MULTIPLIER)
    }
}

/// Murmur2 of 32 bits.
#[tactic(auto, unfolding(machine_spec::specs::Hashes::murmur2))]
fn murmur2(bytes: &[u8]) -> u32
    ensures { result ≡ definitions.murmur2 bytes.now }
{
    let length = (bytes.len() % (1 << 32)) as u32;
    let hash = after_bytes(SEED ^ length, bytes);
    folded(folded(hash, 13).wrapping_mul(MULTIPLIER), 15)
}

/// The hash of a part by which Kafka's clients choose a partition: murmur2 with their seed, the sign bit
/// cleared. It is 0 of a null part, and of one that the record hasn't.
pub fn hash(given: &RecordRef, part: Part) -> u64
    ensures { result ≡ definitions.hash_answer given.now part }
{
    let Some(bytes) = part_of(given, part) else {
        return 0;
    };
    match bytes.as_slice() {
        Some(bytes) => (murmur2(bytes) & UNSIGNED) as u64,
        None => 0,
    }
}
