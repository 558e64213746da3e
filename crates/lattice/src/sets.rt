ghost use Rattle.std.specs.Prelude.{◌≡◌, ◌||◌, not};
ghost use Rattle.verifier_spec.specs.StackSets.{is_set, intersection};
ghost use Rattle.verifier_spec.specs.States.{each_below};

use machine_spec::STACK_SIZE;
use verifier_spec::StackSet;

/// Whether each place of the second set is in the first: each word of eight has its bits.
fn are_words_within(inner: &[u64; 8], outer: &[u64; 8]) -> bool
    ensures { result ≡ each_below STACK_SIZE (λ place.
        not (is_set (record { words = outer.now }) place) || is_set (record { words = inner.now }) place) }
{
    for word in 0..8 {
        if inner[word] & outer[word] != outer[word] {
            return false;
        }
    }
    true
}

/// Whether each place of the second set is in the first.
pub fn is_within(inner: &StackSet, outer: &StackSet) -> bool
    ensures { result ≡ each_below STACK_SIZE (λ place. not (is_set outer.now place) || is_set inner.now place) }
{
    are_words_within(&inner.words, &outer.words)
}

fn common_words(words: &[u64; 8], others: &[u64; 8]) -> [u64; 8]
    ensures { result ≡ (intersection (record { words = words.now }) (record { words = others.now })).words }
{
    let mut common = *words;
    for word in 0..8 {
        common[word] = words[word] & others[word];
    }
    common
}

/// The places that are in both sets.
pub fn intersection(a: &StackSet, b: &StackSet) -> StackSet
    ensures { result ≡ intersection a.now b.now }
{
    StackSet {
        words: common_words(&a.words, &b.words),
    }
}
