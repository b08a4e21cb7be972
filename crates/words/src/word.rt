// Words of any kind, words that can be joined, and the sum of a list of them.
ghost use Rattle.std.specs.Prelude.{◌≡◌, Decides};
ghost use Rattle.words.specs.Sum.{sum_of, LeastBound, AnyOrder};

// A kind of word (in the field's terms, a kind of message): any two can be told equal or different.
pub trait Word: PartialEq {
    // Their equality is exact.
    ghost exact: { (x y : Self) → Decides (Self.eq x y) (x ≡ y) };
}

// A kind of word that can be summed: a join (a least upper bound, as in a semilattice) and an empty
// word, its least element.
pub trait Joining: Word + Sized {
    // The empty word.
    ghost nil: { Self };

    // What two words say together.
    ghost join: { Self → Self → Self };

    fn empty() -> Self
        ensures { result ≡ nil };

    fn joined(self, other: Self) -> Self
        ensures { result ≡ join self other };

    // Joining is associative.
    ghost assoc: { (x y z : Self) → join (join x y) z ≡ join x (join y z) };

    // It is commutative.
    ghost comm: { (x y : Self) → join x y ≡ join y x };

    // It is idempotent.
    ghost idem: { (x : Self) → join x x ≡ x };

    // The empty word changes nothing.
    ghost unit: { (x : Self) → join nil x ≡ x };
}

// The sum of the words, each joined to the empty word: the same in any order. (Its proof is written by hand,
// below, so that a bug planted here is refused here.)
pub fn sum<W: Joining + Copy>(words: &[W]) -> W
    ensures value { result ≡ sum_of W.Joining.nil W.Joining.join words.now }
    ensures bound { LeastBound W.Joining.join words.now result }
    ensures any_order { AnyOrder W.Joining.nil W.Joining.join words.now result }
{
    folded(words)
}

// Joins the words to the empty word, one after another.
fn folded<W: Joining + Copy>(words: &[W]) -> W
    ensures value { result ≡ sum_of W.Joining.nil W.Joining.join words.now }
    ensures bound { LeastBound W.Joining.join words.now result }
    ensures any_order { AnyOrder W.Joining.nil W.Joining.join words.now result }
{
    words
        .iter()
        .fold(W::empty(), |total, word| total.joined(*word))
}
