// Termination words.
ghost use Rattle.std.specs.Prelude.{◌≡◌};
ghost use Rattle.words.specs.Terms.{higher, Higher};
ghost use Rattle.words.specs.declared.term.TermWord.TheVariants.{Noncommittable};
ghost use Rattle.std.proofs.Common.{rules};

use crate::word::{Joining, Word};

// A termination word: what an office says of its state in a round of the termination protocol
// (in the field's terms, the state message), in rising order.
#[derive(Clone, Copy, Debug, PartialEq, Eq, PartialOrd, Ord)]
pub enum TermWord {
    Noncommittable,
    Committable,
    Abort,
}

impl Word for TermWord {
    ghost exact = { Prim.search rules };
}

// Two words join to the higher.
impl Joining for TermWord {
    ghost nil = { Noncommittable };

    ghost join = { higher };

    ghost assoc = { Prim.search rules };

    ghost comm = { Prim.search rules };

    ghost idem = { Prim.search rules };

    ghost unit = { Prim.search rules };

    fn empty() -> TermWord {
        TermWord::Noncommittable
    }

    fn joined(self, other: TermWord) -> TermWord
        ensures value { result ≡ higher self other }
        ensures rule { Higher self other result }
    {
        self.max(other)
    }
}
