// Knowledge, its class, and which classes are decisions.
ghost use Rattle.std.specs.Prelude.{◌≡◌};
ghost use Rattle.words.specs.Classes.{class_of, Classified, decision_of};
ghost use Rattle.words.specs.Knowledge.{knows_nothing, pooled, Pooled};
ghost use Rattle.std.proofs.Common.{rules};
ghost use Rattle.words.specs.MasksLemmas.{or_assoc};
ghost use Rattle.std.proofs.lemmas.Nat.{or_comm};
ghost use Rattle.std.specs.Int.Bits.{or_self};

use crate::offices::Offices;
use crate::word::{Joining, Word};

// What an office knows of the vote (in the field's terms, its vote and prepared sets): who voted
// yes, who voted no, and who is ready, that is knows that all voted yes.
#[derive(PartialEq, Eq, Clone, Copy, Debug)]
pub struct Knowledge {
    pub yes: Offices,
    pub no: Offices,
    pub ready: Offices,
}

impl Word for Knowledge {
    ghost exact = { Prim.search rules };
}

// Two knowledges join set by set.
impl Joining for Knowledge {
    ghost nil = { knows_nothing };

    ghost join = { pooled };

    ghost assoc = { λ x y z. simp or_assoc };

    ghost comm = { λ x y. cc (or_comm x.yes.mask y.yes.mask, or_comm x.no.mask y.no.mask, or_comm x.ready.mask y.ready.mask) };

    ghost idem = { λ x. simp or_self };

    ghost unit = { Prim.search rules };

    fn empty() -> Knowledge {
        Knowledge {
            yes: Offices::none(),
            no: Offices::none(),
            ready: Offices::none(),
        }
    }

    fn joined(self, other: Knowledge) -> Knowledge
        ensures value { result ≡ pooled self other }
        ensures members { Pooled self other result }
    {
        Knowledge {
            yes: self.yes.union(other.yes),
            no: self.no.union(other.no),
            ready: self.ready.union(other.ready),
        }
    }
}

// What a knowledge says of the release (in the field's terms, the class of a site's local state).
#[derive(Clone, Copy, Debug, PartialEq, Eq)]
pub enum Class {
    Noncommittable,
    Committable,
    Committed,
    Aborted,
}

// What an office decides: to hand the item over, or to keep it.
#[derive(Clone, Copy, Debug, PartialEq, Eq)]
pub enum Decision {
    Commit,
    Abort,
}

impl Knowledge {
    // The class among n offices, by the first rule that fits: aborted if `no` has a member, committed
    // if `ready` holds all n, committable if `yes` holds all n, else noncommittable.
    pub fn class(&self, n: u8) -> Class
        ensures value { result ≡ class_of n self.now }
        ensures rule { Classified n self.now result }
    {
        if !self.no.is_empty() {
            Class::Aborted
        } else if self.ready.holds_all(n) {
            Class::Committed
        } else if self.yes.holds_all(n) {
            Class::Committable
        } else {
            Class::Noncommittable
        }
    }
}

impl Class {
    // The decision that the class is, if it is one.
    pub fn decision(self) -> Option<Decision>
        ensures { result ≡ decision_of self }
    {
        match self {
            Class::Committed => Some(Decision::Commit),
            Class::Aborted => Some(Decision::Abort),
            Class::Noncommittable | Class::Committable => None,
        }
    }
}
