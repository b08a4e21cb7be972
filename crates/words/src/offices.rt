// Sets of offices.
ghost use Rattle.std.specs.Prelude.{◌≡◌, Decides, MatchBool};
ghost use Rattle.words.specs.Offices.{member, none, union, added, empty, full, Union, Added, Vacant, Inhabited, HoldsAll};

// A set of offices (in the field's terms, sites), which are numbered 0 to 15: a mask with a bit for each.
#[derive(Clone, Copy, Debug, PartialEq, Eq)]
pub struct Offices {
    mask: u16,
}

#[tactic(auto, using(crate::proofs::Masks::bits), unfolding(crate::specs::Masks::bit, crate::specs::Masks::lone))]
impl Offices {
    // The set without members.
    pub fn none() -> Offices
        ensures value { result ≡ none }
        ensures members { Vacant result }
    {
        Offices { mask: 0 }
    }

    #[tactic(auto, using(crate::proofs::Masks::bit_reads))]
    pub fn contains(&self, office: u8) -> bool
        ensures { result ≡ member self.now office }
    {
        let mask = self.mask;
        office < 16 && (mask >> office) % 2 == 1
    }

    // The set with one office more; a number from 16 up is no office and adds nothing.
    pub fn with(self, office: u8) -> Offices
        ensures value { result ≡ added self office }
        ensures members { Added self office result }
    {
        let lone = if office < 16 { 1 << office } else { 0 };
        Offices {
            mask: self.mask | lone,
        }
    }

    pub fn union(self, other: Offices) -> Offices
        ensures value { result ≡ union self other }
        ensures members { Union self other result }
    {
        Offices {
            mask: self.mask | other.mask,
        }
    }

    pub fn is_empty(&self) -> bool
        ensures value { result ≡ empty self.now }
        ensures members { MatchBool result (Vacant self.now) (Inhabited self.now) }
    {
        self.mask == 0
    }

    // Whether the set holds every office below n: then the mask ends in n ones or more.
    #[tactic(auto, using(crate::proofs::Masks::first_ones))]
    pub fn holds_all(&self, n: u8) -> bool
        ensures value { result ≡ full n self.now }
        ensures members { Decides result (HoldsAll n self.now) }
    {
        self.mask.trailing_ones() >= u32::from(n)
    }
}
