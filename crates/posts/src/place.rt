// Places: what a post holds for one sender, receiver and round.
ghost use Rattle.std.specs.Prelude.{◌≡◌};
ghost use Rattle.posts.specs.Places.{vacant, waits, agrees};

use words::Word;

// A place (in the field's terms, a slot of a mailbox): nothing, a word that waits to be taken, or a word
// that was taken.
#[derive(Clone, Copy, Debug, PartialEq, Eq)]
pub enum Place<W> {
    Empty,
    Waiting(W),
    Taken(W),
}

impl<W: Word + Copy> Place<W> {
    pub fn is_empty(&self) -> bool
        ensures { result ≡ vacant self.now }
    {
        matches!(self, Place::Empty)
    }

    pub fn is_waiting(&self) -> bool
        ensures { result ≡ waits self.now }
    {
        matches!(self, Place::Waiting(_))
    }

    // Whether the word in the place, if there is one, equals this word.
    pub fn agrees_with(&self, word: &W) -> bool
        ensures { result ≡ agrees W.eq word.now self.now }
    {
        match self {
            Place::Empty => true,
            Place::Waiting(other) | Place::Taken(other) => other == word,
        }
    }
}
