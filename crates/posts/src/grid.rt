// The grid: an entry for each place.
ghost use Rattle.posts.specs.Grids.{grid};
ghost use Rattle.posts.specs.GridsLemmas.{grid_sound};
ghost use Rattle.std.proofs.Common.{refl};

use crate::entry::Entry;
use crate::place::Place;
use crate::stored::Stored;
use words::Word;

// A post over a lent memory of places, 256 for a round (in the field's terms, point-to-point buffers).
pub type Grid<'a, W> = Stored<'a, Place<W>>;

impl<W: Word + Copy> Entry for Place<W> {
    type Word = W;

    ghost layout = { grid };

    const ROUND: usize = 256;

    ghost ROUND = { 256 };

    ghost size = { refl };

    ghost sound = { grid_sound };

    fn blank() -> Place<W> {
        Place::Empty
    }

    // For each sender the sixteen receivers.
    fn index(sender: u8, receiver: u8) -> usize {
        usize::from(sender) * 16 + usize::from(receiver)
    }

    fn says(self, _receiver: u8) -> Place<W> {
        self
    }

    fn posted(self, _receiver: u8, word: W) -> Place<W> {
        Place::Waiting(word)
    }

    fn taken(self, _receiver: u8, word: W) -> Place<W> {
        Place::Taken(word)
    }
}
