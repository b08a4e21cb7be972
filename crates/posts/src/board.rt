// The board: an entry for each sender, with the word, who is addressed and who has taken it.
ghost use Rattle.posts.specs.Boards.{board};
ghost use Rattle.posts.specs.BoardsLemmas.{board_sound};
ghost use Rattle.std.proofs.Common.{refl};

use crate::entry::Entry;
use crate::place::Place;
use crate::stored::Stored;
use words::{Offices, Word};

// A post over a lent memory of such entries, 16 for a round (in the field's terms, a bulletin board).
pub type Board<'a, W> = Stored<'a, BoardEntry<W>>;

// One entry of a board: a sender's word of a round, who is addressed, and who has taken it.
#[derive(Clone, Copy, Debug, PartialEq, Eq)]
pub struct BoardEntry<W> {
    word: Option<W>,
    addressed: Offices,
    taken: Offices,
}

impl<W: Word + Copy> Entry for BoardEntry<W> {
    type Word = W;

    ghost layout = { board };

    const ROUND: usize = 16;

    ghost ROUND = { 16 };

    ghost size = { refl };

    ghost sound = { board_sound };

    fn blank() -> BoardEntry<W> {
        BoardEntry {
            word: None,
            addressed: Offices::none(),
            taken: Offices::none(),
        }
    }

    fn index(sender: u8, _receiver: u8) -> usize {
        usize::from(sender)
    }

    fn says(self, receiver: u8) -> Place<W> {
        match self.word {
            Some(word) if self.taken.contains(receiver) => Place::Taken(word),
            Some(word) if self.addressed.contains(receiver) => Place::Waiting(word),
            _ => Place::Empty,
        }
    }

    // A word that comes first has no other receivers.
    fn posted(self, receiver: u8, word: W) -> BoardEntry<W> {
        let before = match self.word {
            Some(_) => self,
            None => BoardEntry::blank(),
        };
        BoardEntry {
            word: Some(word),
            addressed: before.addressed.with(receiver),
            ..before
        }
    }

    fn taken(self, receiver: u8, _word: W) -> BoardEntry<W> {
        BoardEntry {
            taken: self.taken.with(receiver),
            ..self
        }
    }
}
