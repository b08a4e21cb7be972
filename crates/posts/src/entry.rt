// Entries: what the memory of a post is made of.
ghost use Rattle.std.specs.Prelude.{◌≡◌, ℕ};
ghost use Rattle.posts.specs.Layouts.{Layout, Sound};

use crate::place::Place;
use words::Word;

// A kind of entry, of which so many stand for the places of a round (in the field's terms, a record of
// the storage behind the mailboxes).
pub trait Entry: Copy {
    // The kind of word that it keeps.
    type Word: Word + Copy;

    // How a memory of such entries stands for places.
    ghost layout: { Layout Self Self.Word };

    // How many entries a round has.
    const ROUND: usize;

    ghost ROUND: { ℕ };

    // The entry that says nothing.
    fn blank() -> Self
        ensures { result ≡ layout.blank };

    // Which entry of a round a sender and a receiver have.
    fn index(sender: u8, receiver: u8) -> usize
        ensures { result ≡ layout.slot sender receiver };

    // What the entry says of a receiver.
    fn says(self, receiver: u8) -> Place<Self::Word>
        ensures { result ≡ layout.says self receiver };

    // The entry with the word for one receiver more.
    fn posted(self, receiver: u8, word: Self::Word) -> Self
        ensures { result ≡ layout.posted self receiver word };

    // The entry of which one receiver more took the word.
    fn taken(self, receiver: u8, word: Self::Word) -> Self
        ensures { result ≡ layout.taken self receiver word };

    // A round has as many entries as the layout says.
    ghost size: { ROUND ≡ layout.size };

    // What holds of every kind of entry.
    ghost sound: { Sound layout };
}
