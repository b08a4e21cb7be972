// What every post is: what can be read of it, and posting and taking.
ghost use Rattle.std.specs.Prelude.{◌≡◌, ℕ};
ghost use Rattle.posts.specs.Calls.{Posted, Took};
ghost use Rattle.posts.specs.Places.{Places, PostLaws};

use crate::address::Address;
use crate::fault::PostFault;
use crate::place::Place;
use words::Word;

// What can be read of a post.
pub trait PostView<W: Word + Copy> {
    // What it holds, by sender, receiver and round.
    ghost places: { Self → Places W };

    // Its reach: it serves the rounds from 1 to this (in the field's terms, how many rounds of messages
    // it can store).
    ghost reach: { Self → ℕ };

    // What holds of every post.
    ghost laws: { PostLaws places reach };

    // What the place at an address holds.
    fn place(&self, at: Address) -> Place<W>
        ensures { result ≡ places self.now at.sender at.receiver at.round };

    fn reach(&self) -> u8
        ensures { result ≡ reach self.now };
}

// A post, for words of any kind (in the field's terms, mailboxes: one for each sender, receiver and
// round). That the reach stays is said by each call that changes a post: it is a promise of the call.
pub trait Post<W: Word + Copy>: PostView<W> {
    // Fills an empty place with the word, which then waits there.
    fn post(&mut self, at: Address, word: W) -> Result<(), PostFault>
        ensures reach { Self.PostView.reach self.new ≡ Self.PostView.reach self.old }
        ensures answer { Posted (Self.PostView.places self.old) (Self.PostView.reach self.old) at.sender at.receiver at.round word (Self.PostView.places self.new) result };

    // Gives the word that waits in a place, and marks it taken.
    fn take(&mut self, at: Address) -> Result<W, PostFault>
        ensures reach { Self.PostView.reach self.new ≡ Self.PostView.reach self.old }
        ensures answer { Took (Self.PostView.places self.old) (Self.PostView.reach self.old) at.sender at.receiver at.round (Self.PostView.places self.new) result };
}
