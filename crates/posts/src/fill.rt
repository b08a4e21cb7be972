// How the posts of this crate write, and how they post and take.
ghost use Rattle.std.specs.Prelude.{◌≡◌, true};
ghost use Rattle.posts.specs.declared.place.Place.TheVariants.{Waiting, Taken};
ghost use Rattle.posts.specs.Calls.{Posted, Took};
ghost use Rattle.posts.specs.Places.{consistent, vacant, put};

use crate::address::{Address, Served};
use crate::fault::PostFault;
use crate::place::Place;
use crate::post::PostView;
use crate::questions::agrees_in;
use words::Word;

// What a post of this crate writes, once its questions are asked.
pub(crate) trait Fill<W: Word + Copy>: PostView<W> {
    // Fills an empty place with a word that equals the sender's words of that round.
    fn fill(&mut self, place: Served, word: W)
        requires served { place.reach ≡ Self.PostView.reach self.old }
        requires agrees { consistent W.eq (Self.PostView.places self.old) place.at.sender place.at.round word ≡ true }
        requires free { vacant (Self.PostView.places self.old place.at.sender place.at.receiver place.at.round) ≡ true }
        ensures reach { Self.PostView.reach self.new ≡ Self.PostView.reach self.old }
        ensures places { Self.PostView.places self.new ≡ put (Self.PostView.places self.old) place.at.sender place.at.receiver place.at.round (Waiting word) };

    // Marks the word that waits in a place as taken.
    fn mark(&mut self, place: Served, word: W)
        requires served { place.reach ≡ Self.PostView.reach self.old }
        requires waits { Self.PostView.places self.old place.at.sender place.at.receiver place.at.round ≡ Waiting word }
        ensures reach { Self.PostView.reach self.new ≡ Self.PostView.reach self.old }
        ensures places { Self.PostView.places self.new ≡ put (Self.PostView.places self.old) place.at.sender place.at.receiver place.at.round (Taken word) };
}

// Asks the questions of posting, and fills the place.
pub(crate) fn post_into<W: Word + Copy, P: Fill<W>>(
    post: &mut P,
    at: Address,
    word: W,
) -> Result<(), PostFault>
    ensures reach { P.PostView.reach post.new ≡ P.PostView.reach post.old }
    ensures answer { Posted (P.PostView.places post.old) (P.PostView.reach post.old) at.sender at.receiver at.round word (P.PostView.places post.new) result }
{
    let place = Served::of(at, post.reach())?;
    if !agrees_in(post, at.sender, at.round, &word) {
        return Err(PostFault::OtherWord);
    }
    if !post.place(at).is_empty() {
        return Err(PostFault::Filled);
    }
    post.fill(place, word);
    Ok(())
}

// Asks the questions of taking, gives the word and marks it taken.
pub(crate) fn take_from<W: Word + Copy, P: Fill<W>>(
    post: &mut P,
    at: Address,
) -> Result<W, PostFault>
    ensures reach { P.PostView.reach post.new ≡ P.PostView.reach post.old }
    ensures answer { Took (P.PostView.places post.old) (P.PostView.reach post.old) at.sender at.receiver at.round (P.PostView.places post.new) result }
{
    let place = Served::of(at, post.reach())?;
    let Place::Waiting(word) = post.place(at) else {
        return Err(PostFault::NothingWaits);
    };
    post.mark(place, word);
    Ok(word)
}
