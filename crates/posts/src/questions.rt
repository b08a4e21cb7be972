// What is asked of any post.
ghost use Rattle.std.specs.Prelude.{◌≡◌, ◌+◌, Bool, Decides};
ghost use Rattle.words.specs.Below.{some};
ghost use Rattle.posts.specs.declared.place.Place.{Place};
ghost use Rattle.posts.specs.Places.{consistent, Consistent, WaitsFrom, Used};
ghost use Rattle.posts.specs.Tests.{some_waits, sent, sent_to};

use crate::address::Address;
use crate::place::Place;
use crate::post::PostView;
use words::Word;

// Whether the word equals all words of the sender in that round, waiting or taken.
#[tactic(auto, unfolding(words::specs::Below::every))]
pub(crate) fn agrees_in<W: Word + Copy, P: PostView<W>>(
    post: &P,
    sender: u8,
    round: u8,
    word: &W,
) -> bool
    ensures value { result ≡ consistent W.eq (P.PostView.places post.now) sender round word.now }
    ensures rule { Decides result (Consistent (P.PostView.places post.now) sender round word.now) }
{
    (0..16).all(|receiver| {
        post.place(Address {
            sender,
            receiver,
            round,
        })
        .agrees_with(word)
    })
}

// Whether any word waits from one office for another; the two without a round are no address. (Its proof is
// written by hand, below, so that a bug planted here is refused here.)
pub fn any_waiting<W: Word + Copy, P: PostView<W>>(post: &P, sender: u8, receiver: u8) -> bool
    ensures value { result ≡ some_waits (P.PostView.places post.now) (P.PostView.reach post.now) sender receiver }
    ensures rule { Decides result (WaitsFrom (P.PostView.places post.now) sender receiver) }
{
    waits_between(post, sender, receiver)
}

// Whether any word was ever posted. (Its proof too is written by hand, below.)
pub fn ever_posted<W: Word + Copy, P: PostView<W>>(post: &P) -> bool
    ensures { Decides result (Used (P.PostView.places post.now)) }
{
    sent_by_any(post)
}

// Whether in some round the place from one office to another passes the test. The rounds go from 1 to the
// reach; the library has no lemma on what a chain over `1..=n` yields.
fn in_some_round<W: Word + Copy, P: PostView<W>, T: Fn(Place<W>) -> bool>(
    post: &P,
    sender: u8,
    receiver: u8,
    test: T,
) -> bool
    requires { T.IsAlwaysCallable test }
    ensures { (p : Place W → Bool) → ((x : Place W) (b : Bool) → T.post test x b → b ≡ p x) → result ≡ some (P.PostView.reach post.now) (λ j. p (P.PostView.places post.now sender receiver (j + 1))) }
{
    (0..post.reach()).any(|before| {
        test(post.place(Address {
            sender,
            receiver,
            round: before + 1,
        }))
    })
}

// Goes through the rounds for a word that waits.
fn waits_between<W: Word + Copy, P: PostView<W>>(post: &P, sender: u8, receiver: u8) -> bool
    ensures value { result ≡ some_waits (P.PostView.places post.now) (P.PostView.reach post.now) sender receiver }
    ensures rule { Decides result (WaitsFrom (P.PostView.places post.now) sender receiver) }
{
    in_some_round(post, sender, receiver, |place: Place<W>| place.is_waiting())
}

// Goes through the senders for a word that was posted.
#[tactic(auto, unfolding(words::specs::Below::some))]
fn sent_by_any<W: Word + Copy, P: PostView<W>>(post: &P) -> bool
    ensures { Decides result (Used (P.PostView.places post.now)) }
{
    (0..16).any(|sender| sent_by(post, sender))
}

// Whether any word was posted by this office.
#[tactic(auto, unfolding(words::specs::Below::some))]
fn sent_by<W: Word + Copy, P: PostView<W>>(post: &P, sender: u8) -> bool
    ensures { result ≡ sent (P.PostView.places post.now) (P.PostView.reach post.now) sender }
{
    (0..16).any(|receiver| sent_between(post, sender, receiver))
}

// Whether any word was posted from one office to another.
fn sent_between<W: Word + Copy, P: PostView<W>>(post: &P, sender: u8, receiver: u8) -> bool
    ensures { result ≡ sent_to (P.PostView.places post.now) (P.PostView.reach post.now) sender receiver }
{
    in_some_round(post, sender, receiver, |place: Place<W>| !place.is_empty())
}
