// Posts over memories of several sizes, for both kinds of word.
use crate::numbered::numbered;
use posts::{
    Address, Board, BoardEntry, Entry, Grid, Place, Post, PostView, any_waiting, ever_posted,
};
use std::process::Abort;
use words::{Joining, Knowledge, Offices, TermWord, Word};

// The address of a sender, a receiver and a round.
fn at(sender: u8, receiver: u8, round: u8) -> Address {
    Address {
        sender,
        receiver,
        round,
    }
}

// Both posting and taking are refused by this number.
fn refuses<W: Word + Copy, P: Post<W>>(post: &mut P, at: Address, word: W, number: u8) -> bool {
    numbered(post.post(at, word)) == Err(number) && numbered(post.take(at)) == Err(number)
}

// A new post of this reach: offices and rounds that are not legal, 31 before 32.
fn legal_only<W: Word + Copy, P: Post<W>>(rt: &impl Abort, post: &mut P, reach: u8, a: W) {
    assert_eq!(rt; post.reach(), reach);
    assert!(rt; refuses(post, at(16, 1, 1), a, 31) && refuses(post, at(1, 16, 1), a, 31));
    assert!(rt; refuses(post, at(255, 0, 1), a, 31) && refuses(post, at(3, 3, 1), a, 31));
    assert!(rt; refuses(post, at(3, 3, 0), a, 31) && refuses(post, at(15, 14, 0), a, 32));
    assert!(rt; refuses(post, at(0, 1, reach.saturating_add(1)), a, 32));
    assert!(rt;
        !ever_posted(post) && !any_waiting(post, 0, 1) && post.place(at(0, 1, 1)).is_empty()
    );
}

// The same post, if it reaches a round: words wait and are taken, and a sender has one word in a round.
fn exchanges<W: Word + Copy, P: Post<W>>(rt: &impl Abort, post: &mut P, a: W, b: W) {
    assert!(rt;
        numbered(post.post(at(0, 1, 1), a)) == Ok(())
            && any_waiting(post, 0, 1)
            && ever_posted(post)
    );
    assert!(rt; !any_waiting(post, 1, 0) && post.place(at(0, 1, 1)).is_waiting());
    // a second word that differs, and one that is the same
    assert!(rt;
        numbered(post.post(at(0, 1, 1), b)) == Err(33)
            && numbered(post.post(at(0, 1, 1), a)) == Err(34)
    );
    assert!(rt;
        numbered(post.post(at(0, 2, 1), b)) == Err(33)
            && numbered(post.post(at(0, 2, 1), a)) == Ok(())
    );
    // another sender may post another word
    assert!(rt;
        numbered(post.post(at(15, 0, 1), b)) == Ok(()) && numbered(post.take(at(15, 0, 1))) == Ok(b)
    );
    // a word is taken once, and counts as the sender's word after that
    assert!(rt;
        numbered(post.take(at(0, 1, 1))) == Ok(a) && numbered(post.take(at(0, 1, 1))) == Err(35)
    );
    assert!(rt;
        numbered(post.post(at(0, 1, 1), b)) == Err(33)
            && numbered(post.post(at(0, 1, 1), a)) == Err(34)
    );
    assert!(rt;
        numbered(post.post(at(0, 3, 1), b)) == Err(33)
            && numbered(post.take(at(1, 0, 1))) == Err(35)
    );
    assert!(rt; !any_waiting(post, 0, 1) && any_waiting(post, 0, 2) && ever_posted(post));
    // the taken word stays in its place, and the other waits still
    let taken = post.place(at(0, 1, 1));
    assert!(rt; !taken.is_empty() && !taken.is_waiting() && taken.agrees_with(&a));
    assert!(rt; !taken.agrees_with(&b) && post.place(at(0, 2, 1)).is_waiting());
}

// Outside legal offices and rounds a place is empty and no word waits, whatever was posted.
fn empty_outside<W: Word + Copy, P: Post<W>>(rt: &impl Abort, post: &P, reach: u8) {
    assert!(rt;
        post.place(at(0, 2, 0)).is_empty()
            && post.place(at(0, 2, reach.saturating_add(1))).is_empty()
    );
    assert!(rt; post.place(at(16, 2, 1)).is_empty() && post.place(at(0, 16, 1)).is_empty());
    assert!(rt; post.place(at(0, 255, 1)).is_empty() && post.place(at(2, 2, 1)).is_empty());
    assert!(rt;
        !any_waiting(post, 16, 2) && !any_waiting(post, 0, 255) && !any_waiting(post, 2, 2)
    );
}

// The last round that the post reaches, and the first that it does not.
fn last_round<W: Word + Copy, P: Post<W>>(rt: &impl Abort, post: &mut P, reach: u8, a: W) {
    assert!(rt;
        numbered(post.post(at(7, 8, reach), a)) == Ok(())
            && numbered(post.take(at(7, 8, reach))) == Ok(a)
    );
    assert!(rt; refuses(post, at(7, 9, reach.saturating_add(1)), a, 32));
}

fn tried<W: Word + Copy, P: Post<W>>(rt: &impl Abort, post: &mut P, reach: u8, a: W, b: W) {
    legal_only(rt, post, reach, a);
    if reach == 0 {
        assert!(rt; refuses(post, at(0, 1, 1), a, 32));
        return;
    }
    exchanges(rt, post, a, b);
    empty_outside(rt, post, reach);
    last_round(rt, post, reach, a);
}

// Numbers of entries, with the reach of a grid and of a board.
const SIZES: [(usize, u8, u8); 8] = [
    (0, 0, 0),
    (1, 0, 0),
    (15, 0, 0),
    (16, 0, 1),
    (255, 0, 15),
    (256, 1, 16),
    (257, 1, 16),
    (9000, 32, 32),
];

const N: TermWord = TermWord::Noncommittable;

const A: TermWord = TermWord::Abort;

// A knowledge of one yes.
fn one_yes() -> Knowledge {
    let mut knowledge = Knowledge::empty();
    knowledge.yes = Offices::none().with(0);
    knowledge
}

// A grid and a board over these memories, with the reach that each has. Making a post empties its memory.
fn tried_in<W: Word + Copy>(
    rt: &impl Abort,
    (places, grid_reach): (&mut [Place<W>], u8),
    (entries, board_reach): (&mut [BoardEntry<W>], u8),
    a: W,
    b: W,
) {
    let mut grid = Grid::new(places);
    tried(rt, &mut grid, grid_reach, a, b);
    let mut board = Board::new(entries);
    tried(rt, &mut board, board_reach, a, b);
}

// The memories are made in each test, of its own kind of word: the proof that an array of any kind fits into
// memory doesn't close.
#[test]
fn posts_for_termination_words(rt: HostRuntime) {
    for (size, grid_reach, board_reach) in SIZES {
        let mut places = [Place::Waiting(N); 9000];
        let mut entries = [BoardEntry::blank(); 9000];
        let grid = (&mut places[0..size.min(9000)], grid_reach);
        let board = (&mut entries[0..size.min(9000)], board_reach);
        tried_in(&rt, grid, board, A, N);
    }
}

#[test]
fn posts_for_knowledge(rt: HostRuntime) {
    let empty = Knowledge::empty();
    for (size, grid_reach, board_reach) in SIZES {
        let mut places = [Place::Waiting(empty); 9000];
        let mut entries = [BoardEntry::blank(); 9000];
        let grid = (&mut places[0..size.min(9000)], grid_reach);
        let board = (&mut entries[0..size.min(9000)], board_reach);
        tried_in(&rt, grid, board, one_yes(), empty);
    }
}

#[test]
fn a_new_board_is_empty(rt: HostRuntime) {
    let mut entries = [BoardEntry::blank(); 48];
    let mut first = Board::new(&mut entries);
    assert!(rt; numbered(first.post(at(0, 1, 1), A)) == Ok(()) && ever_posted(&first));
    let second = Board::new(&mut entries);
    assert!(rt; !ever_posted(&second) && second.place(at(0, 1, 1)).is_empty());
}
