// A post over a lent memory of entries.
ghost use Rattle.std.specs.Prelude.{◌≡◌, ◌<◌, length, replicate, slice_index_or, slice_set};
ghost use Rattle.posts.specs.Layouts.{places_of, reach_of, place_index, layout_laws};
ghost use Rattle.posts.specs.Places.{no_words};

use crate::address::{Address, Served};
use crate::entry::Entry;
use crate::fault::PostFault;
use crate::fill::{Fill, post_into, take_from};
use crate::place::Place;
use crate::post::{Post, PostView};

// The post that keeps its words in a lent memory of such entries, round after round.
#[derive(Drop)]
pub struct Stored<'a, E> {
    memory: &'a mut [E],
}

impl<'a, E: Entry> Stored<'a, E> {
    // A post over this memory, which is emptied. Any length will do, and gives the reach.
    pub fn new(memory: &'a mut [E]) -> Stored<'a, E>
        ensures places { places_of E.layout result.memory.now ≡ no_words }
        ensures reach { reach_of E.layout result.memory.now ≡ reach_of E.layout memory.old }
        ensures memory { result.memory.now ≡ replicate (length memory.old) E.layout.blank }
    {
        empty(memory);
        Stored { memory }
    }
}

// Empties each entry of the memory.
fn empty<E: Entry>(memory: &mut [E])
    ensures places { places_of E.layout memory.new ≡ no_words }
    ensures reach { reach_of E.layout memory.new ≡ reach_of E.layout memory.old }
    ensures memory { memory.new ≡ replicate (length memory.old) E.layout.blank }
{
    for entry in memory.iter_mut() {
        *entry = E::blank();
    }
}

// How many rounds the memory serves, at most 32. (With `min` a loop up to the reach takes up to twice
// the time.)
fn rounds_of<E: Entry>(memory: &[E]) -> u8
    ensures { result ≡ reach_of E.layout memory.now }
{
    let rounds = memory.len() / E::ROUND;
    if rounds < 32 { rounds as u8 } else { 32 }
}

// The index in the memory of the entry of an address. (Slices of rounds, by chunks whose length an entry's kind
// gives, would need a second index into each, and are no plainer.)
fn index_of<E: Entry>(memory: &[E], place: Served) -> usize
    requires { place.reach ≡ reach_of E.layout memory.now }
    ensures is { result ≡ place_index E.layout place.at.sender place.at.receiver place.at.round }
    ensures inside { result < length memory.now }
{
    (usize::from(place.at.round) - 1) * E::ROUND + E::index(place.at.sender, place.at.receiver)
}

// Changes the entry of an address.
fn change<E: Entry, F: FnOnce(E) -> E>(memory: &mut [E], place: Served, becomes: F)
    requires served { place.reach ≡ reach_of E.layout memory.old }
    requires callable { F.IsAlwaysCallable becomes }
    ensures { let i = place_index E.layout place.at.sender place.at.receiver place.at.round in (e : _) × F.post becomes (slice_index_or memory.old i E.layout.blank) e × (memory.new ≡ slice_set memory.old i e) }
{
    let index = index_of(memory, place);
    memory[index] = becomes(memory[index]);
}

// What the memory holds at an address.
fn place_in<E: Entry>(memory: &[E], at: Address) -> Place<E::Word>
    ensures { result ≡ places_of E.layout memory.now at.sender at.receiver at.round }
{
    match Served::of(at, rounds_of(memory)) {
        Ok(place) => memory[index_of(memory, place)].says(at.receiver),
        Err(_) => Place::Empty,
    }
}

impl<'a, E: Entry> PostView<E::Word> for Stored<'a, E> {
    ghost places = { λ s. places_of E.layout s.memory.now };

    ghost reach = { λ s. reach_of E.layout s.memory.now };

    ghost laws = { layout_laws E.layout (λ s. s.memory.now) };

    fn place(&self, at: Address) -> Place<E::Word> {
        place_in(self.memory, at)
    }

    fn reach(&self) -> u8 {
        rounds_of(self.memory)
    }
}

impl<'a, E: Entry> Fill<E::Word> for Stored<'a, E> {
    fn fill(&mut self, place: Served, word: E::Word) {
        change(self.memory, place, |entry: E| {
            entry.posted(place.at.receiver, word)
        });
    }

    fn mark(&mut self, place: Served, word: E::Word) {
        change(self.memory, place, |entry: E| {
            entry.taken(place.at.receiver, word)
        });
    }
}

impl<'a, E: Entry> Post<E::Word> for Stored<'a, E> {
    fn post(&mut self, at: Address, word: E::Word) -> Result<(), PostFault> {
        post_into(self, at, word)
    }

    fn take(&mut self, at: Address) -> Result<E::Word, PostFault> {
        take_from(self, at)
    }
}
