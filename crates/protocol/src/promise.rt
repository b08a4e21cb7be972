// What a release promises.
ghost use Rattle.protocol.specs.Promise.{Kept};

// The promise of a release, of every plan, every two posts, every opening and every list of calls.
// It answers nothing: what it is for is what its contract says.
pub fn promise_stands()
    ensures { Kept }
{}
