// Refusals: a call asks numbered questions in a fixed order, and the first that gets a no refuses it.
// The refused call answers a fault, which stands for that question, and changes nothing.
#![tactic(auto)]

ghost use Rattle.std.specs.Prelude.{◌≡◌, ℕ, ◌<◌, [], ◌∷◌, ◌++◌};
ghost use Rattle.refusals.specs.Digits.{two_digits};

// A type of faults (in the field's terms, of error codes).
pub trait Refusal: Sized {
    // The number of the question that got a no.
    ghost number: { Self → ℕ };

    fn number(&self) -> u8
        ensures { result ≡ number self.now };

    // A number has at most two digits.
    ghost digits: { (f : Self) → number f < 100 };
}

// The two decimal digits of a number below 100, in ASCII. They are computed, since no heap is used and the
// proof of `write!` with `{:02}` into a lent slice doesn't close: it learns nothing of the bytes written.
pub fn two_digits(n: u8) -> [u8; 2]
    ensures { result ≡ two_digits n }
{
    [b'0' + n / 10, b'0' + n % 10]
}

// The line that a program prints for a refusal: the number in two digits, and a line feed.
pub fn refusal_line<F: Refusal>(fault: &F) -> [u8; 3]
    ensures { result ≡ two_digits (F.Refusal.number fault.now) ++ (10 ∷ []) }
{
    let [tens, ones] = two_digits(fault.number());
    [tens, ones, b'\n']
}
