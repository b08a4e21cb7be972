// The notice line: two digits of the office, a space, the text and a line feed.
ghost use Rattle.std.specs.Prelude.{◌≤◌};
ghost use Rattle.notice.specs.Lines.{notice_line, PutOver, Written, Shown};

use crate::fault::NoticeFault;
use crate::lookup::Tables;
use refusals::{refusal_line, two_digits};

// The bytes of the longest line: two digits, a space, a text of 62 and a line feed.
pub const LONGEST_LINE: usize = 66;

// The bytes of a line besides its text.
const AROUND: usize = 4;

// What a counter shows: the office that shows it, and the code of its text.
#[derive(Clone, Copy, Debug, PartialEq, Eq)]
pub struct CounterNotice {
    pub office: u8,
    pub code: u8,
}

impl CounterNotice {
    // Writes the notice line at the front of the output, and answers its length: the output is lent, since
    // no heap is used.
    #[tactic(auto, using(crate::proofs::Written::written), unfolding(crate::specs::Lines::line_questions))]
    pub fn write_line(self, tables: Tables, out: &mut [u8]) -> Result<usize, NoticeFault>
        ensures { Written self.office self.code tables.entry.own.now tables.entry.english.now out.old out.new result }
    {
        if self.office >= 16 {
            return Err(NoticeFault::Office);
        }
        let text = tables.look_up(self.code)?;
        put_line(self.office, text, out).ok_or(NoticeFault::Room)
    }

    // Writes what a counter shows at the front of the output: the notice line, or the refusing number as
    // a line of two digits. Answers the length of what it wrote: no heap is used, so the output is lent
    // memory of a fixed size, and what stands past the line stays as it was.
    pub fn show_line(self, tables: Tables, out: &mut [u8; LONGEST_LINE]) -> usize
        ensures shown { Shown self.office self.code tables.entry.own.now tables.entry.english.now out.old out.new result }
        ensures within { result ≤ 66 }
    {
        match self.write_line(tables, out) {
            Ok(length) => length,
            Err(fault) => {
                let line = refusal_line(&fault);
                out[..line.len()].copy_from_slice(&line);
                line.len()
            }
        }
    }
}

// Writes the line over the front of the lent output, where that has room, and gives its length.
fn put_line(office: u8, text: &[u8], out: &mut [u8]) -> Option<usize>
    ensures { PutOver (notice_line office text.now) out.old out.new result }
{
    let (head, rest) = out.split_first_chunk_mut::<3>()?;
    let (place, rest) = rest.split_at_mut_checked(text.len())?;
    let (feed, _) = rest.split_first_mut()?;
    let [tens, ones] = two_digits(office);
    *head = [tens, ones, b' '];
    place.copy_from_slice(text);
    *feed = b'\n';
    Some(text.len() + AROUND)
}
