// The text for a code.
ghost use Rattle.notice.specs.Texts.{LookedUp};

use crate::fault::TextFault;
use crate::table::Records;

// The table of an office's language, and the English one.
#[derive(Clone, Copy, Debug)]
pub struct Tables<'a> {
    pub own: &'a [u8],
    pub english: &'a [u8],
}

impl<'a> Tables<'a> {
    // The text for a code: a part of the office's table, or, where that lacks the code, of the English
    // one.
    pub fn look_up(self, code: u8) -> Result<&'a [u8], TextFault>
        ensures { LookedUp self.entry.own.now self.entry.english.now code result }
    {
        let own = Records::of(self.own)?;
        let english = Records::of(self.english)?;
        let own = own.formed()?;
        let english = english.formed()?;
        match own.find(code) {
            Some(text) => Ok(text),
            // with `or_else` the proof doesn't close: it learns nothing of a text that a closure lends
            None => english.find(code).ok_or(TextFault::Code),
        }
    }
}
