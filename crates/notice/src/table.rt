// Text tables: records of 64 bytes, each a code, a length, a text of that length, and zeros.
ghost use Rattle.std.specs.Prelude.{◌≡◌, ℕ, ◌<◌, length, slice_index, Decides, MatchOption, MatchResult};
ghost use Rattle.std.proofs.Props.{props};
ghost use Rattle.notice.specs.declared.fault.TextFault.TheVariants.{Table, Record};
ghost use Rattle.notice.specs.Tables.{Sized, FormedAt, Formed, Found, Lacks, FirstRecord, EachRecord, records};

use crate::fault::TextFault;

// The bytes of a record.
const RECORD: usize = 64;

// The most records that a table has.
const MOST_RECORDS: usize = 256;

// The bytes of a record before its text: its code and the length of its text.
const HEAD: usize = 2;

// The longest text of a record.
const LONGEST: usize = 62;

// The bytes of a table that is made of whole records, and at most 256 of them.
#[derive(Clone, Copy, Debug)]
pub(crate) struct Records<'a> {
    bytes: &'a [u8],
    ghost sized: { Sized bytes.now },
}

impl<'a> Records<'a> {
    // The records of a table, where it is so made.
    pub(crate) fn of(bytes: &'a [u8]) -> Result<Records<'a>, TextFault>
        ensures { MatchResult result (λ r. r.bytes.now ≡ bytes.now) (λ e. (e ≡ Table) × (Sized bytes.now → ⊥)) }
    {
        let (whole, rest) = bytes.as_chunks::<RECORD>();
        if !rest.is_empty() || whole.len() > MOST_RECORDS {
            return Err(TextFault::Table);
        }
        Ok(Records { bytes })
    }

    // The records one by one.
    #[tactic(auto, using(crate::proofs::Records::chunk_at))]
    fn each(self) -> &'a [[u8; RECORD]]
        ensures count { length result.now ≡ records self.entry.bytes.now }
        ensures parts { EachRecord self.entry.bytes.now result.now }
    {
        self.bytes.as_chunks::<RECORD>().0
    }

    // The first record with this code.
    fn first_with(self, code: u8) -> Option<&'a [u8; RECORD]>
        ensures { MatchOption result (Lacks self.entry.bytes.now code) (λ r. FirstRecord self.entry.bytes.now code r.now) }
    {
        let all = self.each();
        for record in all {
            if record[0] == code {
                return Some(record);
            }
        }
        None
    }

    // The table, where each of its records has a length of 1 to 62 and zeros after its text.
    pub(crate) fn formed(self) -> Result<TextTable<'a>, TextFault>
        ensures { MatchResult result (λ r. r.records.bytes.now ≡ self.entry.bytes.now) (λ e. (e ≡ Record) × (Formed self.entry.bytes.now → ⊥)) }
    {
        let all = self.each();
        for record in all {
            if !record_formed(record) {
                return Err(TextFault::Record);
            }
        }
        Ok(TextTable { records: self })
    }
}

// A table whose records each have a length of 1 to 62 and zeros after their text.
#[derive(Clone, Copy, Debug)]
pub(crate) struct TextTable<'a> {
    records: Records<'a>,
    ghost formed: { Formed records.bytes.now } by { Prim.hlevel props },
}

impl<'a> TextTable<'a> {
    // The text of the first record with this code.
    #[tactic(auto, using(crate::proofs::Records::first_fits, crate::proofs::Records::first_text))]
    pub(crate) fn find(self, code: u8) -> Option<&'a [u8]>
        ensures { Found self.entry.records.bytes.now code result }
    {
        let record = self.records.first_with(code)?;
        let length = usize::from(record[1]);
        Some(&record[HEAD..HEAD + length])
    }
}

// Whether a record has a length of 1 to 62 and zeros after its text.
fn record_formed(bytes: &[u8; RECORD]) -> bool
    ensures { Decides result (FormedAt bytes.now 0) }
{
    let length = usize::from(bytes[1]);
    (1..=LONGEST).contains(&length) && all_zero(&bytes[HEAD + length..])
}

// Whether each byte is zero.
fn all_zero(bytes: &[u8]) -> bool
    ensures { Decides result ((j : ℕ) → j < length bytes.now → slice_index bytes.now j ≡ 0) }
{
    for byte in bytes {
        if *byte != 0 {
            return false;
        }
    }
    true
}
