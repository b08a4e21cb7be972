// Why a look-up and a notice line are refused.
ghost use Rattle.std.specs.Prelude.{◌≡◌};
ghost use Rattle.notice.specs.Faults.{text_number, notice_number};
ghost use Rattle.notice.specs.declared.fault.NoticeFault.TheVariants.{Text};
ghost use Rattle.std.proofs.Common.{rules};

use refusals::Refusal;

// What a look-up is refused for, by the number of its question.
#[derive(Clone, Copy, Debug, PartialEq, Eq)]
pub enum TextFault {
    // A table is not made of at most 256 whole records.
    Table = 25,
    // A record's length is not 1 to 62, or the rest of the record is not zero.
    Record = 26,
    // No table holds the code.
    Code = 27,
}

impl Refusal for TextFault {
    ghost number = { text_number };

    ghost digits = { Prim.search rules };

    fn number(&self) -> u8 {
        *self as u8
    }
}

// What a notice line is refused for.
#[derive(Clone, Copy, Debug, PartialEq, Eq)]
pub enum NoticeFault {
    // The office is not below 16.
    Office,
    // The look-up is refused.
    Text(TextFault),
    // The line is longer than the output.
    Room,
}

impl Refusal for NoticeFault {
    ghost number = { notice_number };

    ghost digits = { Prim.search rules };

    // `as` takes no enum with a variant that has a field, and no other form is plainer than the match.
    fn number(&self) -> u8 {
        match self {
            NoticeFault::Office => 5,
            NoticeFault::Text(fault) => fault.number(),
            NoticeFault::Room => 28,
        }
    }
}

// Written out: a derive states nothing of what it gives.
impl From<TextFault> for NoticeFault {
    ghost from_gives = { λ e r. r ≡ Text e };

    fn from(value: TextFault) -> NoticeFault {
        NoticeFault::Text(value)
    }
}
