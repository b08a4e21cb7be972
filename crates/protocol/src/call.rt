// The seven calls of a release.

// What an office does, or what is told to it. The numbers may be any: a call asks first whether they
// are offices of the release.
#[derive(Clone, Copy, Debug, PartialEq, Eq)]
pub enum Call {
    // votes yes (1) or no (0); a number, not a truth value, since a call may carry any numbers and is asked
    // whether its vote is 0 or 1
    Vote { office: u8, vote: u8 },
    // posts its word of its phase and round to the other (in the field's terms, sends a message)
    Speak { office: u8, other: u8 },
    // takes the other's word of its own phase and round (receives a message)
    Hear { office: u8, other: u8 },
    // ends its round
    Close { office: u8 },
    // ends for good (a site failure); what it has posted stays
    DropOut { office: u8 },
    // is told that the other dropped out (a failure notification)
    Notice { office: u8, other: u8 },
    // enters the termination because a termination word waits for it
    Join { office: u8 },
}
