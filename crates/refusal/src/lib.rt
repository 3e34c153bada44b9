// The causes for which a call or a list of days is refused.
#![tactic(auto)]

ghost use Rattle.std.specs.Prelude.{◌≡◌};
ghost use Rattle.refusal.specs.Number.{number};

// A cause; its number is that of document 02 and of the header.
#[derive(Clone, Copy, Debug, PartialEq, Eq)]
pub enum Refusal {
    BadVerb = 1,
    BadSize,
    BadTable,
    BadMail,
    BadNumber,
    WrongStage,
    WrongItem,
    NoMessage,
    MailFull,
    NoCycle,
    ShortBuffer,
    BadList,
    Nobody,
    BadRanks,
    InUse,
}

impl From<Refusal> for u8 {
    ghost from_gives = { λ r n. n ≡ number r };

    fn from(refusal: Refusal) -> u8 {
        refusal as u8
    }
}
