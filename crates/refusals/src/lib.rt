// Why a call is refused, and the number that the request's table gives it (specs/Refusals.antt). Whatever is
// refused is an `Err` of one of these, and holds nothing else.
#![tactic(auto)]

ghost use Rattle.std.specs.Prelude.{◌≡◌, ℕ};
ghost use Rattle.refusals.specs.Refusals.{number_of, itself, number_by};

// The reasons, in the order of their numbers. Units: p in MPa, T in K, h in kJ/kg, s in kJ/(kg K).
#[derive(Clone, Copy, Debug, PartialEq, Eq)]
pub enum Refusal {
    // 1: an input is NaN or infinite.
    NotFinite,
    // 2: p is out of its range.
    Pressure,
    // 3: T is out of its range.
    Temperature,
    // 4: T is above 1073.15 and p above 50.
    AboveRegion5,
    // 5: a backward query into region 3.
    Region3,
    // 6: h or s is out of its range at p.
    EnthalpyOrEntropy,
    // 7: h and s fit no region.
    NoRegion,
    // 8: a wet state where one phase is needed, or a derivative whose denominator is zero or not finite.
    WetOrSingular,
    // 9: no caller, kind, number of halvings or property has this number.
    UnknownNumber,
    // 10: four tickets of the caller are open.
    FourOpen,
    // 11: the ticket is not open for this caller.
    NotOpen,
    // 12: the job is not ready.
    NotReady,
    // 13: the caller was given 1,000,000 tickets.
    TicketsSpent,
    // 15: the desk is not sound.
    UnsoundDesk,
    // 20: a sheet is shorter than its trailer.
    ShortSheet,
    // 21: a sheet's version is not known, or its last word is not 0.
    Version,
    // 22: a sheet may not have so many rows.
    RowCount,
    // 23: a sheet's rows do not stand where its trailer says, or its note is too long.
    Layout,
    // 24: a row's kind is none.
    RowKind,
    // 25: the room for a sheet is too short.
    ShortRoom,
}

impl Refusal {
    // The number that the table gives.
    pub fn number(self) -> u64
        ensures { result ≡ number_of self }
    {
        match self {
            Refusal::NotFinite => 1,
            Refusal::Pressure => 2,
            Refusal::Temperature => 3,
            Refusal::AboveRegion5 => 4,
            Refusal::Region3 => 5,
            Refusal::EnthalpyOrEntropy => 6,
            Refusal::NoRegion => 7,
            Refusal::WetOrSingular => 8,
            Refusal::UnknownNumber => 9,
            Refusal::FourOpen => 10,
            Refusal::NotOpen => 11,
            Refusal::NotReady => 12,
            Refusal::TicketsSpent => 13,
            Refusal::UnsoundDesk => 15,
            Refusal::ShortSheet => 20,
            Refusal::Version => 21,
            Refusal::RowCount => 22,
            Refusal::Layout => 23,
            Refusal::RowKind => 24,
            Refusal::ShortRoom => 25,
        }
    }
}

// What has the number of a refusal: one of the table, or a number by itself, whatever it is.
pub trait Numbered: Copy {
    ghost numbered: { Self → ℕ };

    fn as_number(self) -> u64
        ensures { result ≡ numbered self };
}

impl Numbered for Refusal {
    ghost numbered = { number_of };

    fn as_number(self) -> u64 {
        Refusal::number(self)
    }
}

impl Numbered for u64 {
    ghost numbered = { itself };

    fn as_number(self) -> u64 {
        self
    }
}

// The number of an answer's refusal, 0 where nothing is refused.
pub fn number<T: Copy, E: Numbered>(answer: Result<T, E>) -> u64
    ensures { result ≡ number_by E.numbered answer }
{
    match answer {
        Ok(_) => 0,
        Err(refusal) => refusal.as_number(),
    }
}
