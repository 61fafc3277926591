// The refusals of document 01's table, each with its number.
ghost use Rattle.std.specs.Prelude.{◌≡◌};
ghost use Rattle.reflection.specs.Refusals.{refusal_number, FromNumber};

// Why an entry refused.
#[derive(Clone, Copy, Debug, PartialEq, Eq)]
pub enum Refusal {
    ChunkTooShort = 1,
    ChunkTooLong = 2,
    BadVersion = 3,
    BadCreator = 4,
    Rd11Missing = 5,
    BadRd11 = 6,
    RecordPastEnd = 7,
    BadInputType = 8,
    BadDimension = 9,
    BadBindingFlags = 10,
    BadName = 11,
    DefaultPastEnd = 12,
    TypeTooDeep = 13,
    TypeCycle = 14,
    NoRoom = 15,
    NotReadable = 16,
    OutputTooSmall = 17,
    NoSpelling = 18,
}

// The number that C, the programs' lines and the stored answers have for it.
impl From<Refusal> for u32 {
    ghost from_gives = { λ refusal number. number ≡ refusal_number refusal };

    fn from(refusal: Refusal) -> u32 {
        refusal as u32
    }
}

// A number that is no refusal's.
#[derive(Clone, Copy, Debug, PartialEq, Eq)]
pub struct UnknownRefusal(pub u32);

impl TryFrom<u32> for Refusal {
    type Error = UnknownRefusal;

    ghost try_from_gives = { FromNumber };

    fn try_from(number: u32) -> Result<Refusal, UnknownRefusal> {
        match number {
            1 => Ok(Refusal::ChunkTooShort),
            2 => Ok(Refusal::ChunkTooLong),
            3 => Ok(Refusal::BadVersion),
            4 => Ok(Refusal::BadCreator),
            5 => Ok(Refusal::Rd11Missing),
            6 => Ok(Refusal::BadRd11),
            7 => Ok(Refusal::RecordPastEnd),
            8 => Ok(Refusal::BadInputType),
            9 => Ok(Refusal::BadDimension),
            10 => Ok(Refusal::BadBindingFlags),
            11 => Ok(Refusal::BadName),
            12 => Ok(Refusal::DefaultPastEnd),
            13 => Ok(Refusal::TypeTooDeep),
            14 => Ok(Refusal::TypeCycle),
            15 => Ok(Refusal::NoRoom),
            16 => Ok(Refusal::NotReadable),
            17 => Ok(Refusal::OutputTooSmall),
            18 => Ok(Refusal::NoSpelling),
            _ => Err(UnknownRefusal(number)),
        }
    }
}
