// Why and where a request is refused.
ghost use Rattle.std.specs.Prelude.{◌≡◌, ◌<◌, Err};
ghost use Rattle.records.specs.Refusal.{number_of, refusal_code, verdict_code};
ghost use Rattle.records.specs.Verdict.{refusal};

// The cases of document 01's table "When the loader says no". specs/Refusal.antt gives each its number.
#[derive(Clone, Copy)]
pub enum Reason {
    NotLoaded,
    NotListed,
    TooMany,
    BadHeader,
    NoRoom,
    Busy,
    Loaded,
    Invalid,
    WrongBase,
    OutOfRange,
    Unsupported,
}

// Where the fault stands: a section, an entry of a section, a function record, or no place. All count from 0.
#[derive(Clone, Copy)]
pub enum Place {
    Nowhere,
    Section(u16),
    Entry(u16, u16),
    Record(u16),
}

#[derive(Clone, Copy)]
pub struct Refusal {
    pub reason: Reason,
    pub place: Place,
}

impl Reason {
    // The number of document 01.
    pub fn number(self) -> u64
        ensures { (result ≡ number_of self) × (result < 256) }
    {
        match self {
            Reason::NotLoaded => 2,
            Reason::NotListed => 3,
            Reason::TooMany => 7,
            Reason::BadHeader => 8,
            Reason::NoRoom => 12,
            Reason::Busy => 16,
            Reason::Loaded => 17,
            Reason::Invalid => 22,
            Reason::WrongBase => 33,
            Reason::OutOfRange => 34,
            Reason::Unsupported => 95,
        }
    }
}

impl Refusal {
    pub fn new(reason: Reason, place: Place) -> Self
        ensures { result ≡ refusal reason place }
    {
        Refusal { reason, place }
    }

    // The refusal in one number: number, kind of place, and the place's two numbers.
    pub fn code(self) -> u64
        ensures { result ≡ refusal_code self }
    {
        let reason = self.reason;
        let place = self.place;
        let number = reason.number();
        match place {
            Place::Nowhere => number,
            Place::Section(i) => number + 256 + 65536 * (i as u64),
            Place::Entry(i, e) => number + 512 + 65536 * (i as u64) + 4294967296 * (e as u64),
            Place::Record(r) => number + 768 + 65536 * (r as u64),
        }
    }
}

// Refused for this reason at this place.
pub fn refused<T>(reason: Reason, place: Place) -> Result<T, Refusal>
    ensures { result ≡ Err (refusal reason place) }
{
    Err(Refusal::new(reason, place))
}

// What a check says in one number: 0 where nothing stands against it, else the refusal's.
pub fn code(verdict: Result<(), Refusal>) -> u64
    ensures { result ≡ verdict_code verdict }
{
    match verdict {
        Ok(()) => 0,
        Err(r) => r.code(),
    }
}
