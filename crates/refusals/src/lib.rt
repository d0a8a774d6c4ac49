// The numbered refusals: why a question is not answered, and where in the file.
#![tactic(auto)]

ghost use Rattle.std.specs.Prelude.{◌≡◌, ◌<◌, ◌^◌};
ghost use Rattle.refusals.specs.Refusals.{refusal, number_of, code_of};

use octets::FilePlace;

// Why a question is refused, each with the number that the table in RULES, "Refusals by number", gives it.
#[derive(Clone, Copy)]
pub enum Why {
    // The file is over 268,435,456 octets.
    TooLong = 1,
    // The file has no octet.
    Empty = 2,
    // The file ends inside a message.
    Cut = 3,
    // No message of GRIB edition 2 starts here.
    NotGrib2 = 4,
    // A message's or a section's length cannot be right.
    BadLength = 5,
    // A section stands where it is not allowed, or a field is not finished.
    OutOfPlace = 6,
    // A message does not close with 7777.
    NoEnd = 7,
    // The field's number is not below the field count.
    NoSuchField = 8,
    // Section 1 is not one that is taken.
    BadIdentification = 9,
    // Section 3 is not one that is taken.
    BadGrid = 10,
    // Section 4 is not one that is taken.
    BadProduct = 11,
    // Section 5 is not one that is taken.
    BadRepresentation = 12,
    // Section 6 is not one that is taken, or other points are present than are packed.
    BadBitmap = 13,
    // Section 7 does not hold what section 5 says: its groups or its length are wrong.
    BadPacking = 14,
    // The field does not fit into what was lent from the start index on.
    NoRoom = 15,
    // An integer that is unpacked is below 0 or above 2,147,483,647.
    ValueOutOfRange = 16,
    // The point's number is not below the point count.
    NoSuchPoint = 17,
    // A program's input is over 65,536 octets.
    InputTooLong = 18,
    // R is not finite, or E, D or X is out of its range.
    NotRebuildable = 19,
    // The grid is not of the kind that the question is about.
    OtherGrid = 20,
}

// A refusal: why, and where in the file.
#[derive(Clone, Copy)]
pub struct Refusal {
    pub why: Why,
    pub place: FilePlace,
}

impl Why {
    // The refusal for this reason, at a place of the file.
    pub fn at(self, place: FilePlace) -> Refusal
        ensures { result ≡ refusal self place.0 }
    {
        Refusal { why: self, place }
    }
}

// The number of a refusal.
pub fn number_of(why: Why) -> u64
    ensures { result ≡ number_of why }
{
    why as u64
}

// A refusal as the one number that C is given. Every place of a file that is not too long is below 2 ^ 32.
#[tactic(auto, using(crate::proofs::Laws::numbered))]
pub fn code_of(refusal: Refusal) -> u64
    requires { refusal.place.0 < 2 ^ 32 }
    ensures { result ≡ code_of refusal }
{
    let why = refusal.why;
    0x8000_0000_0000_0000 + number_of(why) * 0x1_0000_0000 + refusal.place.0 as u64
}
