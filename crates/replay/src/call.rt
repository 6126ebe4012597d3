// The calls, and their codes in a case.
use crate::input::Malformed;

// A public call of the library.
#[derive(Clone, Copy)]
pub(crate) enum Call {
    Add,
    Subtract,
    Negate,
    Double,
    NonAdjacentForm,
    Radix16,
    Radix2w,
    ReadNaf,
    ReadRadix,
    LookupTable,
    NafLookupTable5,
    NafLookupTable8,
    Select,
    SelectNaf5,
    SelectNaf8,
    VariableBase,
    VartimeDoubleBase,
    Straus,
    OptionalStraus,
    NewTables,
    MixedStraus,
    Pippenger,
    Prepare,
    Set,
    Clear,
    Total,
}

impl TryFrom<u8> for Call {
    type Error = Malformed;

    // The call of this code.
    fn try_from(code: u8) -> Result<Call, Malformed> {
        Ok(match code {
            1 => Call::Add,
            2 => Call::Subtract,
            3 => Call::Negate,
            4 => Call::Double,
            5 => Call::NonAdjacentForm,
            6 => Call::Radix16,
            7 => Call::Radix2w,
            8 => Call::ReadNaf,
            9 => Call::ReadRadix,
            10 => Call::LookupTable,
            11 => Call::NafLookupTable5,
            12 => Call::NafLookupTable8,
            13 => Call::Select,
            14 => Call::SelectNaf5,
            15 => Call::SelectNaf8,
            16 => Call::VariableBase,
            17 => Call::VartimeDoubleBase,
            18 => Call::Straus,
            19 => Call::OptionalStraus,
            20 => Call::NewTables,
            21 => Call::MixedStraus,
            22 => Call::Pippenger,
            23 => Call::Prepare,
            24 => Call::Set,
            25 => Call::Clear,
            26 => Call::Total,
            _ => return Err(Malformed),
        })
    }
}
