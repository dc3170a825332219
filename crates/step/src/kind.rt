// Step kinds.
ghost use Rattle.std.specs.Prelude.{◌≡◌};
ghost use Rattle.step.specs.Kind.{kind_of};
ghost use Rattle.step.specs.Step.{is_lamp};

use dpa::refusal::Refusal;

// What a step does, with the number of its kind. The first three kinds are for a lamp; they have the numbers of the lights commands.
#[derive(Clone, Copy, Debug, PartialEq, Eq)]
pub enum Kind {
    Set = 0,
    Raise = 1,
    Lower = 2,
    WriteRam = 3,
    WriteEeprom = 4,
}

impl TryFrom<u8> for Kind {
    type Error = Refusal;

    ghost try_from_gives = { λ number kind. kind ≡ kind_of number };

    fn try_from(number: u8) -> Result<Kind, Refusal> {
        match number {
            0 => Ok(Kind::Set),
            1 => Ok(Kind::Raise),
            2 => Ok(Kind::Lower),
            3 => Ok(Kind::WriteRam),
            4 => Ok(Kind::WriteEeprom),
            _ => Err(Refusal::StepKind),
        }
    }
}

// Numbers of kinds: the rules of entries (`follows`, `step_size`, `pnum_of`) hold for any byte, also for one that is no kind.
pub const WRITE_RAM: u8 = Kind::WriteRam as u8;

pub const WRITE_EEPROM: u8 = Kind::WriteEeprom as u8;

// Whether a step of this kind sets, raises or lowers a lamp.
pub fn is_lamp(kind: u8) -> bool
    ensures { result ≡ is_lamp kind }
{
    kind < WRITE_RAM
}
