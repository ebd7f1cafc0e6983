// What a call is to do, and its number in a list of calls.
ghost use Rattle.std.specs.Prelude.{◌≡◌};
ghost use Rattle.machine.specs.Doing.{word_of, Numbered};

use refusals::Refusal;

#[derive(Clone, Copy, Debug, PartialEq, Eq)]
pub enum Do {
    Request = 0,
    Up = 1,
    Down = 2,
    Release = 3,
    Withdraw = 4,
}

impl Do {
    pub fn number(self) -> u16
        ensures { result ≡ word_of self }
    {
        self as u16
    }
}

impl TryFrom<u16> for Do {
    type Error = Refusal;

    ghost try_from_gives = { Numbered };

    fn try_from(number: u16) -> Result<Do, Refusal> {
        match number {
            0 => Ok(Do::Request),
            1 => Ok(Do::Up),
            2 => Ok(Do::Down),
            3 => Ok(Do::Release),
            4 => Ok(Do::Withdraw),
            _ => Err(Refusal::BadForm),
        }
    }
}
