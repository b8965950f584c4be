// A connection point: its area and its connection.
ghost use Rattle.std.specs.Prelude.{◌≡◌, Some};
ghost use Rattle.std.specs.Fmt.{padded};
ghost use Rattle.book.specs.Answers.{area_answer, connection_answer};
ghost use Rattle.book.specs.Names.{area_name, connection_name};
ghost use Rattle.book.specs.Points.{area_number, area_of, is_open, own_choice, top_of};

use refusals::BookRefusal;
use std::fmt;

#[derive(Clone, Copy, PartialEq, Eq, Debug)]
pub enum Area {
    Norrbotten,
    MiddleNorrland,
    Southern,
}

impl TryFrom<u8> for Area {
    type Error = BookRefusal;

    ghost try_from_gives = { λ area r. r ≡ area_answer area };

    fn try_from(area: u8) -> Result<Area, BookRefusal> {
        match area {
            1 => Ok(Area::Norrbotten),
            2 => Ok(Area::MiddleNorrland),
            3 => Ok(Area::Southern),
            _ => Err(BookRefusal::Area { area }),
        }
    }
}

impl From<Area> for u8 {
    ghost from_gives = { λ area number. (number ≡ area_number area) × (area_of number ≡ Some area) };

    fn from(area: Area) -> u8 {
        match area {
            Area::Norrbotten => 1,
            Area::MiddleNorrland => 2,
            Area::Southern => 3,
        }
    }
}

impl fmt::Display for Area {
    ghost output = { λ a. Some (area_name a) };

    ghost styled_output = { λ a spec. Some (padded spec (area_name a)) };

    fn fmt<W: fmt::Write>(&self, f: &mut fmt::Formatter<W>) -> fmt::Result {
        f.pad(match self {
            Area::Norrbotten => "Norrbotten",
            Area::MiddleNorrland => "Middle Norrland",
            Area::Southern => "Southern",
        })
    }
}

// The first six are on the normal tariff, the last two on the weekly tariff.
#[derive(Clone, Copy, PartialEq, Eq, Debug)]
pub enum Connection {
    L1,
    T1,
    L2,
    T2,
    T12,
    T13,
    L110In,
    L33In,
}

impl TryFrom<u8> for Connection {
    type Error = BookRefusal;

    ghost try_from_gives = { λ connection r. r ≡ connection_answer connection };

    fn try_from(connection: u8) -> Result<Connection, BookRefusal> {
        match connection {
            0 => Ok(Connection::L1),
            1 => Ok(Connection::T1),
            2 => Ok(Connection::L2),
            3 => Ok(Connection::T2),
            4 => Ok(Connection::T12),
            5 => Ok(Connection::T13),
            6 => Ok(Connection::L110In),
            7 => Ok(Connection::L33In),
            _ => Err(BookRefusal::Connection { connection }),
        }
    }
}

impl fmt::Display for Connection {
    ghost output = { λ c. Some (connection_name c) };

    ghost styled_output = { λ c spec. Some (padded spec (connection_name c)) };

    fn fmt<W: fmt::Write>(&self, f: &mut fmt::Formatter<W>) -> fmt::Result {
        f.pad(match self {
            Connection::L1 => "L1",
            Connection::T1 => "T1",
            Connection::L2 => "L2",
            Connection::T2 => "T2",
            Connection::T12 => "T12",
            Connection::T13 => "T13",
            Connection::L110In => "L110In",
            Connection::L33In => "L33In",
        })
    }
}

// A choice is a number of the tariff's own, and any may be asked for.
impl Connection {
    // The choice that an opened book begins with.
    pub fn own_choice(self) -> u8
        ensures own { result ≡ own_choice self }
    {
        match self {
            Connection::L1 | Connection::L110In => 0,
            Connection::T1 | Connection::L33In => 1,
            Connection::L2 => 2,
            Connection::T2 => 3,
            Connection::T12 => 4,
            Connection::T13 => 5,
        }
    }

    // Whether a customer at this connection may take the choice.
    pub fn is_open(self, choice: u8) -> bool
        ensures open_to { result ≡ is_open self choice }
    {
        match self {
            Connection::L1 => matches!(choice, 0 | 2 | 6),
            Connection::T1 => matches!(choice, 1 | 2 | 6),
            Connection::L2 => matches!(choice, 2 | 6 | 7),
            Connection::T2 => matches!(choice, 3 | 6 | 8),
            Connection::T12 => matches!(choice, 3 | 4 | 6),
            Connection::T13 => matches!(choice, 1 | 2 | 5 | 6),
            Connection::L110In => choice == 0,
            Connection::L33In => choice == 1,
        }
    }

    // The most kW that a subscription may have: the tariff's top.
    pub fn top(self) -> u16
        ensures top { result ≡ top_of self }
    {
        match self {
            Connection::L110In | Connection::L33In => 20_000,
            _ => 32_000,
        }
    }
}
