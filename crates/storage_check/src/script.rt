// What a line of the script asks, or what is wrong with it.
use super::lines::Line;
use book::Subscription;
use hours::HourRecord;
use std::str::FromStr;

// A year at a connection point, in numbers that the book may refuse.
#[derive(Clone, Copy)]
pub struct Point {
    pub year: u16,
    pub area: u8,
    pub connection: u8,
}

#[derive(Clone, Copy)]
pub struct Reading {
    pub hour: u16,
    pub value: HourRecord,
}

// How much of the memory later calls are lent.
#[derive(Clone, Copy)]
pub struct Loan {
    pub records: u16,
    pub words: u16,
}

#[derive(Clone, Copy)]
pub enum Call {
    Open(Point),
    Post(Reading),
    Amend(Reading),
    Choose(Subscription),
    // A month from 1 on, or 13 for the year; the book may refuse it.
    Missing { number: u8 },
    Lend(Loan),
}

#[derive(Clone, Copy)]
pub enum Fault<'a> {
    Long,
    NoText,
    NoCall {
        word: &'a str,
    },
    // The call has this form, and the line another count of numbers.
    Form {
        form: &'static str,
    },
    Number {
        name: &'static str,
        text: &'a str,
        range: &'static str,
    },
}

pub fn is_comment(line: &[u8]) -> bool {
    matches!(line, [b'#', ..])
}

pub fn text(line: &Line) -> Result<&str, Fault<'_>> {
    if line.is_long() {
        return Err(Fault::Long);
    }
    std::str::from_utf8(line.kept()).map_err(|_| Fault::NoText)
}

// A call, or none for a line without words.
pub fn read<'a>(words: &[&'a str]) -> Result<Option<Call>, Fault<'a>> {
    let [word, fields @ ..] = words else {
        return Ok(None);
    };
    let call = match *word {
        "open" => Call::Open(Point::read(fields)?),
        "post" => Call::Post(Reading::read(fields, "post HOUR ACTIVE REACTIVE")?),
        "amend" => Call::Amend(Reading::read(fields, "amend HOUR ACTIVE REACTIVE")?),
        "choose" => Call::Choose(subscription(fields)?),
        "missing" => missing(fields)?,
        "lend" => Call::Lend(Loan::read(fields)?),
        _ => return Err(Fault::NoCall { word: *word }),
    };
    Ok(Some(call))
}

impl Point {
    fn read<'a>(fields: &[&'a str]) -> Result<Point, Fault<'a>> {
        let [year, area, connection] = fields else {
            return Err(Fault::Form {
                form: "open YEAR AREA CONNECTION",
            });
        };
        Ok(Point {
            year: number("YEAR", *year)?,
            area: number("AREA", *area)?,
            connection: number("CONNECTION", *connection)?,
        })
    }
}

impl Reading {
    fn read<'a>(fields: &[&'a str], form: &'static str) -> Result<Reading, Fault<'a>> {
        let [hour, active, reactive] = fields else {
            return Err(Fault::Form { form });
        };
        Ok(Reading {
            hour: number("HOUR", *hour)?,
            value: HourRecord {
                active: number("ACTIVE", *active)?,
                reactive: number("REACTIVE", *reactive)?,
            },
        })
    }
}

fn subscription<'a>(fields: &[&'a str]) -> Result<Subscription, Fault<'a>> {
    let [choice, power, withdrawal, input] = fields else {
        return Err(Fault::Form {
            form: "choose CHOICE KW EW EI",
        });
    };
    Ok(Subscription {
        choice: number("CHOICE", *choice)?,
        power: number("KW", *power)?,
        extra_withdrawal: number("EW", *withdrawal)?,
        extra_input: number("EI", *input)?,
    })
}

fn missing<'a>(fields: &[&'a str]) -> Result<Call, Fault<'a>> {
    let [text] = fields else {
        return Err(Fault::Form {
            form: "missing NUMBER",
        });
    };
    Ok(Call::Missing {
        number: number("NUMBER", *text)?,
    })
}

impl Loan {
    fn read<'a>(fields: &[&'a str]) -> Result<Loan, Fault<'a>> {
        let [records, words] = fields else {
            return Err(Fault::Form {
                form: "lend RECORDS WORDS",
            });
        };
        Ok(Loan {
            records: number("RECORDS", *records)?,
            words: number("WORDS", *words)?,
        })
    }
}

// A type of number, and which numbers it holds.
trait Ranged: FromStr {
    const RANGE: &'static str;
}

impl Ranged for u8 {
    const RANGE: &'static str = "0 to 255";
}

impl Ranged for u16 {
    const RANGE: &'static str = "0 to 65535";
}

impl Ranged for i16 {
    const RANGE: &'static str = "-32768 to 32767";
}

fn number<'a, N: Ranged>(name: &'static str, text: &'a str) -> Result<N, Fault<'a>>
where
    N::Err: Drop,
{
    text.parse::<N>().map_err(|_| Fault::Number {
        name,
        text,
        range: N::RANGE,
    })
}
