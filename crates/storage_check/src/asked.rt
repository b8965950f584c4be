// A line of the script as it is printed again: the call in words, or why the line is passed over.
use super::lines;
use super::script::{Call, Fault, Reading};
use super::shown::Shown;
use std::fmt;
use wording::Named;

impl fmt::Display for Call {
    fn fmt<W: fmt::Write>(&self, f: &mut fmt::Formatter<W>) -> fmt::Result {
        match *self {
            Call::Open(point) => write!(
                f,
                "open     year {}   area {}   connection {}",
                point.year,
                Named::Area(point.area),
                Named::Connection(point.connection)
            ),
            Call::Post(reading) => write!(f, "post     {reading}"),
            Call::Amend(reading) => write!(f, "amend    {reading}"),
            Call::Choose(s) => {
                write!(f, "choose   choice {}   power {} kW", s.choice, s.power)?;
                write!(
                    f,
                    "   extra withdrawal {} kVAr   extra input {} kVAr",
                    s.extra_withdrawal, s.extra_input
                )
            }
            Call::Missing { number } => write!(f, "missing  number {}", Named::Invoice(number)),
            Call::Lend(loan) => write!(
                f,
                "lend     records {}   words {}",
                loan.records, loan.words
            ),
        }
    }
}

impl fmt::Display for Reading {
    fn fmt<W: fmt::Write>(&self, f: &mut fmt::Formatter<W>) -> fmt::Result {
        let Reading { hour, value } = *self;
        write!(
            f,
            "hour {hour}   active {} kWh   reactive {} kVArh",
            value.active, value.reactive
        )
    }
}

impl fmt::Display for Fault<'_> {
    fn fmt<W: fmt::Write>(&self, f: &mut fmt::Formatter<W>) -> fmt::Result {
        match *self {
            Fault::Long => write!(f, "longer than {} bytes", lines::LONGEST),
            Fault::NoText => f.write_str("bytes that are no text"),
            Fault::NoCall { word } => write!(
                f,
                "{} is none of open, post, amend, choose, missing, lend",
                Shown(word)
            ),
            Fault::Form { form } => write!(f, "not of the form {form}"),
            Fault::Number { name, text, range } => {
                write!(f, "{name} is {}, not {range}", Shown(text))
            }
        }
    }
}
