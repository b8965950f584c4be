// For each year on the command line, the sheet of its calendar.
#![tactic(auto)]

mod reading;
mod sheet;

use reading::read_year;
use sheet::Sheet;
use std::env::{Env, FillError};
use std::io;

fn main(rt: HostRuntime) -> io::Result<()> {
    // `env::args` gives none of the arguments where one is not UTF-8, and any bytes may stand in one
    for place in 1..usize::MAX {
        // a year has four digits: what does not fit is none
        let mut text = [0; 4];
        match rt.arg(place, &mut text) {
            Ok(length) => match read_year(&text[..length]) {
                Some(year) => Sheet::new(&rt, year).print()?,
                None => refuse(&rt, place)?,
            },
            Err(FillError::TooLong) => refuse(&rt, place)?,
            Err(FillError::NotPresent) if place == 1 => {
                return println!(rt; "Name the years to print, as in: calendar_sheet 2024 2025");
            }
            Err(FillError::NotPresent) => return Ok(()),
        }
    }
    Ok(())
}

fn refuse(rt: &HostRuntime, place: usize) -> io::Result<()> {
    println!(rt; "Argument {place} is no year from 2002 to 2299, written with four digits.\n")
}
