// A checked sheet, and the level of each choice.
ghost use Rattle.std.specs.Prelude.{◌≡◌, Ok, Err, slice_index_or};
ghost use Rattle.normal_sheet.specs.Levels.{level_of, no_row, no_supplement, row_number, supplement_of};
ghost use Rattle.normal_sheet.specs.Ranges.{sheet_answer};

use crate::checked::CheckedSheet;
use crate::sheet::{NormalSheet, Row, Supplement};
use bills::StandingRates;
use refusals::TariffRefusal;

// Choices 7 and 8 are T1 and T12 with a supplement; choices and rows are numbers on a sheet and in a question to a tariff.
fn row_number(choice: u8) -> u8
    ensures row { result ≡ row_number choice }
{
    match choice {
        7 => 1,
        8 => 4,
        _ => choice,
    }
}

// Past the last row stands none, which is not offered.
fn row_at(rows: &[Row; 7], number: u8) -> Row
    ensures row { result ≡ slice_index_or rows.now number no_row }
{
    rows.get(usize::from(number)).copied().unwrap_or_default()
}

impl NormalSheet {
    fn supplement(&self, choice: u8) -> Supplement
        ensures supplement { result ≡ supplement_of self.now choice }
    {
        match choice {
            7 => self.supplements[0],
            8 => self.supplements[1],
            _ => Supplement::default(),
        }
    }
}

impl CheckedSheet {
    pub fn new(sheet: NormalSheet) -> Result<CheckedSheet, TariffRefusal>
        ensures checked { elim result [ Ok t ↦ (sheet_answer sheet ≡ Ok tt) × (t.sheet ≡ sheet) | Err e ↦ sheet_answer sheet ≡ Err e ] }
    {
        sheet.check()?;
        Ok(CheckedSheet { sheet })
    }

    // What a choice costs; a number that is no choice is not offered.
    pub fn level(&self, choice: u8) -> Row
        ensures level { result ≡ level_of self.now.sheet choice }
    {
        let row = row_at(&self.sheet.rows, row_number(choice));
        let supplement = self.sheet.supplement(choice);
        Row {
            standing: StandingRates {
                fixed_fee: row.standing.fixed_fee + supplement.fixed_fee,
                power_rate: row.standing.power_rate + supplement.power_rate,
                ..row.standing
            },
            ..row
        }
    }
}
