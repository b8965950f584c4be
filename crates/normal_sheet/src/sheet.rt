// A normal sheet as it is published.
use bills::StandingRates;

// One level. Rates are in öre, prices in hundredths of an öre for each kWh, what is free in percent of the kW.
#[derive(Clone, Copy, PartialEq, Eq, Debug, Default)]
pub struct Row {
    // The rules test every row, offered or not, and a supplement's level is offered as its row is.
    pub offered: bool,
    pub standing: StandingRates,
    pub peak_load_price: i32,
    pub other_price: i32,
    pub active_excess_rate: u32,
    pub reactive_excess_rate: u32,
    pub free_withdrawal: u8,
    pub free_input: u8,
}

// What is added to a row's fixed fee and power rate, in öre.
#[derive(Clone, Copy, PartialEq, Eq, Debug, Default)]
pub struct Supplement {
    pub fixed_fee: u32,
    pub power_rate: u32,
}

// The rows L1, T1, L2, T2, T12, T13 and X, and the supplements to T1 and T12.
#[derive(Clone, Copy)]
pub struct NormalSheet {
    // A sheet is refused where this number is no area, so it is held as it is published.
    pub area: u8,
    pub rows: [Row; 7],
    pub supplements: [Supplement; 2],
}
