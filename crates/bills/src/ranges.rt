// The ranges of a sheet's numbers. They differ in a constant, but a sheet is tested by their names.
ghost use Rattle.std.specs.Prelude.{◌≡◌};
ghost use Rattle.bills.specs.Ranges.{cap_fits, fee_fits, percentage_fits, price_fits, rate_fits, standing_fits};

use crate::standing::StandingRates;

// A fee in öre.
pub fn fee_fits(fee: u32) -> bool
    ensures fits { result ≡ fee_fits fee }
{
    fee <= 1_000_000_000
}

// A rate for each kW or kVAr, in öre.
pub fn rate_fits(rate: u32) -> bool
    ensures fits { result ≡ rate_fits rate }
{
    rate <= 1_000_000
}

// A price for each kWh, in hundredths of an öre.
pub fn price_fits(price: i32) -> bool
    ensures fits { result ≡ price_fits price }
{
    (-100_000..=100_000).contains(&price)
}

// A free percentage: a multiple of 5.
pub fn percentage_fits(percentage: u8) -> bool
    ensures fits { result ≡ percentage_fits percentage }
{
    percentage <= 100 && percentage % 5 == 0
}

// The most that is free, in kVAr.
pub fn cap_fits(cap: u16) -> bool
    ensures fits { result ≡ cap_fits cap }
{
    cap <= 32_000
}

impl StandingRates {
    pub fn fit(&self) -> bool
        ensures fits { result ≡ standing_fits self.now }
    {
        fee_fits(self.fixed_fee) && rate_fits(self.power_rate) && rate_fits(self.extra_rate)
    }
}
