// Advice on a sample tariff, said of its numbers alone: neither a tariff nor its 117 amounts stand in the clauses.
ghost use Rattle.std.specs.Prelude.{◌≡◌, true};
ghost use Rattle.tariff.specs.Advised.{Cheapest, advice_of};
ghost use Rattle.sample_tariffs.specs.Amounts.{seasonal_charge};

use crate::seasonal::Seasonal;
use tariff::{Advice, advise};

// The cheapest choice and kW of the seasonal tariff with these numbers.
pub fn seasonal_advice(rate: u16, fee: u32, winter: u16, summer: u16) -> Advice
    ensures computed { result ≡ advice_of (λ c. true) (seasonal_charge rate fee winter summer) 100 2 }
    ensures cheapest { Cheapest (λ c. true) (seasonal_charge rate fee winter summer) 0 100 2 result }
{
    advise(&Seasonal::new(rate, fee, winter, summer))
}
