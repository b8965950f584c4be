// Advice over every tariff: the cheapest permitted choice and kW.
ghost use Rattle.std.specs.Prelude.{◌≡◌};
ghost use Rattle.tariff.specs.Charges.{charge_of, Bounded};
ghost use Rattle.tariff.specs.Advised.{Advised, Cheapest, best_below, advice_of};

use crate::meaning::Tariff;
use crate::search::Permitted;

// A choice by its number and a kW, and what the year costs there.
#[derive(Clone, Copy, PartialEq, Eq, Debug)]
pub struct Advice {
    pub choice: u8,
    pub kw: u16,
    pub charge: i64,
}

// The best of the permitted choices, each at its advised kW: the least charge, and the first of equals.
fn best<T: Tariff>(tariff: &T) -> Option<Advice>
    ensures best { result ≡ best_below (T.permitted tariff.now) (charge_of (T.amount tariff.now)) 0 T.TOP T.CHOICES }
{
    (0..T::CHOICES)
        .filter_map(|choice| Some(Permitted::new(tariff, choice)?.advice(0, T::TOP)))
        .min_by_key(|advice| advice.charge)
}

// The permitted choice that costs least at its advised kW, the lowest number on a tie, with that kW and its charge.
pub fn advise<T: Tariff>(tariff: &T) -> Advice
    ensures rule { Advised (T.permitted tariff.now) (charge_of (T.amount tariff.now)) 0 T.TOP T.CHOICES result }
    ensures only { (a : Advice) → Advised (T.permitted tariff.now) (charge_of (T.amount tariff.now)) 0 T.TOP T.CHOICES a → a ≡ result }
    ensures computed { result ≡ advice_of (T.permitted tariff.now) (charge_of (T.amount tariff.now)) T.TOP T.CHOICES }
    ensures told { result.charge ≡ charge_of (T.amount tariff.now) result.choice result.kw }
    ensures bounded { Bounded result.charge }
    ensures cheapest { Cheapest (T.permitted tariff.now) (charge_of (T.amount tariff.now)) 0 T.TOP T.CHOICES result }
{
    best(tariff).unwrap()
}
