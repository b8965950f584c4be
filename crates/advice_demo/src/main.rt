// Advice on sample tariffs, and around the advised kW what each permitted choice costs: where the charge still falls, where it
// is level, and which choice wins a tie.
#![tactic(auto)]

use sample_tariffs::{Rebates, Seasonal};
use std::io;
use tariff::{Tariff, advise};

fn show_choice<T: Tariff>(rt: &impl Print, tariff: &T, choice: u8, kw: u16) -> io::Result<()> {
    let first = kw.saturating_sub(1);
    let last = kw.saturating_add(1).min(T::TOP);
    print!(rt; "  choice {choice}:")?;
    for near in first..=last {
        let charge = tariff.charge(choice, near);
        print!(rt; " {near} kW {charge}")?;
    }
    println!(rt; "")
}

fn show<T: Tariff>(rt: &impl Print, name: &str, tariff: &T) -> io::Result<()> {
    let advice = advise(tariff);
    let (best, kw, charge) = (advice.choice, advice.kw, advice.charge);
    println!(rt; "{name}: choice {best}, {kw} kW, {charge}")?;
    for choice in (0..T::CHOICES).filter(|choice| tariff.permits(*choice)) {
        show_choice(rt, tariff, choice, kw)?;
    }
    Ok(())
}

fn main(rt: HostRuntime) -> io::Result<()> {
    show(&rt, "two peaks", &Seasonal::new(3, 240, 70, 40))?;
    show(&rt, "cheap fee", &Seasonal::new(3, 209, 70, 40))?;
    show(&rt, "peaks above the top", &Seasonal::new(3, 400, 120, 110))?;
    show(&rt, "rebates", &Rebates::new(-23))?;
    show(&rt, "rebates, dear energy", &Rebates::new(100))
}
