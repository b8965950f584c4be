// What the year's use is measured by.
ghost use Rattle.std.specs.Prelude.{◌≤◌};

// The two highest month peaks together: drawn, reactive drawn and reactive fed in.
#[derive(Clone, Copy)]
pub struct Used {
    pub drawn: u32,
    pub reactive_drawn: u32,
    pub reactive_fed_in: u32,
    ghost at_most: { (drawn ≤ 64000) × (reactive_drawn ≤ 64000) × (reactive_fed_in ≤ 64000) },
}
