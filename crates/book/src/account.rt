// What an opened book holds besides its hours.
use super::point::{Area, Connection};

// A choice, its kW, and extra reactive withdrawal and input in kVAr.
// A choice is a number of the tariff's own, without a kind: any may come in, and the refusal carries it.
#[derive(Clone, Copy, PartialEq, Eq, Debug)]
pub struct Subscription {
    pub choice: u8,
    pub power: u16,
    pub extra_withdrawal: u16,
    pub extra_input: u16,
}

#[derive(Clone, Copy, PartialEq, Eq, Debug)]
pub struct Opening {
    // a number: the definitions of the calls build openings, and a calendar's Year there needs its proofs
    pub year: u16,
    pub area: Area,
    pub connection: Connection,
    pub subscription: Subscription,
}
