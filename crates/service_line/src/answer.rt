// What the unit answers; amounts are in hundredths of an öre. Choices and invoices are the numbers that were asked for.
use refusals::Refusal;

#[derive(Clone, Copy, PartialEq, Eq, Debug)]
pub enum Answer {
    Accepted,
    Refused(Refusal),
    // The subscription to take, and what its year costs.
    Advice { choice: u8, power: u16, charge: i64 },
    // The nine lines of an invoice.
    Invoice { number: u8, amounts: [i64; 9] },
}
