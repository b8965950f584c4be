// What a line asks of the unit. Areas, connections, choices and invoices are numbers here: any may come, and the book refuses
// what names nothing.
#[derive(Clone, Copy, PartialEq, Eq, Debug)]
pub enum Request {
    // A first value for an hour: active kWh and reactive kVArh, negative where fed in. The fields stand as the format has them, since
    // the line knows no hour records.
    Post {
        hour: u16,
        active: i16,
        reactive: i16,
    },
    // A new value for an hour that has one.
    Amend {
        hour: u16,
        active: i16,
        reactive: i16,
    },
    // A subscription: the choice, its kW, and extra reactive withdrawal and input in kVAr.
    Choose {
        choice: u8,
        power: u16,
        extra_withdrawal: u16,
        extra_input: u16,
    },
    // A new year at a connection.
    Open {
        year: u16,
        area: u8,
        connection: u8,
    },
    // Which subscription to take.
    Advise,
    // One of the thirteen invoices.
    Invoice {
        number: u8,
    },
}
