// Lines worked by hand or packed by another language, against what is read and written.
use super::{Answer, LineBuffer, Request, read_line, write_answer, write_request};
use refusals::{BookRefusal, FrameRefusal, LineRefusal, Refusal, TariffRefusal};

// A buffer that is full, so that a byte that is left out shows.
#[cfg(test)]
const FULL: LineBuffer = [0xEE; 150];

fn length(bytes: u8) -> Refusal {
    Refusal::Frame(FrameRefusal::Length { bytes })
}

fn kind(kind: u8) -> Refusal {
    Refusal::Frame(FrameRefusal::Kind { kind })
}

fn check_byte(sum: u8) -> Refusal {
    Refusal::Frame(FrameRefusal::Check { sum })
}

fn digit(column: u8) -> Refusal {
    Refusal::Line(LineRefusal::Digit { column })
}

// tools/service_lines.py packs these.
#[test]
fn requests_read_and_write_alike(rt: HostRuntime) {
    let table = [
        (
            "01000003E8012CE7",
            Request::Post {
                hour: 0,
                active: 1000,
                reactive: 300,
            },
        ),
        (
            "01FFFF80007FFF03",
            Request::Post {
                hour: 65535,
                active: -32768,
                reactive: 32767,
            },
        ),
        (
            "02224FFFFF00008F",
            Request::Amend {
                hour: 8783,
                active: -1,
                reactive: 0,
            },
        ),
        (
            "02FFFF7FFF800002",
            Request::Amend {
                hour: 65535,
                active: 32767,
                reactive: -32768,
            },
        ),
        (
            "0300000000000000FD",
            Request::Choose {
                choice: 0,
                power: 0,
                extra_withdrawal: 0,
                extra_input: 0,
            },
        ),
        (
            "030203E80096000773",
            Request::Choose {
                choice: 2,
                power: 1000,
                extra_withdrawal: 150,
                extra_input: 7,
            },
        ),
        (
            "03FFFFFFFFFFFFFF04",
            Request::Choose {
                choice: 255,
                power: 65535,
                extra_withdrawal: 65535,
                extra_input: 65535,
            },
        ),
        (
            "0407E603020A",
            Request::Open {
                year: 2022,
                area: 3,
                connection: 2,
            },
        ),
        (
            "04FFFFFFFF00",
            Request::Open {
                year: 65535,
                area: 255,
                connection: 255,
            },
        ),
        ("05FB", Request::Advise),
        ("0600FA", Request::Invoice { number: 0 }),
        ("06FFFB", Request::Invoice { number: 255 }),
    ];
    for (text, request) in table {
        assert_eq!(rt; read_line(text.as_bytes()), Ok(request), "{}", text);
        let mut line = FULL;
        let len = write_request(request, &mut line);
        assert!(rt; &line[0..len] == text.as_bytes(), "{}", text);
        assert!(rt; line[len..150] == FULL[len..150], "{}", text);
    }
}

// tools/service_lines.py packs these.
#[test]
fn answers_are_written_as_their_formats(rt: HostRuntime) {
    let table = [
        ("10F0", Answer::Accepted),
        (
            "11031B00000000D1",
            Answer::Refused(Refusal::Book(BookRefusal::Present { hour: 0 })),
        ),
        (
            "11042200000001C8",
            Answer::Refused(Refusal::Tariff(TariffRefusal::Incomplete { hour: 1 })),
        ),
        (
            "11010C00000003DF",
            Answer::Refused(Refusal::Line(LineRefusal::Digit { column: 3 })),
        ),
        (
            "1103190000FFFFD5",
            Answer::Refused(Refusal::Book(BookRefusal::Hour { hour: 65535 })),
        ),
        (
            "120203E800000001BF7939008F",
            Answer::Advice {
                choice: 2,
                power: 1000,
                charge: 7_507_360_000,
            },
        ),
        (
            "12000000FFFFFFFFFFFFFFFFF6",
            Answer::Advice {
                choice: 0,
                power: 0,
                charge: -1,
            },
        ),
        (
            "12FFFFFF800000000000000071",
            Answer::Advice {
                choice: 255,
                power: 65535,
                charge: i64::MIN,
            },
        ),
        (
            "12FFFFFF7FFFFFFFFFFFFFFF79",
            Answer::Advice {
                choice: 255,
                power: 65535,
                charge: i64::MAX,
            },
        ),
        (
            "130D0000000000000001FFFFFFFFFFFFFFFF00000000000000007FFFFFFFFFFFFFFF80000000000000000000000000000100FFFFFFFFFFFFFF0000000000000000000000000000000009EC",
            Answer::Invoice {
                number: 13,
                amounts: [1, -1, 0, i64::MAX, i64::MIN, 256, -256, 0, 9],
            },
        ),
    ];
    for (text, answer) in table {
        let mut line = FULL;
        let len = write_answer(answer, &mut line);
        assert!(rt; &line[0..len] == text.as_bytes(), "{}", text);
        assert!(rt; line[len..150] == FULL[len..150], "{}", text);
    }
}

// Kind, length and check are tested in this order, after the line's length and its characters.
#[test]
fn lines_are_refused_by_the_first_row_that_fits(rt: HostRuntime) {
    let length_row = Refusal::Line(LineRefusal::Length);
    let table = [
        ("", length_row),
        ("05", length_row),
        ("05F", length_row),
        ("04G7X", length_row),
        (
            "00000000000000000000000000000000000000000000000000000000000000000",
            length_row,
        ),
        (
            "000000000000000000000000000000000000000000000000000000000000000000",
            length_row,
        ),
        (
            "0000000000000000000000000000000000000000000000000000000000000000",
            kind(0),
        ),
        ("04G7", digit(3)),
        ("05fb", digit(3)),
        (" 05F", digit(1)),
        ("05FB\r\n", digit(5)),
        ("05/:", digit(3)),
        ("0@FB", digit(2)),
        (
            "000000000000000000000000000000000000000000000000000000000000000G",
            digit(64),
        ),
        ("00FF", kind(0)),
        ("07F9", kind(7)),
        ("10F0", kind(16)),
        ("FF01", kind(255)),
        ("0500", check_byte(5)),
        ("0500FB", length(3)),
        ("06FA", length(2)),
        ("0407E603", length(4)),
        ("01000003E8012CE700", length(9)),
        (
            "0600000000000000000000000000000000000000000000000000000000000000",
            length(32),
        ),
        ("05FC", check_byte(1)),
        ("05FA", check_byte(255)),
        ("0407E6030209", check_byte(255)),
    ];
    for (text, refusal) in table {
        assert_eq!(rt; read_line(text.as_bytes()), Err(refusal), "{}", text);
    }
}
