// The number that each answer ends the program with.
use super::*;

// As docs/FORMATS.md tells them.
const NUMBERS: [(Status, u8); 13] = [
    (Status::Accepted, 0),
    (Status::No, 1),
    (Status::Undecided, 2),
    (Status::Impossible, 3),
    (Status::BadWorld, 4),
    (Status::BadLog, 5),
    (Status::Usage, 6),
    (Status::ReadFault, 7),
    (Status::WriteFault, 8),
    (Status::Limit, 9),
    (Status::NoMemory, 10),
    (Status::Refused, 11),
    (Status::BadQuery, 12),
];

#[test]
fn answers_have_exit_codes(rt: HostRuntime) {
    for (status, number) in NUMBERS {
        assert_eq!(rt; exit_code(status), ExitCode::from(number), "{number}");
    }
}
