// The order in which every call looks at the address and the script: 1; fewer than 3 bytes (5); 4; field above 4,096 (6); field unequal
// (5); a bad record (5); read total (6).
ghost use Rattle.std.specs.Prelude.{◌≡◌};

use std::io;
use transaction::Request;

// The pair, and an address and a script on which both hold.
const ROWS: [(&str, u32, &[u8]); 6] = [
    (
        "1 (address above 127) before 5 (fewer than 3 bytes)",
        128,
        b"\x01",
    ),
    ("5 (fewer than 3 bytes) before 4 (version)", 41, b"\x02"),
    (
        "4 (version) before 6 (field above 4,096)",
        41,
        b"\x02\x10\x01",
    ),
    (
        "6 (field above 4,096) before 5 (field unequal)",
        41,
        b"\x01\x10\x01",
    ),
    (
        "5 (field unequal) before 6 (read total)",
        41,
        b"\x01\x00\x05\xFF\xFF\x01",
    ),
    (
        "5 (bad record) before 6 (read total)",
        41,
        b"\x01\x00\x06\xFF\xFF\x01\x00\x00\x02",
    ),
];

// The rows of one call, which prints a row.
pub(super) fn rows<F: FnMut(&str, Request<'_>) -> io::Result<()>>(row: &mut F) -> io::Result<()>
    requires { F.IsAlwaysCallable row.old }
{
    for (pair, address, script) in ROWS {
        row(pair, Request { address, script })?;
    }
    Ok(())
}
