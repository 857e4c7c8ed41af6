// The code that a trial goes by: what its sheet and its ban list give, or that with one number changed.

ghost use Rattle.std.specs.Prelude.{◌<◌};

use code::{Code, Enlarged, Sheet, Word};
use try_common::fields::{byte, field, number, number_within};

// The table of the sheet in a file.
fn from_file(rt: &HostRuntime, path: &[u8]) -> Code {
    let mut bytes = [0u8; Sheet::BYTES + 1];
    let n = try_common::read_file(rt, path, &mut bytes);
    sheet::take_in(&bytes[..n]).code
}

// The code with the copies that the list in a file asks for.
fn with_bans(rt: &HostRuntime, value: Enlarged, path: &[u8]) -> Enlarged {
    let mut bytes = [0u8; Sheet::BYTES + 1];
    let n = try_common::read_file(rt, path, &mut bytes);
    ban_enlarge::enlarge(value, &bytes[..n]).enlarged
}

// The code of a sheet and, behind a plus sign, of a ban list.
fn from_files(rt: &HostRuntime, names: &[u8]) -> Enlarged {
    match names.iter().position(|byte| *byte == b'+') {
        Some(plus) => {
            let value = well_enlarged::plain(from_file(rt, &names[..plus]));
            with_bans(rt, value, &names[plus + 1..])
        }
        None => well_enlarged::plain(from_file(rt, names)),
    }
}

// Makes the change in a table that fields k to k + 3 name, if any.
fn change_code(code: &mut Code, line: &[u8], k: usize)
    requires { k < 16 }
{
    let x = number_within(line, k + 1, Code::WORDS - 1);
    match field(line, k) {
        b"count" => code.count = number(line, k + 1),
        b"length" => code.words[x].len = number(line, k + 2),
        b"symbol" => {
            let at = number_within(line, k + 2, Word::SYMBOLS - 1);
            code.words[x].symbols[at] = byte(line, k + 3);
        }
        b"entry" => {
            let y = number_within(line, k + 2, Code::WORDS - 1);
            code.rows[x].entries[y] = byte(line, k + 3);
        }
        _ => {}
    }
}

// The same in a code with copies.
fn change(value: &mut Enlarged, line: &[u8], k: usize)
    requires { k < 16 }
{
    let x = number_within(line, k + 1, Code::WORDS - 1);
    match field(line, k) {
        b"originals" => value.originals = number(line, k + 1),
        b"origin" => value.origins[x] = byte(line, k + 2),
        b"behind" => value.behind[x] = byte(line, k + 2),
        _ => change_code(&mut value.code, line, k),
    }
}

// The code of a trial: field 1 names its files, and a change may stand from field k on.
pub fn of_trial(rt: &HostRuntime, line: &[u8], k: usize) -> Enlarged
    requires { k < 16 }
{
    let mut value = from_files(rt, field(line, 1));
    change(&mut value, line, k);
    value
}
