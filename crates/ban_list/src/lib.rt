// Reading a ban list: for every byte string whether it is refused 16, or the bans that it gives. One pass says which bytes they are, and one goes from record to
// record.

#![tactic(auto)]

pub mod fields;

ghost use Rattle.std.specs.Prelude.{◌≡◌, map, ◌≤◌, length};
ghost use Rattle.code.specs.Definitions.Lists.{any};
ghost use Rattle.code.specs.Definitions.BanLists.{bad_ban, ban_of, refused16, bans_of};
ghost use Rattle.code.specs.Laws.Clean.{Clean, record_fields};
ghost use Rattle.ban_list.specs.Ensured.{Room, Stored, Listed};

use csv_records::{bad_bytes, body_len};
use fields::{Record, read_record};

// Stores a ban behind k others.
fn store(numbers: &mut [u8], k: usize, ban: Record)
    requires { Room numbers.old k ban }
    ensures { Stored numbers.old k ban numbers.new }
{
    numbers[3 * k..3 * k + 3].copy_from_slice(&[ban.x as u8, ban.y as u8, ban.z as u8]);
}

// How many bans a list without a final CR LF and without wrong bytes gives; none if it is refused. A record of three numbers has more than three bytes, so
// there is room for the bans.
fn read_records(s: &[u8], words: usize, numbers: &mut [u8]) -> Option<usize>
    requires { Clean s.now × (words ≤ 256) × (length s.now ≤ length numbers.old) }
    ensures { Listed (any (bad_ban words) (record_fields s.now)) (map ban_of (record_fields s.now)) numbers.new result }
{
    let mut at: usize = 0;
    let mut k: usize = 0;
    // A while: a record says where the next one begins.
    while at <= s.len() {
        let ban = read_record(s, at, words)?;
        store(numbers, k, ban);
        k += 1;
        at = ban.next;
    }
    Some(k)
}

// How many bans the list of a table of `words` words gives: they stand at the front of numbers, in the list's order, as X, Y and Z of each. None if it is refused
// 16, and then numbers holds anything.
pub fn read_bans(list: &[u8], words: usize, numbers: &mut [u8]) -> Option<usize>
    requires { (words ≤ 256) × (length list.now ≤ length numbers.old) }
    ensures { Listed (refused16 words list.now) (bans_of list.now) numbers.new result × (length numbers.new ≡ length numbers.old) }
{
    if list.is_empty() {
        return Some(0);
    }
    if bad_bytes(list) {
        return None;
    }
    let e = body_len(list);
    read_records(&list[..e], words, numbers)
}
