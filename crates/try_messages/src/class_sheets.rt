// The class sheets of trials: what one gives, and the classes that a text is split by.

ghost use Rattle.std.specs.Prelude.{◌<◌};

use crate::lists;
use class_sheet::take_classes;
use code::{ClassSheet, Classes, TakenClasses};
use std::io;
use std::io::Print;
use try_common::fields::{byte, field};
use try_common::results::write_answer;

// What the class sheet gives whose file field k names.
fn taken(rt: &HostRuntime, line: &[u8], k: usize) -> TakenClasses {
    let mut bytes = [0u8; ClassSheet::BYTES + 1];
    let n = try_common::read_file(rt, field(line, k), &mut bytes);
    take_classes(&bytes[..n])
}

fn write_classes(rt: &impl Print, classes: Classes) -> io::Result<()> {
    lists::write_first(rt, &classes.entries, Classes::BYTES)
}

// Writes the answer to the class sheet in field 1, and the classes that it gives.
pub fn take(rt: &HostRuntime, line: &[u8]) -> io::Result<()> {
    let t = taken(rt, line, 1);
    write_answer(rt, t.answer)?;
    rt.write_all(b"; classes ")?;
    write_classes(rt, t.classes)
}

// The classes of a trial: field k names the file of the class sheet, and a change may stand behind it.
pub fn of_trial(rt: &HostRuntime, line: &[u8], k: usize) -> Classes
    requires { k < 16 }
{
    let mut classes = taken(rt, line, k).classes;
    if field(line, k + 1) == b"class".as_slice() {
        classes.entries[byte(line, k + 2) as usize] = byte(line, k + 3);
    }
    classes
}
