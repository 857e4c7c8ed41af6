// The greatest lengths at which the buffers are lent: some more than a verdict needs.

use code::Pairs;

pub const ENTRIES: usize = Pairs::ROOM + 46;

pub const WORK_ENTRIES: usize = Pairs::MARKS + 16;
