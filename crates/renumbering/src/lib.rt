// Tables with their words in another order, and the order in which a code with copies is read.

#![tactic(auto)]

pub mod origins;

ghost use Rattle.std.specs.Prelude.{◌≡◌, ℕ, ◌<◌, get_or};
ghost use Rattle.code.specs.Definitions.Lists.{tabulate};
ghost use Rattle.code.specs.Definitions.Tables.{no_word, no_row};
ghost use Rattle.code.specs.Definitions.Sheets.{limits};
ghost use Rattle.code.specs.Definitions.Renumbering.{reordered, reordered_row, renumbered_code};
ghost use Rattle.code.specs.Laws.WellFormed.{RowFits, WellFormed};
ghost use Rattle.renumbering.specs.Reordering.{Known, row_from};

use code::{Code, Row};

// An array of which the first n entries are put in the order of the list.
pub fn reorder_entries<T: Copy>(
    entries: [T; Code::WORDS],
    old: [u8; Code::WORDS],
    n: usize,
) -> [T; Code::WORDS]
    requires { Known limits old n }
    ensures { (none : T) → result ≡ reordered limits old n none entries }
{
    let mut next = entries;
    for i in 0..n {
        next[i] = entries[old[i] as usize];
    }
    next
}

// The rows in the order of the list, and the columns of each: so it is not `reorder_entries` alone.
fn reorder_rows(rows: [Row; Code::WORDS], old: [u8; Code::WORDS], n: usize) -> [Row; Code::WORDS]
    requires { Known limits old n × ((x : ℕ) → x < limits.words → RowFits limits n x (get_or rows x no_row)) }
    ensures { result ≡ tabulate (row_from limits old n rows) limits.words }
{
    let mut next = rows;
    for i in 0..n {
        let row = rows[old[i] as usize];
        next[i] = Row {
            entries: reorder_entries(row.entries, old, n),
        };
    }
    next
}

// The table with its words in the order of the list, of which entry i is the old number of the word that becomes i.
pub fn renumber(code: Code, old: [u8; Code::WORDS]) -> Code
    requires { WellFormed limits code × ((i : ℕ) → i < code.count → get_or old i 0 < code.count) }
    ensures { result ≡ renumbered_code limits old code }
{
    let n = code.count;
    Code {
        words: reorder_entries(code.words, old, n),
        rows: reorder_rows(code.rows, old, n),
        begins: reorder_entries(code.begins, old, n),
        count: n,
    }
}
