// The numbers of a cycle set: each is judged as it is read, and the first fault met decides. It knows no table. No entry point:
// `set_entries` and `cycle_sets` call it.
#![tactic(auto)]

ghost use Rattle.std.specs.Prelude.{◌≡◌, ◌-◌, ◌≤◌, IfOk};
ghost use Rattle.plant.specs.Steps.{read_found, field_found};
ghost use Rattle.plant.specs.Checks.{check_found};
ghost use Rattle.set_numbers.specs.Numbers.{number_in, rows_at, first_numbers, entry_begins, part};
ghost use Rattle.set_numbers.specs.Heads.{HeadAt};

use plant::{Fault, Field, Refusal};

// The first three numbers of an entry: its machine, its repeats and how many rows it has.
#[derive(Clone, Copy)]
pub struct Head {
    pub machine: u32,
    pub repeats: u32,
    pub rows: u32,
}

// What is judged where an entry begins: whether the list has it, and whether fewer than 256 came before.
pub fn entry_begins(set: &[u32], at: usize, before: usize) -> Result<(), Fault>
    requires { before ≤ 256 }
    ensures { check_found result tt at ≡ entry_begins (256 - before) set.now at }
{
    if at < set.len() && before < 256 {
        return Ok(());
    }
    Err(Fault {
        refusal: Refusal::SetEntries,
        place: at,
    })
}

// The number at `at`, at least `low` and below `end`.
fn number_in(set: &[u32], at: usize, low: u32, end: u32) -> Result<Field<u32>, Fault>
    ensures { field_found result ≡ number_in low end set.now at }
{
    if at >= set.len() {
        return Err(Fault {
            refusal: Refusal::SetEnds,
            place: set.len(),
        });
    }
    let number = set[at];
    if low <= number && number < end {
        return Ok(Field {
            value: number,
            next: at + 1,
        });
    }
    Err(Fault {
        refusal: Refusal::SetNumber,
        place: at,
    })
}

// The row numbers from `at` up to `end`, each below `rows`. The loop goes up to the lesser of `end` and the list's length, so that the
// compiler leaves out the comparison with the length in `number_in`.
pub fn rows_in(set: &[u32], at: usize, end: usize, rows: u32) -> Result<(), Fault>
    requires { at ≤ end }
    ensures { check_found result (part set.now at end) end ≡ rows_at (end - at) rows set.now at }
{
    let length = set.len();
    let stop = end.min(length);
    'rows: {
        for i in at..stop {
            if let Err(fault) = number_in(set, i, 0, rows) {
                break 'rows Err(fault);
            }
        }
        if at < end && stop < end {
            break 'rows Err(Fault {
                refusal: Refusal::SetEnds,
                place: length,
            });
        }
        Ok(())
    }
}

// The first three numbers of the entry that begins at `first`: machine, repeats (1 to 1,000,000) and row count.
pub fn first_numbers(set: &[u32], first: usize, machines: u32) -> Result<Field<Head>, Fault>
    ensures rows { read_found (λ head. head.rows) result ≡ first_numbers machines set.now first }
    ensures head { IfOk result (λ read. HeadAt set.now first read.value) }
{
    let machine = number_in(set, first, 0, machines)?;
    let repeats = number_in(set, machine.next, 1, 1_000_001)?;
    let rows = number_in(set, repeats.next, 1, 65)?;
    Ok(Field {
        value: Head {
            machine: machine.value,
            repeats: repeats.value,
            rows: rows.value,
        },
        next: rows.next,
    })
}
