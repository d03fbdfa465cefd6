// The effects of the entries of a cycle set added up, a sum for each message type. No entry point: `cycle_sets` calls it.
#![tactic(auto)]

ghost use Rattle.std.specs.Prelude.{◌≡◌, ◌<◌, ◌^◌, ◌≤◌, nat_abs};
ghost use Rattle.std.specs.Option.{ForSome};
ghost use Rattle.set_sums.specs.Sums.{raised, Within, Added};

use set_entries::Entry;

// Adds a number to the sum of a type; without a type no sum changes.
fn add_to(sums: &mut [i64; 64], message: Option<u8>, change: i64)
    requires { ForSome message (λ t. t < 64) × Within (2 ^ 62) sums.old × (nat_abs change ≤ 1000000) }
    ensures { sums.new ≡ raised sums.old message change }
{
    if let Some(kind) = message {
        sums[usize::from(kind)] += change;
    }
}

// The sums with what the rows of an entry send, less what they take, added as many times as it says.
pub fn add_entry(entry: Entry, sums: &mut [i64; 64])
    requires { Within (2 ^ 61) sums.old }
    ensures { let e = entry.entry in Added e.table.now e.repeats e.rows.now sums.old sums.new }
{
    let times = i64::from(entry.repeats);
    for k in entry.rows {
        let row = tables::row_in(entry.table, *k as usize).fields;
        add_to(sums, row.sent, times);
        add_to(sums, row.taken, -times);
    }
}
