// Runs every worked example of document 01, its tempting errors, the published test's running example, a plant with a detour and quotes for a
// bus that doubles messages through the calls, and prints a line for each.
#![tactic(auto)]

use cycle_sets::Confirmation;
use printing::{Cycle, Entries};
use std::fmt::Display;
use weighing::Weighed;

mod printing;

fn read(rt: &impl Print, title: &str, file: &[u8]) {
    let _ = match reading::read(file) {
        Ok(counts) => println!(rt;
            "{title}: machines {}, types {}, rows {}",
            counts.machines, counts.types, counts.rows
        ),
        Err(fault) => println!(rt; "{title}: {fault}"),
    };
}

fn weigh(rt: &impl Print, title: impl Display + Drop, file: &[u8], weights: &[u16]) {
    let mut cycle = [0; 64];
    let _ = match weighing::weigh(file, weights, &mut cycle) {
        Ok(Weighed::Passed(figures)) => println!(rt;
            "{title}: passed with F {}, n {}, G {}, n x w {}",
            figures.base, figures.most_states, figures.per_progress, figures.per_doubling
        ),
        Ok(Weighed::Cycle { rows }) => {
            let rows = Cycle(&cycle[..rows.min(64)]);
            println!(rt; "{title}: not passed, shown are the rows{rows}")
        }
        Err(fault) => println!(rt; "{title}: {fault}"),
    };
}

// Weighs with two weights, which its title names.
fn weigh_two(rt: &impl Print, name: &str, file: &[u8], first: u16, second: u16) {
    let title = format_args!("{name}, weights {first}, {second}");
    weigh(rt, title, file, &[first, second]);
}

fn weigh_a(rt: &impl Print, first: u16, second: u16) {
    weigh_two(rt, "A", &example_plants::PLANT_A, first, second);
}

// Weighs a plant without types.
fn weigh_untyped(rt: &impl Print, title: &str, file: &[u8]) {
    weigh(rt, title, file, &[]);
}

// Quotes for plant A with weights 2, 1, contents 3, 4 and g 1.
fn quote_a(rt: &impl Print, title: &str, d: u32) {
    let _ = match quoting::quote(&example_plants::PLANT_A, &[2, 1], &[3, 4], 1, d) {
        Ok(quoted) => println!(rt;
            "{title}: ceiling {}, class {}",
            quoted.ceiling, quoted.class
        ),
        Err(fault) => println!(rt; "{title}: {fault}"),
    };
}

// The lent list is printed as it is afterwards.
fn list(rt: &impl Print, title: &str, file: &[u8], machine: u32, out: &mut [u16]) {
    let answer = listing::list(file, machine, out);
    let list = Entries(out);
    let _ = match answer {
        Ok(used) => println!(rt; "{title}: {used} entries, the list holds{list}"),
        Err(fault) => println!(rt; "{title}: {fault}, the list holds{list}"),
    };
}

fn confirm(rt: &impl Print, title: &str, file: &[u8], set: &[u32]) {
    let _ = match cycle_sets::confirm(file, set) {
        Ok(Confirmation::Confirmed) => println!(rt; "{title}: confirmed"),
        Ok(Confirmation::Negative { message, sum }) => {
            println!(rt; "{title}: type {message} has the sum {sum}")
        }
        Err(fault) => println!(rt; "{title}: {fault}"),
    };
}

// The examples stand in small functions, since the time of a check grows faster than the number of arrays that a function lends.
fn reading(rt: &impl Print) {
    read(rt, "A", &example_plants::PLANT_A);
    read(rt, "One machine of 64 states", &example_plants::STATES_64);
    read(rt, "One machine of 65 states", &example_plants::STATES_65);
}

fn weighing_a(rt: &impl Print) {
    weigh_a(rt, 2, 1);
    weigh_a(rt, 1, 0);
    weigh_a(rt, 1, 1);
    weigh_a(rt, 1, 2);
    weigh_a(rt, 1000, 1);
    weigh_a(rt, 1001, 1);
}

fn weighing_one_state(rt: &impl Print) {
    weigh_untyped(rt, "One state, no rows", &example_plants::ONE_STATE);
    weigh_untyped(rt, "One state, row 00", &example_plants::QUIET_ROW);
    weigh_untyped(rt, "One state, row 10", &example_plants::PROGRESS_ROW);
}

fn quoting_a(rt: &impl Print) {
    quote_a(rt, "A, weights 2, 1, contents 3, 4, g 1", 0);
    quote_a(rt, "A, weights 2, 1, contents 3, 4, g 1, d 3", 3);
    quote_a(
        rt,
        "A, weights 2, 1, contents 3, 4, g 1, d 1000000",
        1000000,
    );
    quote_a(
        rt,
        "A, weights 2, 1, contents 3, 4, g 1, d 1000001",
        1000001,
    );
}

fn listing_a(rt: &impl Print) {
    let mut three = [7; 3];
    let mut two = [7; 2];
    list(
        rt,
        "Listing A's machine 1, lent 3 entries",
        &example_plants::PLANT_A,
        1,
        &mut three,
    );
    list(
        rt,
        "Listing A's machine 1, lent 2 entries",
        &example_plants::PLANT_A,
        1,
        &mut two,
    );
}

fn sets_of_b(rt: &impl Print) {
    confirm(
        rt,
        "B, both cycles once",
        &example_plants::PLANT_B,
        &[0, 1, 2, 0, 1, 1, 1, 2, 2, 3],
    );
    weigh_two(rt, "B", &example_plants::PLANT_B, 2, 1);
    weigh_two(rt, "B", &example_plants::PLANT_B, 1, 2);
    confirm(
        rt,
        "B, the panel's cycle alone",
        &example_plants::PLANT_B,
        &[0, 1, 2, 0, 1],
    );
}

// Each tempting error gives another answer to one of these or of those in the next two functions.
fn tempting_weights(rt: &impl Print) {
    weigh_two(
        rt,
        "Weight zero is not good, A",
        &example_plants::PLANT_A,
        3,
        3,
    );
    weigh_untyped(
        rt,
        "Cycles that miss state 0 are judged",
        &example_plants::CYCLE_AT_STATE_1,
    );
    weigh_two(
        rt,
        "A progress row makes a cycle not quiet, A",
        &example_plants::PLANT_A,
        5,
        1,
    );
}

fn tempting_listings(rt: &impl Print) {
    let mut eight = [7; 8];
    let mut five = [7; 5];
    list(
        rt,
        "Parallel rows are listed, lent 8 entries",
        &example_plants::PARALLEL_ROWS,
        0,
        &mut eight,
    );
    list(
        rt,
        "Cycles stand in the order of their rows, lent 5 entries",
        &example_plants::ROWS_BEFORE_STATES,
        0,
        &mut five,
    );
}

fn tempting_set_and_states(rt: &impl Print) {
    confirm(
        rt,
        "Progress cycles are in no set, A, both cycles once",
        &example_plants::PLANT_A,
        &[0, 1, 2, 0, 1, 1, 1, 2, 2, 3],
    );
    weigh_untyped(
        rt,
        "n is the most states of all machines",
        &example_plants::FIRST_SMALLER,
    );
}

// The published test's running example, and the corrected one.
fn two_clients(rt: &impl Print) {
    read(
        rt,
        "Two clients, a server that chooses",
        &example_plants::TWO_CLIENTS,
    );
    confirm(
        rt,
        "The second client and the server's second choice once each",
        &example_plants::TWO_CLIENTS,
        &[1, 1, 4, 4, 5, 6, 7, 2, 1, 3, 11, 12, 13],
    );
    weigh(
        rt,
        "Weights 2, 0, 0, 0, 1, 0",
        &example_plants::TWO_CLIENTS,
        &[2, 0, 0, 0, 1, 0],
    );
}

fn two_clients_in_turn(rt: &impl Print) {
    read(
        rt,
        "Two clients served in turn",
        &example_plants::TWO_CLIENTS_IN_TURN,
    );
    confirm(
        rt,
        "The second client and the server once each",
        &example_plants::TWO_CLIENTS_IN_TURN,
        &[1, 1, 4, 4, 5, 6, 7, 2, 1, 6, 8, 9, 10, 11, 12, 13],
    );
    weigh(
        rt,
        "Weights 2, 0, 0, 0, 1, 0",
        &example_plants::TWO_CLIENTS_IN_TURN,
        &[2, 0, 0, 0, 1, 0],
    );
}

// The cycle shown is a shortest one of all machines.
fn detour(rt: &impl Print) {
    weigh(
        rt,
        "A fan's five rows, a feeder's four and two of these, weights 2, 1",
        &example_plants::DETOUR,
        &[2, 1],
    );
}

fn main(rt: HostRuntime) {
    reading(&rt);
    weighing_a(&rt);
    weighing_one_state(&rt);
    quoting_a(&rt);
    listing_a(&rt);
    sets_of_b(&rt);
    tempting_weights(&rt);
    tempting_listings(&rt);
    tempting_set_and_states(&rt);
    two_clients(&rt);
    two_clients_in_turn(&rt);
    detour(&rt);
}
