// A watched run of plant A with weights 2 and 1 and contents 3 and 4, by one watcher, and a watcher whose opening is refused: a line for each call.
#![tactic(auto)]

use example_plants::PLANT_A;
use plant::Fault;
use std::fmt::Display;
use watchers::{Opened, Watcher};
use watching::Event;

// Prints the line of a call.
fn tell(rt: &impl Print, call: impl Display + Drop, answer: Result<u64, Fault>) {
    let _ = match answer {
        Ok(left) => println!(rt; "{call}: {left}"),
        Err(fault) => println!(rt; "{call}: {fault}"),
    };
}

fn open(rt: &impl Print, title: &str, weights: &[u16]) -> Watcher {
    let Opened { watcher, answer } = Watcher::open(&PLANT_A, weights, &[3, 4]);
    tell(rt, title, answer);
    watcher
}

fn follow(rt: &impl Print, watcher: &mut Watcher, events: &[Event]) {
    for event in events {
        let answer = watching::take(watcher, *event);
        tell(rt, event, answer);
    }
}

fn main(rt: HostRuntime) {
    let mut watcher = open(&rt, "A, weights 2, 1, contents 3, 4", &[2, 1]);
    let run = [
        Event::Row(0),
        Event::Row(0),
        Event::Loss(1),
        Event::Doubling(0),
        Event::Row(1),
        Event::Row(4),
        Event::Loss(2),
        Event::Doubling(2),
        Event::Row(2),
    ];
    follow(&rt, &mut watcher, &run);
    let mut closed = open(&rt, "A, weights 1, 1, contents 3, 4", &[1, 1]);
    let refused = [Event::Row(0), Event::Loss(0), Event::Doubling(0)];
    follow(&rt, &mut closed, &refused);
}
