#![tactic(auto)]

fn main(rt: HostRuntime) {
    ceiling_run::run(&rt);
}
