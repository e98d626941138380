// The program `report`, on the files that its arguments name or on standard input.

#![tactic(auto)]

fn main(rt: HostRuntime) {
    command::run(&rt, &rt.stderr());
}
