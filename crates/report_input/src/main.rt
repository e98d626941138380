// The program `report` once more, which the gate runs without arguments, on standard input.

#![tactic(auto)]

fn main(rt: HostRuntime) {
    command::run(&rt, &rt.stderr());
}
