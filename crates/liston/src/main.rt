// Lists the events of the bytes on standard input, whose frames have a checksum.
#![tactic(auto)]

fn main(rt: HostRuntime) {
    streaming::list_input(rt, 1);
}
