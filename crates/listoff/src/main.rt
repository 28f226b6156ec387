// Lists the events of the bytes on standard input, whose frames have no checksum.
#![tactic(auto)]

fn main(rt: HostRuntime) {
    streaming::list_input(rt, 0);
}
