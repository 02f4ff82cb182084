// The program `settle` (paper 01, "The month file", from its second paragraph): month files from standard input, what is billed to
// standard output. A failed read or write is told on standard error; the exit status is 0 all the same.
#![tactic(auto)]

fn main(rt: HostRuntime) {
    runs::settle(&rt);
}
