// The program `consulta`: month files from standard input as `settle` takes them, every amount of each closed month to standard output.
// A failed read or write is told on standard error; the exit status is 0 all the same.
#![tactic(auto)]

fn main(rt: HostRuntime) {
    runs::consulta(&rt);
}
