// What lowering counted, on standard output.
use std::io;
use steps::counters::Counters;

pub fn labelled(rt: &impl Print, c: Counters) -> io::Result<()> {
    let Counters {
        count,
        offset,
        labels,
    } = c;
    print!(rt; "labelled {count} {offset}, labels {labels}")
}
